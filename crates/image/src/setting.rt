// A setting of an accepted routine.
ghost use Rattle.std.specs.Prelude.{◌≡◌, cond, get_or};
ghost use Rattle.sets.specs.Member.{bit};
ghost use Rattle.image.specs.Inner.Ready.{Ready};

use super::records::Node;
use super::routine::Routine;

// The routine, the sets of its conditions, and the setting's number.
#[derive(Clone, Copy)]
pub struct Setting<'a> {
    pub routine: Routine<'a>,
    pub sets: &'a [u64],
    pub s: u64,
    ghost ready: { Ready routine.image.now routine.conditions sets.now s },
}

impl Setting<'_> {
    // The side that stands for a choice.
    pub fn chosen(self, node: Node) -> usize
        ensures { result ≡ cond (bit (get_or self.entry.sets.now node.a 0) self.entry.s) node.b node.c }
    {
        node.chosen(self.sets, self.s)
    }
}
