// Whether the parts of a statement are short, so that they stand on one line.
ghost use Rattle.std.specs.Prelude.{◌≡◌};
ghost use Rattle.image.specs.Tree.{read};
ghost use Rattle.written.specs.Lister.{shortᵃ, short};
ghost use Rattle.listing.specs.Inner.Texts.{still_short, all_short};
ghost use Rattle.listing.specs.Inner.Listing.{Asking, AskingField, AskingAll};

use image::Node;
use image::kinds::{Kind, OF_A, OF_B, STATEMENT, layout};
use image::routine::Routine;

// A number or a variable.
fn is_leaf(routine: Routine<'_>, n: usize) -> bool
    requires { Asking routine.image.now n 1 }
    ensures { result ≡ shortᵃ (read routine.entry.image.now n).arithmetic }
{
    let node = routine.node(n);
    matches!(node.kind(), Kind::Number | Kind::Variable)
}

// A skip, or an assignment or throw of a number or a variable.
fn is_short(routine: Routine<'_>, n: usize) -> bool
    requires { Asking routine.image.now n 3 }
    ensures { result ≡ short (read routine.entry.image.now n).statement }
{
    let node = routine.node(n);
    match node.kind() {
        Kind::Skip => true,
        Kind::Assign | Kind::Throw => is_leaf(routine, node.a),
        _ => false,
    }
}

// The parts so far are short, and so is the statement in this field, if it holds one.
#[tactic(auto, unfolding(crate::specs::Inner::Texts::still_short))]
fn still_short(routine: Routine<'_>, flat: bool, slot: u32, n: usize) -> bool
    requires { AskingField routine.image.now slot n }
    ensures { result ≡ still_short (read routine.entry.image.now) flat slot n }
{
    flat && (slot != STATEMENT || is_short(routine, n))
}

#[tactic(auto, unfolding(crate::specs::Inner::Texts::all_short))]
pub fn all_short(routine: Routine<'_>, node: Node) -> bool
    requires { AskingAll routine.image.now node }
    ensures { result ≡ all_short (read routine.entry.image.now) node }
{
    let digits = layout(node.kind);
    let a = still_short(routine, true, digits / OF_A % 8, node.a);
    let b = still_short(routine, a, digits / OF_B % 8, node.b);
    still_short(routine, b, digits % 8, node.c)
}
