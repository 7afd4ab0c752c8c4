// What stays the same all through a run: the routine with its conditions' sets, how many settings there are, and the budget of each of them.
ghost use Rattle.std.specs.Prelude.{◌≡◌, ◌<◌};
ghost use Rattle.shared.specs.Inner.Prepared.{Prepared};

use image::routine::Routine;
use image::setting::Setting;

#[derive(Clone, Copy)]
pub struct Plan<'a> {
    pub routine: Routine<'a>,
    pub sets: &'a [u64],
    pub settings: usize,
    pub budget: u32,
    ghost prepared: { Prepared routine.image.now routine.conditions sets.now settings budget },
}

impl<'a> Plan<'a> {
    pub fn setting(&self, s: usize) -> Setting<'a>
        requires { s < self.now.settings }
        ensures { (result.routine.image.now ≡ self.now.routine.image.now) × (result.s ≡ s) }
    {
        Setting {
            routine: self.routine,
            sets: self.sets,
            s: s as u64,
        }
    }
}
