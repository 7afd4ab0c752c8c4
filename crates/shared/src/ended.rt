// Who has ended how: the set in fault and the set out are read off the outcomes.
ghost use Rattle.std.specs.Prelude.{◌≡◌, ◌≤◌, eqb, length, get_or};
ghost use Rattle.shared.specs.SharedRun.{set_of};

use crate::lent::Lent;
use sets::Set;

impl Lent<'_> {
    // The settings with this outcome.
    pub fn ended(&self, outcome: u8) -> Set
        requires { length self.now.outcomes.now ≤ 64 }
        ensures { result.bits ≡ set_of (length self.now.outcomes.now) (λ s. eqb (get_or self.now.outcomes.now s 0) outcome) }
    {
        let mut found = Set::empty();
        for (s, o) in self.outcomes.iter().enumerate() {
            if *o == outcome {
                found = found.with(s as u64);
            }
        }
        found
    }
}
