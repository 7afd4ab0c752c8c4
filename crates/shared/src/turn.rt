// For whom a statement is run, what remains at most of the budget of each of them, and the visits so far.
ghost use Rattle.std.specs.Prelude.{◌≡◌, ◌+◌, ◌-◌, ◌<◌, ◌≤◌, cond, eqb};
ghost use Rattle.sets.specs.Member.{members};
ghost use Rattle.shared.specs.declared.turn.Turn.{Turn};

use sets::Set;

#[derive(Clone, Copy)]
pub struct Turn {
    pub on: Set,
    pub rem: u32,
    pub visits: u32,
}

impl Turn {
    // "If any are left, that is one visit, whatever their number": and each of them has one step less to go.
    pub fn counted(self) -> Turn
        requires { (self.visits ≤ 6400000) × ((members self.on.bits 64 ≡ 0 → ⊥) → 0 < self.rem) }
        ensures { result ≡ cond (eqb (members self.on.bits 64) 0) self
            (record { on = self.on; rem = self.rem - 1; visits = self.visits + 1 }) }
    {
        if self.on.is_empty() {
            return self;
        }
        Turn {
            rem: self.rem - 1,
            visits: self.visits + 1,
            ..self
        }
    }
}
