// What is lent to a run, and one setting's share of it: its outcome, its code and its steps.
ghost use Rattle.std.specs.Prelude.{◌≡◌, ◌<◌, ◌≤◌, length};
ghost use Rattle.shared.specs.Lent.{progress};
ghost use Rattle.shared.specs.SharedRun.{exact};
ghost use Rattle.shared.specs.Inner.Lent.{put};
ghost use Rattle.shared.specs.Inner.Handed.{tally_in, Same};

use plain::progress::Progress;

// "a store of 16N numbers .. N outcomes, N codes and N step counts"
#[derive(Drop)]
pub struct Lent<'a> {
    pub store: &'a mut [i32],
    pub outcomes: &'a mut [u8],
    pub codes: &'a mut [i32],
    pub steps: &'a mut [u32],
}

impl Lent<'_> {
    // "store (16N ..), outcomes, codes or steps (N each) .. of exact length".
    #[tactic(auto, unfolding(crate::specs::SharedRun::exact))]
    pub fn exact(&self, n: usize) -> bool
        requires { n ≤ 64 }
        ensures { result ≡ exact n self.now.store.now (tally_in self.now) }
    {
        (self.store.len() == n * 16)
            & ((self.outcomes.len() == n) & ((self.codes.len() == n) & (self.steps.len() == n)))
    }

    // How far setting s is.
    #[tactic(auto, unfolding(crate::specs::Lent::progress))]
    pub fn progress(&self, s: usize) -> Progress
        requires { (s < length self.now.outcomes.now) × (s < length self.now.codes.now) × (s < length self.now.steps.now) }
        ensures { result ≡ progress (tally_in self.now) s }
    {
        Progress {
            outcome: self.outcomes[s],
            code: self.codes[s],
            steps: self.steps[s],
        }
    }

    // Setting s is as far as p says.
    #[tactic(auto, unfolding(crate::specs::Inner::Lent::put))]
    pub fn set_progress(&mut self, s: usize, p: Progress)
        requires { (s < length self.old.outcomes.now) × (s < length self.old.codes.now) × (s < length self.old.steps.now) }
        ensures is_put { tally_in self.new ≡ put s p (tally_in self.old) }
        ensures store { self.new.store.now ≡ self.old.store.now }
        ensures same { Same self.old self.new }
    {
        self.outcomes[s] = p.outcome;
        self.codes[s] = p.code;
        self.steps[s] = p.steps;
    }
}
