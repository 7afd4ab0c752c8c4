// What a statement asks of each setting it is run for: an if and a while ask their test, a try asks whether its body ended in fault.
ghost use Rattle.std.specs.Prelude.{◌≡◌, ◌&&◌, ◌||◌, ℕ, eqb};
ghost use Rattle.sets.specs.Member.{has};
ghost use Rattle.shared.specs.Inner.Handed.{image_in};
ghost use Rattle.shared.specs.Inner.Asking.{asking, answers, Asks, Asking, AskingFor};

use crate::lent::Lent;
use crate::plan::Plan;
use image::Node;
use image::kinds::Kind;
use image::setting::Setting;
use plain::boolean;
use plain::progress::FAULT;
use sets::Set;

// In one setting, by its outcome and its numbers. "Out is never caught. Fault 0 is a fault."
#[tactic(auto, unfolding(crate::specs::Inner::Asking::asking))]
fn ask(setting: &Setting<'_>, node: Node, outcome: u8, numbers: &[i32]) -> bool
    requires { Asks setting.now.routine.image.now node numbers.now }
    ensures { result ≡ asking setting.now.routine.image.now node setting.now.s outcome numbers.now }
{
    // By the number: `Asks` does not say that the kind is known.
    if node.kind == u32::from(Kind::Try) {
        return outcome == FAULT;
    }
    boolean(setting, node.a, numbers)
}

// The setting joins those found if it is of the set and the answer is yes.
fn ask_at(setting: &Setting<'_>, node: Node, on: Set, found: Set, lent: &Lent<'_>) -> Set
    requires { Asking setting.now.routine.image.now node lent.now }
    ensures { (t : ℕ) → has result t ≡
        (has found t || ((has on t && eqb t setting.now.s) && answers setting.now.routine.image.now node lent.now t)) }
{
    if !on.has(setting.s) {
        return found;
    }
    let s = setting.s as usize;
    let at = s * 16;
    let end = at + 16;
    let outcome = lent.outcomes[s];
    if ask(setting, node, outcome, &lent.store[at..end]) {
        return found.with(setting.s);
    }
    found
}

// The settings of the set in which the answer is yes.
pub fn ask_for(plan: &Plan<'_>, node: Node, on: Set, lent: &Lent<'_>) -> Set
    requires { AskingFor plan.now node on lent.now }
    ensures { (t : ℕ) → has result t ≡ (has on t && answers (image_in plan.now) node lent.now t) }
{
    let mut found = Set::empty();
    // One setting goes through all numbers: to make each anew would be seen in the time.
    let mut setting = plan.setting(0);
    // By the setting's number: what is lent stands in slices of C's, side by side. Each of the three loops does another thing to it.
    for s in 0..plan.settings {
        setting.s = s as u64;
        found = ask_at(&setting, node, on, found, lent);
    }
    found
}
