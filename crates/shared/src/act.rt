// What a statement does by itself in each setting it is run for: an assignment, a throw, and a try that takes a fault.
ghost use Rattle.plain.specs.Inner.Progress.{state_of};
ghost use Rattle.plain.specs.Inner.Running.{Ran};
ghost use Rattle.shared.specs.Inner.Handed.{Same};
ghost use Rattle.shared.specs.Inner.Acting.{acting, Acts, Acting, ActedAt, ActingFor, ActedFor};

use crate::lent::Lent;
use crate::plan::Plan;
use image::Node;
use image::kinds::Kind;
use image::setting::Setting;
use plain::progress::Progress;
use plain::{assign, fault, take};
use sets::Set;

// In one setting, on its own sixteen numbers.
fn act(setting: &Setting<'_>, node: Node, p: Progress, numbers: &mut [i32]) -> Progress
    requires { Acts setting.now.routine.image.now node p numbers.old }
    ensures { Ran (acting setting.now.routine.image.now node setting.now.s (state_of p numbers.old)) result
        numbers.new }
{
    // By the number: `Acts` does not say that the kind is known.
    if node.kind == u32::from(Kind::Assign) {
        return assign(setting, node, p, numbers);
    }
    if node.kind == u32::from(Kind::Throw) {
        return fault(setting, node, p, numbers);
    }
    take(node, p, numbers)
}

// In one setting, if it is of the set: its part of the store is lent on.
fn act_at(setting: &Setting<'_>, node: Node, on: Set, lent: &mut Lent<'_>)
    requires { Acting setting.now.routine.image.now node lent.old }
    ensures acted { ActedAt setting.now.routine.image.now node on setting.now.s lent.old lent.new }
    ensures same { Same lent.old lent.new }
{
    if !on.has(setting.s) {
        return;
    }
    let s = setting.s as usize;
    let at = s * 16;
    let end = at + 16;
    let p = lent.progress(s);
    let q = act(setting, node, p, &mut lent.store[at..end]);
    lent.set_progress(s, q);
}

// In every setting of the set.
pub fn act_for(plan: &Plan<'_>, node: Node, on: Set, lent: &mut Lent<'_>)
    requires { ActingFor plan.now node on lent.old }
    ensures acted { ActedFor plan.now node on lent.old lent.new }
    ensures same { Same lent.old lent.new }
{
    // One setting goes through all numbers: to make each anew would be seen in the time.
    let mut setting = plan.setting(0);
    // By the setting's number: what is lent stands in slices of C's, side by side. Each of the three loops does another thing to it.
    for s in 0..plan.settings {
        setting.s = s as u64;
        act_at(&setting, node, on, lent);
    }
}
