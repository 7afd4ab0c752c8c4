// What a statement does without running another: it begins, tests, assigns, throws or takes a fault.
ghost use Rattle.std.specs.Prelude.{◌≡◌, ◌&&◌, cond, eqb, ◌<◌};
ghost use Rattle.imp.specs.Shared.{value_in, truth_in};
ghost use Rattle.imp.specs.State.{store, thrown, taken};
ghost use Rattle.image.specs.Tree.{read};
ghost use Rattle.plain.specs.Inner.Evaluating.{Evaluating};
ghost use Rattle.plain.specs.Inner.Progress.{Proper, state_of};
ghost use Rattle.plain.specs.Inner.Running.{Takes, Began, Ran};

use crate::evaluate::{arithmetic, boolean};
use crate::progress::{FAULT, LIVE, OUT, Progress};
use image::Node;
use image::setting::Setting;

// Begins a statement: "a run which has already begun as many as its budget stops as out"; what is not live passes by.
pub fn begin(budget: u32, p: Progress) -> Progress
    requires { Proper p.outcome p.code }
    ensures { Began budget p result }
{
    if p.outcome != LIVE {
        return p;
    }
    if p.steps < budget {
        return Progress {
            steps: p.steps + 1,
            ..p
        };
    }
    Progress { outcome: OUT, ..p }
}

// A while goes on where the setting is live and the test holds.
pub fn tested(setting: &Setting<'_>, n: usize, p: Progress, numbers: &[i32]) -> bool
    requires { Evaluating setting.now.routine.image.now n 2 numbers.now }
    ensures { result ≡
        (eqb p.outcome 1 && truth_in setting.now.s (read setting.now.routine.image.now n).boolean numbers.now) }
{
    if p.outcome != LIVE {
        return false;
    }
    boolean(setting, n, numbers)
}

// The part that an if runs.
pub fn decided(setting: &Setting<'_>, node: Node, numbers: &[i32]) -> usize
    requires { Evaluating setting.now.routine.image.now node.a 2 numbers.now }
    ensures { result ≡
        cond (truth_in setting.now.s (read setting.now.routine.image.now node.a).boolean numbers.now) node.b node.c }
{
    node.side(boolean(setting, node.a, numbers))
}

// The node's variable becomes the value of its expression.
pub fn assign(setting: &Setting<'_>, node: Node, p: Progress, numbers: &mut [i32]) -> Progress
    requires evaluating { Evaluating setting.now.routine.image.now node.a 1 numbers.old }
    requires variable_bound { (node.variable < 16) × Proper p.outcome p.code }
    ensures { Ran
        (store node.variable (value_in setting.now.s (read setting.now.routine.image.now node.a).arithmetic numbers.old)
        (state_of p numbers.old)) result numbers.new }
{
    numbers[node.variable] = arithmetic(setting, node.a, numbers);
    p
}

// The fault whose number is the value of the node's expression.
pub fn fault(setting: &Setting<'_>, node: Node, p: Progress, numbers: &[i32]) -> Progress
    requires { Evaluating setting.now.routine.image.now node.a 1 numbers.now }
    ensures { Ran
        (thrown (value_in setting.now.s (read setting.now.routine.image.now node.a).arithmetic numbers.now)
        (state_of p numbers.now)) result numbers.now }
{
    let code = arithmetic(setting, node.a, numbers);
    Progress {
        outcome: FAULT,
        code,
        ..p
    }
}

// A try "stores n in its variable, clears the fault".
pub fn take(node: Node, p: Progress, numbers: &mut [i32]) -> Progress
    requires { Takes node p numbers.old }
    ensures { Ran (taken node.variable (state_of p numbers.old)) result numbers.new }
{
    numbers[node.variable] = p.code;
    Progress {
        outcome: LIVE,
        code: 0,
        ..p
    }
}
