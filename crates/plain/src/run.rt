// The run of a statement in one setting, straight from the image: a choice is followed by its condition's set and costs no step.
ghost use Rattle.imp.specs.Configure.{configure};
ghost use Rattle.imp.specs.Plain.{run as running};
ghost use Rattle.image.specs.Tree.{read};
ghost use Rattle.plain.specs.Inner.Progress.{state_of};
ghost use Rattle.plain.specs.Inner.Running.{Running, Repeating, Trying, Ran, turning, trying};

use crate::progress::{FAULT, LIVE, Progress};
use crate::step::{assign, begin, decided, fault, take, tested};
use image::Node;
use image::kinds::Kind;
use image::setting::Setting;

// "Each beginning counts one step": a choice is not begun, and what is not live after its beginning does nothing.
#[cycle(attempt_repeat_run)]
pub fn run(
    setting: &Setting<'_>,
    n: usize,
    budget: u32,
    p: Progress,
    numbers: &mut [i32],
) -> Progress
    requires { Running setting.now.routine.image.now n p numbers.old }
    ensures { Ran (running budget (configure setting.now.s (read setting.now.routine.image.now n).statement)
        (state_of p numbers.old)) result numbers.new }
{
    let node = setting.routine.node(n);
    let kind = node.kind();
    if kind == Kind::Choice {
        let part = setting.chosen(node);
        return run(setting, part, budget, p, numbers);
    }
    let q = begin(budget, p);
    if q.outcome != LIVE {
        return q;
    }
    match kind {
        Kind::Skip => q,
        Kind::Assign => assign(setting, node, q, numbers),
        Kind::Sequence => {
            let r = run(setting, node.a, budget, q, numbers);
            run(setting, node.b, budget, r, numbers)
        }
        Kind::If => {
            let part = decided(setting, node, numbers);
            run(setting, part, budget, q, numbers)
        }
        Kind::While => repeat(setting, node, budget, q, numbers),
        Kind::Throw => fault(setting, node, q, numbers),
        _ => attempt(setting, node, budget, q, numbers),
    }
}

// A while that is begun: it is begun anew before each later test.
#[cycle(attempt_repeat_run)]
fn repeat(
    setting: &Setting<'_>,
    node: Node,
    budget: u32,
    p: Progress,
    numbers: &mut [i32],
) -> Progress
    requires { Repeating setting.now.routine.image.now node.a node.b budget p numbers.old }
    ensures { Ran (turning budget setting.now.s setting.now.routine.image.now node.a node.b (state_of p numbers.old))
        result numbers.new }
{
    let mut q = p;
    let mut going = tested(setting, node.a, q, numbers);
    while going {
        let r = run(setting, node.b, budget, q, numbers);
        q = begin(budget, r);
        going = tested(setting, node.a, q, numbers);
    }
    q
}

// A try that is begun: where its body ends in fault, the code is stored, the fault cleared and the handler run.
#[cycle(attempt_repeat_run)]
fn attempt(
    setting: &Setting<'_>,
    node: Node,
    budget: u32,
    p: Progress,
    numbers: &mut [i32],
) -> Progress
    requires { Trying setting.now.routine.image.now node.a node.variable node.b p numbers.old }
    ensures { Ran (trying budget setting.now.s setting.now.routine.image.now node.a node.variable node.b
        (state_of p numbers.old)) result numbers.new }
{
    let r = run(setting, node.a, budget, p, numbers);
    if r.outcome != FAULT {
        return r;
    }
    let q = take(node, r, numbers);
    run(setting, node.b, budget, q, numbers)
}
