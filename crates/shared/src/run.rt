// The run of a statement for the settings of a set: recursion with the remaining budget and the node number falling.
// What `run` goes on by is made part of it, `inline(always)`: in frames of their own, tries in each other took nearly twice the stack.
ghost use Rattle.sets.specs.Member.{bit};
ghost use Rattle.shared.specs.Inner.Handed.{image_in, state_in, Same};
ghost use Rattle.shared.specs.Inner.Prepared.{OfClass};
ghost use Rattle.shared.specs.Inner.Sharing.{Sharing, Chooses, Follows, Decides, Repeats, Attempts, Shares, sharing, choosing, following, deciding, turning, trying};

use crate::act::act_for;
use crate::ask::ask_for;
use crate::begin::begin_for;
use crate::lent::Lent;
use crate::plan::Plan;
use crate::turn::Turn;
use image::Node;
use image::kinds::Kind;
use sets::Set;

// A choice is not begun: it goes "by its condition, without visit or step". What is begun for none is not run.
#[cycle(attempt_both_choose_decide_follow_repeat_run)]
pub fn run(plan: &Plan<'_>, n: usize, turn: Turn, lent: &mut Lent<'_>) -> u32
    requires of_class { OfClass (image_in plan.now) n 3 }
    requires sharing { Sharing plan.now turn lent.old }
    ensures shares { Shares plan.now.settings (sharing plan.now n (bit turn.on.bits) (state_in lent.old turn.visits)) result lent.new }
    ensures same { Same lent.old lent.new }
{
    let node = plan.routine.node(n);
    let kind = node.kind();
    if kind == Kind::Choice {
        return choose(plan, node, turn, lent);
    }
    let left = begin_for(plan, turn, lent);
    if left.on.is_empty() {
        return left.visits;
    }
    match kind {
        Kind::Skip => left.visits,
        Kind::Sequence => follow(plan, node, left, lent),
        Kind::If => decide(plan, node, left, lent),
        Kind::While => repeat(plan, node, left, lent),
        Kind::Try => attempt(plan, node, left, lent),
        _ => {
            act_for(plan, node, left.on, lent);
            left.visits
        }
    }
}

// One statement for the settings of a set, and then another for the rest: two statements and two sets, so six parameters.
#[cycle(attempt_both_choose_decide_follow_repeat_run)]
#[inline(always)]
fn both(plan: &Plan<'_>, x: usize, y: usize, turn: Turn, rest: Set, lent: &mut Lent<'_>) -> u32
    requires of_class { OfClass (image_in plan.now) x 3 × OfClass (image_in plan.now) y 3 }
    requires sharing { Sharing plan.now turn lent.old }
    requires sharing_2 { Sharing plan.now (record turn { on = rest }) lent.old }
    ensures shares { Shares plan.now.settings (sharing plan.now y (bit rest.bits) (sharing plan.now x (bit turn.on.bits) (state_in lent.old turn.visits))) result lent.new }
    ensures same { Same lent.old lent.new }
{
    let visits = run(plan, x, turn, lent);
    let next = Turn {
        on: rest,
        visits,
        ..turn
    };
    run(plan, y, next, lent)
}

// A choice: its one part for the settings in its condition, its other for the rest.
#[cycle(attempt_both_choose_decide_follow_repeat_run)]
#[inline(always)]
fn choose(plan: &Plan<'_>, node: Node, turn: Turn, lent: &mut Lent<'_>) -> u32
    requires chooses { Chooses plan.now node }
    requires sharing { Sharing plan.now turn lent.old }
    ensures shares { Shares plan.now.settings (choosing plan.now node (bit turn.on.bits) (state_in lent.old turn.visits)) result lent.new }
    ensures same { Same lent.old lent.new }
{
    let chosen = Set::at(plan.sets, node.a);
    let yes = Turn {
        on: turn.on.meet(chosen),
        ..turn
    };
    let no = turn.on.take_away(chosen);
    both(plan, node.b, node.c, yes, no, lent)
}

// A sequence: both of its parts for all that are left.
#[cycle(attempt_both_choose_decide_follow_repeat_run)]
#[inline(always)]
fn follow(plan: &Plan<'_>, node: Node, turn: Turn, lent: &mut Lent<'_>) -> u32
    requires follows { Follows plan.now node }
    requires sharing { Sharing plan.now turn lent.old }
    ensures shares { Shares plan.now.settings (following plan.now node (bit turn.on.bits) (state_in lent.old turn.visits)) result lent.new }
    ensures same { Same lent.old lent.new }
{
    both(plan, node.a, node.b, turn, turn.on, lent)
}

// "An if runs its then part for the settings where the test is true, then its else part for the rest".
#[cycle(attempt_both_choose_decide_follow_repeat_run)]
#[inline(always)]
fn decide(plan: &Plan<'_>, node: Node, turn: Turn, lent: &mut Lent<'_>) -> u32
    requires decides { Decides plan.now node }
    requires sharing { Sharing plan.now turn lent.old }
    ensures shares { Shares plan.now.settings (deciding plan.now node (bit turn.on.bits) (state_in lent.old turn.visits)) result lent.new }
    ensures same { Same lent.old lent.new }
{
    let yes = ask_for(plan, node, turn.on, lent);
    let no = turn.on.take_away(yes);
    let then = Turn { on: yes, ..turn };
    both(plan, node.b, node.c, then, no, lent)
}

// "A while is tested again for the settings that were true and are still live, together": one less of the budget remains each time.
#[cycle(attempt_both_choose_decide_follow_repeat_run)]
#[inline(always)]
fn repeat(plan: &Plan<'_>, node: Node, turn: Turn, lent: &mut Lent<'_>) -> u32
    requires repeats { Repeats plan.now node }
    requires sharing { Sharing plan.now turn lent.old }
    ensures shares { Shares plan.now.settings (turning plan.now node (bit turn.on.bits) (state_in lent.old turn.visits)) result lent.new }
    ensures same { Same lent.old lent.new }
{
    let yes = ask_for(plan, node, turn.on, lent);
    let mut now = Turn { on: yes, ..turn };
    while !now.on.is_empty() {
        let visits = run(plan, node.b, now, lent);
        let left = begin_for(plan, Turn { visits, ..now }, lent);
        let again = ask_for(plan, node, left.on, lent);
        now = Turn { on: again, ..left };
    }
    now.visits
}

// "A handler runs for exactly the settings in which its own try's body ended in fault."
#[cycle(attempt_both_choose_decide_follow_repeat_run)]
#[inline(always)]
fn attempt(plan: &Plan<'_>, node: Node, turn: Turn, lent: &mut Lent<'_>) -> u32
    requires attempts { Attempts plan.now node }
    requires sharing { Sharing plan.now turn lent.old }
    ensures shares { Shares plan.now.settings (trying plan.now node (bit turn.on.bits) (state_in lent.old turn.visits)) result lent.new }
    ensures same { Same lent.old lent.new }
{
    let visits = run(plan, node.a, turn, lent);
    let yes = ask_for(plan, node, turn.on, lent);
    let own = Turn {
        on: yes,
        visits,
        ..turn
    };
    act_for(plan, node, yes, lent);
    run(plan, node.b, own, lent)
}
