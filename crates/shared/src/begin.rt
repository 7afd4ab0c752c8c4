// "At a statement, of the live settings it is run for, and no others, those whose budget is spent first become out."
ghost use Rattle.std.specs.Prelude.{◌≡◌};
ghost use Rattle.shared.specs.Inner.Handed.{tally_in, Same};
ghost use Rattle.shared.specs.Inner.Beginning.{BeginningAt, BeganAt, BeginningFor, BegunFor};

use crate::lent::Lent;
use crate::plan::Plan;
use crate::turn::Turn;
use plain::begin;
use plain::progress::LIVE;
use sets::Set;

// Setting s is begun if it is of the set; where it then is live, it joins those that are left.
fn begin_at(plan: &Plan<'_>, on: Set, s: usize, left: Set, lent: &mut Lent<'_>) -> Set
    requires { BeginningAt plan.now.settings s (tally_in lent.old) }
    ensures began { BeganAt plan.now.settings plan.now.budget on s left (tally_in lent.old) (tally_in lent.new) result }
    ensures store { lent.new.store.now ≡ lent.old.store.now }
    ensures same { Same lent.old lent.new }
{
    if !on.has(s as u64) {
        return left;
    }
    let p = begin(plan.budget, lent.progress(s));
    lent.set_progress(s, p);
    if p.outcome == LIVE {
        return left.with(s as u64);
    }
    left
}

// A statement is begun for the settings of a set.
pub fn begin_for(plan: &Plan<'_>, turn: Turn, lent: &mut Lent<'_>) -> Turn
    requires { BeginningFor plan.now turn lent.old }
    ensures begun { BegunFor plan.now turn lent.old lent.new result }
    ensures same { Same lent.old lent.new }
{
    let mut left = Set::empty();
    // By the setting's number: what is lent stands in slices of C's, side by side. Each of the three loops does another thing to it.
    for s in 0..plan.settings {
        left = begin_at(plan, turn.on, s, left, lent);
    }
    Turn { on: left, ..turn }.counted()
}
