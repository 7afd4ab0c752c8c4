// Where a shared run starts: "Settings outside the set get idle, 0, 0"; those of the set have nothing behind them.
ghost use Rattle.std.specs.Prelude.{◌≡◌, length};
ghost use Rattle.sets.specs.Member.{bit};
ghost use Rattle.imp.specs.Shared.{Below};
ghost use Rattle.shared.specs.Inner.Handed.{tally_in, Same};
ghost use Rattle.shared.specs.Inner.Starting.{Sized, Starts};

use crate::lent::Lent;
use plain::progress::{IDLE, LIVE};
use sets::Set;

// All settings have their first progress.
pub fn start_all(set: Set, lent: &mut Lent<'_>)
    requires { Sized (length lent.old.outcomes.now) (tally_in lent.old) × Below (length lent.old.outcomes.now) (bit set.bits) }
    ensures starts { Starts (length lent.old.outcomes.now) set lent.old lent.new }
    ensures same { Same lent.old lent.new }
{
    lent.codes.fill(0);
    lent.steps.fill(0);
    for (s, outcome) in lent.outcomes.iter_mut().enumerate() {
        *outcome = if set.has(s as u64) { LIVE } else { IDLE };
    }
}
