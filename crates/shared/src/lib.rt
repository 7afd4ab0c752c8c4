// The run over a set of settings.
#![tactic(auto)]

ghost use Rattle.std.specs.Prelude.{◌≡◌, ◌^◌, ◌≤◌, [], Ok};
ghost use Rattle.imp.specs.Shared.{beyond};
ghost use Rattle.image.specs.Check.{shape_of};
ghost use Rattle.image.specs.Accepted.{Accepted};
ghost use Rattle.shared.specs.Lent.{tally};
ghost use Rattle.shared.specs.SharedRun.{SharedRuns, set_rows, shared_rows};
ghost use Rattle.shared.specs.Inner.Handed.{tally_in, Same};
ghost use Rattle.shared.specs.Inner.Carried.{Carried};

mod act; // act.rt: what a statement does by itself in each setting
mod ask; // ask.rt: what a statement asks of each setting
mod begin; // begin.rt: a statement is begun
mod ended; // ended.rt: who has ended how
mod lent; // lent.rt: what is lent, and one setting's share of it
mod plan; // plan.rt: what stays the same all through a run
mod run; // run.rt: a statement
mod start; // start.rt: where a run starts
mod turn; // turn.rt: for whom a statement is run

use image::accept::{Shape, check};
use image::conditions::{all_settings, condition_sets};
use image::refusals::Refusal;
use image::routine::Routine;
use lent::Lent;
use plain::progress::{FAULT, LARGEST_BUDGET, OUT};
use plan::Plan;
use run::run;
use sets::Set;
use start::start_all;
use turn::Turn;

// "The answer is the visits, the set in fault and the set out."
#[derive(Clone, Copy)]
pub struct Ends {
    pub visits: u32,
    pub fault: Set,
    pub out: Set,
}

// The run of an image and a set that were accepted, on slices of the right lengths.
fn run_lent(image: &[u8], shape: Shape, set: Set, budget: u32, lent: &mut Lent<'_>) -> Ends
    requires { Carried image.now shape set budget lent.old }
    ensures runs { SharedRuns [] image.now set.bits budget lent.old.store.now (tally_in lent.old)
        lent.new.store.now (tally_in lent.new) (Ok result) }
    ensures same { Same lent.old lent.new }
{
    let sets = condition_sets(image, shape);
    let plan = Plan {
        routine: Routine::of(image, shape),
        sets: &sets,
        settings: lent.outcomes.len(),
        budget,
    };
    start_all(set, lent);
    let turn = Turn {
        on: set,
        rem: budget,
        visits: 0,
    };
    let visits = run(&plan, shape.nodes - 1, turn, lent);
    Ends {
        visits,
        fault: lent.ended(FAULT),
        out: lent.ended(OUT),
    }
}

// "set has a setting at or above N", where N is 2^F.
fn beyond(set: Set, options: u32) -> bool
    requires { options ≤ 6 }
    ensures { result ≡ beyond (2 ^ options) set.bits }
{
    !set.take_away(all_settings(options)).is_empty()
}

// Tests 9, 10 and 12, and the run.
fn run_accepted(
    image: &[u8],
    shape: Shape,
    set: Set,
    budget: u32,
    lent: &mut Lent<'_>,
) -> Result<Ends, Refusal>
    requires { Accepted image.now × (shape ≡ shape_of image.now) }
    ensures runs { SharedRuns (set_rows image.now set.bits budget lent.old.store.now (tally_in lent.old)) image.now
        set.bits budget lent.old.store.now (tally_in lent.old) lent.new.store.now (tally_in lent.new) result }
    ensures same { Same lent.old lent.new }
{
    if beyond(set, shape.options) {
        return Err(Refusal::SetBeyond);
    }
    if LARGEST_BUDGET < budget {
        return Err(Refusal::BudgetOver);
    }
    if !lent.exact(1usize << shape.options) {
        return Err(Refusal::LentWrong);
    }
    Ok(run_lent(image, shape, set, budget, lent))
}

// "The shared run takes the image, a set, a budget, a store of 16N numbers .. N outcomes, N codes and N step counts": refusals 1 to 8, 9, 10, 12.
// Each slice by itself, as C lends it.
pub fn shared_run(
    image: &[u8],
    set: Set,
    budget: u32,
    store: &mut [i32],
    outcomes: &mut [u8],
    codes: &mut [i32],
    steps: &mut [u32],
) -> Result<Ends, Refusal>
    ensures { SharedRuns (shared_rows image.now set.bits budget store.old (tally outcomes.old codes.old steps.old)) image.now
        set.bits budget store.old (tally outcomes.old codes.old steps.old) store.new
        (tally outcomes.new codes.new steps.new) result }
{
    let shape = check(image)?;
    let mut lent = Lent {
        store,
        outcomes,
        codes,
        steps,
    };
    run_accepted(image, shape, set, budget, &mut lent)
}
