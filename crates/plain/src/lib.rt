// The run of one setting: the value of an expression, the plain run, and the run of one hall. What the shared run does in each of its settings is lent to it (`pub use`).
#![tactic(auto)]

ghost use Rattle.std.specs.Prelude.{◌≡◌, ◌<◌, length};
ghost use Rattle.image.specs.Check.{shape_of};
ghost use Rattle.image.specs.Sets.{settings};
ghost use Rattle.image.specs.Accepted.{Accepted};
ghost use Rattle.plain.specs.PlainRun.{lent_rows, plain_rows, hall_rows, RunsIn, Runs};

mod evaluate; // evaluate.rt: the value of an expression
pub mod progress; // progress.rt: how far a setting is
mod run; // run.rt: a statement
mod step; // step.rt: what a statement does by itself

pub use evaluate::boolean;
use image::accept::{Shape, check};
use image::conditions::{all_settings, condition_sets};
use image::kinds::is_choice;
use image::refusals::Refusal;
use image::routine::Routine;
use image::search::lowest;
use image::setting::Setting;
use progress::{LARGEST_BUDGET, LIVE, Progress};
use run::run;
pub use step::{assign, begin, fault, take};

// Tests 10 and 12, and the run in setting s.
fn run_accepted(
    image: &[u8],
    shape: Shape,
    s: u64,
    budget: u32,
    numbers: &mut [i32],
) -> Result<Progress, Refusal>
    requires { Accepted image.now × (shape ≡ shape_of image.now) × (s < settings image.now) }
    ensures { RunsIn s (lent_rows budget (length numbers.old)) image.now budget numbers.old
        numbers.new result }
{
    if LARGEST_BUDGET < budget {
        return Err(Refusal::BudgetOver);
    }
    if numbers.len() != 16 {
        return Err(Refusal::LentWrong);
    }
    let sets = condition_sets(image, shape);
    let setting = Setting {
        routine: Routine::of(image, shape),
        sets: &sets,
        s,
    };
    let fresh = Progress {
        outcome: LIVE,
        code: 0,
        steps: 0,
    };
    Ok(run(&setting, shape.nodes - 1, budget, fresh, numbers))
}

// "The plain run takes an image, a budget and 16 numbers and answers outcome, code, steps": refusals 1 to 8, 13, 10, 12.
pub fn plain_run(image: &[u8], budget: u32, numbers: &mut [i32]) -> Result<Progress, Refusal>
    ensures { Runs (plain_rows image.now budget (length numbers.old)) image.now budget
        numbers.old numbers.new result }
{
    let shape = check(image)?;
    let routine = Routine::of(image, shape);
    let choice = lowest(routine.nodes, |n| is_choice(routine.node(n).kind));
    if choice < routine.nodes {
        return Err(Refusal::ChoiceHeld(choice));
    }
    run_accepted(image, shape, 0, budget, numbers)
}

// "Join configuring and the plain run into one call that takes image, setting, budget and 16 numbers": refusals 1 to 8, 11, 10, 12.
pub fn one_hall(
    image: &[u8],
    setting: u64,
    budget: u32,
    numbers: &mut [i32],
) -> Result<Progress, Refusal>
    ensures { RunsIn setting (hall_rows image.now setting budget (length numbers.old)) image.now budget
        numbers.old numbers.new result }
{
    let shape = check(image)?;
    if !all_settings(shape.options).has(setting) {
        return Err(Refusal::SettingBeyond);
    }
    run_accepted(image, shape, setting, budget, numbers)
}
