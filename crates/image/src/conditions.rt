// The sets of an image's conditions, worked out once, bottom up: a condition may be named many times, and is looked up where it is.
ghost use Rattle.std.specs.Prelude.{◌≡◌, ℕ, ◌≤◌, ◌^◌, ltb};
ghost use Rattle.sets.specs.Member.{has};
ghost use Rattle.image.specs.Rows.{judge};
ghost use Rattle.image.specs.Check.{shape_of};
ghost use Rattle.image.specs.Sets.{in_condition, condition_rows, set_answer};
ghost use Rattle.image.specs.Inner.SetsOf.{TableOf, Turn};
ghost use Rattle.image.specs.Accepted.{Accepted};

use super::accept::{Shape, check};
use super::kinds::ConditionKind;
use super::records::condition_at;
use super::refusals::Refusal;
use sets::Set;

// The set of condition k, from the sets of the conditions before it.
fn set_of(image: &[u8], k: usize, full: Set, sets: &[u64]) -> Set
    requires { Turn image.now k full.bits sets.now }
    ensures { (s : ℕ) → has result s ≡ in_condition image.now k s }
{
    let r = condition_at(image, k);
    let left = Set::at(sets, r.left);
    let right = Set::at(sets, r.right);
    match r.kind() {
        ConditionKind::False => Set::empty(),
        ConditionKind::True => full,
        ConditionKind::Option => Set::option(full, r.option),
        ConditionKind::Not => full.take_away(left),
        ConditionKind::And => left.meet(right),
        ConditionKind::Or => left.join(right),
    }
}

// All settings of an accepted image: its options are at most 6.
pub fn all_settings(options: u32) -> Set
    requires { options ≤ 6 }
    ensures { (s : ℕ) → has result s ≡ ltb s (2 ^ options) }
{
    Set::full(options).unwrap_or(Set::empty())
}

// The sets of all conditions of an accepted image, each from those before it; the places from C on are empty.
pub fn condition_sets(image: &[u8], shape: Shape) -> [u64; 256]
    requires { Accepted image.now × (shape ≡ shape_of image.now) }
    ensures { TableOf image.now shape.conditions result }
{
    let full = all_settings(shape.options);
    let conditions = shape.conditions;
    let mut sets = [0u64; 256];
    // By the index: a table that is made from itself.
    for k in 0..conditions {
        sets[k] = set_of(image, k, full, &sets).bits;
    }
    sets
}

// "the set of settings in which a condition holds": refusals 1 to 8, 15.
pub fn condition_set(image: &[u8], number: usize) -> Result<Set, Refusal>
    ensures { set_answer result ≡ judge (condition_rows image.now number) (in_condition image.now number) }
{
    let shape = check(image)?;
    if shape.conditions <= number {
        return Err(Refusal::ConditionBeyond);
    }
    let sets = condition_sets(image, shape);
    Ok(Set::at(&sets, number))
}
