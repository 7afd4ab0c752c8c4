// The check of an image: tests 1 to 8, "in that order, each over the whole image before the next".
ghost use Rattle.std.specs.Prelude.{◌≡◌, not, drop};
ghost use Rattle.image.specs.Records.{condition_record, node};
ghost use Rattle.image.specs.Rows.{lowest, condition_fits, node_fits, classed, edition_wrong, counts_wrong, check_rows, judge};
ghost use Rattle.image.specs.Inner.Whole.{Fitting};
ghost use Rattle.image.specs.Check.{answer_of, shape_of};
ghost use Rattle.image.specs.Inner.Headed.{Headed};

use super::fits::{classed, condition_fits, node_fits};
use super::names::lowest_named;
use super::records::{Header, header_at};
use super::refusals::Refusal;
use super::routine::Routine;
use super::search::lowest;

// F, C and P.
#[derive(Clone, Copy, PartialEq, Eq)]
pub struct Shape {
    pub options: u32,
    pub conditions: usize,
    pub nodes: usize,
}

// The lowest condition that does not fit, and C where each does.
fn lowest_condition(routine: Routine<'_>, options: u32) -> usize
    ensures { result ≡ lowest routine.entry.conditions
        (λ k. not (condition_fits options k (condition_record routine.entry.image.now k))) }
{
    lowest(
        routine.conditions,
        |k| !condition_fits(options, k, routine.condition(k)),
    )
}

// The lowest node that does not fit, and P where each does.
fn lowest_node(routine: Routine<'_>) -> usize
    ensures { result ≡ lowest routine.entry.nodes
        (λ n. not (node_fits routine.entry.conditions n (node routine.entry.image.now n))) }
{
    lowest(
        routine.nodes,
        |n| !node_fits(routine.conditions, n, routine.node(n)),
    )
}

// The lowest node with a child of the wrong class, or the root if it is no statement; P where there is none.
fn lowest_class(routine: Routine<'_>) -> usize
    requires { Fitting routine.image.now routine.conditions routine.nodes }
    ensures { result ≡ lowest routine.entry.nodes (λ n. not (classed routine.entry.image.now n)) }
{
    lowest(routine.nodes, |n| !classed(routine, n))
}

// "edition not 1, or header zero bits set"
fn edition_wrong(h: Header) -> bool
    ensures { result ≡ edition_wrong h }
{
    (h.edition != 1) | (h.zero != 0)
}

// "F > 6, C > 256, P = 0 or P > 1,024"
fn counts_wrong(h: Header) -> bool
    ensures { result ≡ counts_wrong h }
{
    (6 < h.options) | ((256 < h.conditions) | ((h.nodes == 0) | (1024 < h.nodes)))
}

// Tests 5 to 8, of an image whose header and length are right.
fn check_records(image: &[u8], shape: Shape) -> Result<Shape, Refusal>
    requires { Headed image.now shape }
    ensures { answer_of result ≡ judge (drop 4 (check_rows image.now)) shape }
{
    let conditions = shape.conditions;
    let nodes = shape.nodes;
    let routine = Routine {
        image,
        conditions,
        nodes,
    };
    let condition = lowest_condition(routine, shape.options);
    if condition < conditions {
        return Err(Refusal::ConditionWrong(condition));
    }
    let node = lowest_node(routine);
    if node < nodes {
        return Err(Refusal::NodeWrong(node));
    }
    let parent = lowest_class(routine);
    if parent < nodes {
        return Err(Refusal::ClassWrong(parent));
    }
    let named = lowest_named(routine);
    if named < nodes - 1 {
        return Err(Refusal::NamedWrong(named));
    }
    Ok(shape)
}

pub fn check(image: &[u8]) -> Result<Shape, Refusal>
    ensures { answer_of result ≡ judge (check_rows image.now) (shape_of image.now) }
{
    if image.len() < 8 {
        return Err(Refusal::ImageShort);
    }
    let h = header_at(image);
    if edition_wrong(h) {
        return Err(Refusal::EditionWrong);
    }
    if counts_wrong(h) {
        return Err(Refusal::CountsWrong);
    }
    if image.len() != 8 + 4 * h.conditions + 8 * h.nodes {
        return Err(Refusal::LengthWrong);
    }
    let shape = Shape {
        options: h.options,
        conditions: h.conditions,
        nodes: h.nodes,
    };
    check_records(image, shape)
}
