// What one record may hold: tests 5 to 7 of one condition and one node. They are joined by `&`: to stop early would save
// little, and this way each function has one answer to prove.
ghost use Rattle.std.specs.Prelude.{◌≡◌, true, ◌<◌};
ghost use Rattle.image.specs.Records.{node};
ghost use Rattle.image.specs.Layout.{field_fits, names_node};
ghost use Rattle.image.specs.Rows.{condition_fits, slot_fits, node_fits, class, slot_classed, classed};

use super::kinds::{
    Kind, OF_A, OF_B, OF_CLASS, OF_LEFT, OF_OPTION, OF_VARIABLE, STATEMENT, condition_layout,
    layout, names_node,
};
use super::records::{ConditionRecord, Node};
use super::routine::Routine;

// A field that is not used is zero, and one that is used is below its bound.
fn field_fits(digit: u32, value: usize, bound: usize) -> bool
    ensures { result ≡ field_fits digit value bound }
{
    if digit == 0 {
        value == 0
    } else {
        value < bound
    }
}

// A node's name is lower, a condition's number below C.
fn slot_fits(conditions: usize, n: usize, slot: u32, value: usize) -> bool
    ensures { result ≡ slot_fits conditions n slot value }
{
    if names_node(slot) {
        field_fits(slot, value, n)
    } else {
        field_fits(slot, value, conditions)
    }
}

// "condition: kind, option not below F, name not lower, unused field set"
pub fn condition_fits(options: u32, k: usize, r: ConditionRecord) -> bool
    ensures { result ≡ condition_fits options k r }
{
    let digits = condition_layout(r.kind);
    let option = field_fits(digits / OF_OPTION % 8, r.option as usize, options as usize);
    let left = field_fits(digits / OF_LEFT % 8, r.left, k);
    let right = field_fits(digits % 8, r.right, k);
    (digits != 0) & (option & (left & right))
}

// "node: kind, node name not lower, condition number not below C, variable over 15, unused field set"
pub fn node_fits(conditions: usize, n: usize, node: Node) -> bool
    ensures { result ≡ node_fits conditions n node }
{
    if node.kind == u32::from(Kind::Number) {
        return node.high == 0;
    }
    let digits = layout(node.kind);
    let variable = field_fits(digits / OF_VARIABLE % 8, node.variable, 16);
    let a = slot_fits(conditions, n, digits / OF_A % 8, node.a);
    let b = slot_fits(conditions, n, digits / OF_B % 8, node.b);
    let c = slot_fits(conditions, n, digits % 8, node.c);
    (digits != 0) & ((node.zero == 0) & (variable & (a & (b & c))))
}

// The class of node n: 1 arithmetic, 2 boolean, 3 statement.
fn class(routine: Routine<'_>, n: usize) -> u32
    requires { n < routine.nodes }
    ensures { result ≡ class routine.entry.image.now n }
{
    layout(routine.node(n).kind) / OF_CLASS % 8
}

// A field that names a node names one of its class.
fn slot_classed(routine: Routine<'_>, slot: u32, value: usize) -> bool
    requires { names_node slot ≡ true → value < routine.nodes }
    ensures { result ≡ slot_classed routine.entry.image.now slot value }
{
    if names_node(slot) {
        class(routine, value) == slot
    } else {
        true
    }
}

// "a child of the wrong class, or the root is no statement": of a node that test 6 passes, so that its names are lower.
pub fn classed(routine: Routine<'_>, n: usize) -> bool
    requires { (n < routine.nodes)
        × (node_fits routine.conditions n (node routine.image.now n) ≡ true) }
    ensures { result ≡ classed routine.entry.image.now n }
{
    let node = routine.node(n);
    let digits = layout(node.kind);
    let a = slot_classed(routine, digits / OF_A % 8, node.a);
    let b = slot_classed(routine, digits / OF_B % 8, node.b);
    let c = slot_classed(routine, digits % 8, node.c);
    let children = a & (b & c);
    if n + 1 == routine.nodes {
        return children & (digits / OF_CLASS % 8 == STATEMENT);
    }
    children
}
