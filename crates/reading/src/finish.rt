// A node's own word, once its parts are written: "a node follows all of its subtree".
ghost use Rattle.std.specs.Prelude.{◌≡◌, cond, ◌^◌, ◌<◌, eqb};
ghost use Rattle.image.specs.Kinds.{kind_number};
ghost use Rattle.image.specs.Layout.{layout, variable_digit};
ghost use Rattle.reading.specs.Inner.Parts.{slot_of};
ghost use Rattle.reading.specs.Inner.Node.{name_of, own_word, OwnFields, Finishing, Finishes};

use super::cursor::{Cursor, before};
use image::kinds::{CONDITION, Kind, OF_A, OF_B, OF_VARIABLE, layout, names_node};
use image::words::node_word;

// The name of the child that a field holds, where the cursor stands behind it. Configuring has a count for it and no cursor.
fn name(slot: u32, c: Cursor) -> usize
    ensures { result ≡ name_of (slot_of slot) c }
{
    if names_node(slot) {
        return before(c.node);
    }
    if slot == CONDITION {
        before(c.condition)
    } else {
        0
    }
}

// Only some kinds have a variable.
fn variable_of(kind: Kind, value: u64) -> usize
    ensures { result ≡ cond (eqb (variable_digit (layout (kind_number kind))) 1) value 0 }
{
    if layout(u32::from(kind)) / OF_VARIABLE % 8 == 1 {
        value as usize
    } else {
        0
    }
}

// Only a number has a value.
fn number_of(kind: Kind, value: u64) -> u32
    requires { value < 2 ^ 32 }
    ensures { result ≡ cond (eqb (kind_number kind) 0) value 0 }
{
    match kind {
        Kind::Number => value as u32,
        _ => 0,
    }
}

fn own_word(kind: Kind, value: u64, a: usize, b: usize, c: usize) -> u64
    requires { OwnFields (kind_number kind) value a b c }
    ensures { result ≡ own_word (kind_number kind) value a b c }
{
    let variable = variable_of(kind, value);
    let value = number_of(kind, value);
    node_word(u32::from(kind), variable, value, a, b, c)
}

// The node behind its parts; a and b stand behind the first two of them, c behind all. One by one: each is another call's answer.
#[inline(always)] // as a call of its own it would be handed three cursors
pub fn finish(kind: Kind, value: u64, a: Cursor, b: Cursor, c: Cursor, nodes: &mut [u64]) -> Cursor
    requires { Finishing (kind_number kind) value a b c nodes.old }
    ensures { Finishes (kind_number kind) value a b c nodes.old nodes.new result }
{
    let digits = layout(u32::from(kind));
    let in_a = name(digits / OF_A % 8, a);
    let in_b = name(digits / OF_B % 8, b);
    let in_c = name(digits % 8, c);
    let own = own_word(kind, value, in_a, in_b, in_c);
    let n = c.node;
    nodes[n] = own;
    Cursor { node: n + 1, ..c }
}
