// Writing a configured node: a choice is its chosen part, and any other node follows all of its subtree, "children in the order a, b, c".
ghost use Rattle.std.specs.Prelude.{◌≡◌, true, cond, ◌<◌, eqb, length};
ghost use Rattle.image.specs.Layout.{names_node};
ghost use Rattle.configure.specs.Inner.Writing.{Writing, Wrote, hung, SlotWriting, SlotWrote, named, own_word, Ended};

use image::Node;
use image::kinds::{Kind, OF_A, OF_B, is_choice, layout, names_node};
use image::setting::Setting;
use image::words::{node_word, put};

// A child was just written, so its name is the number before the next; a field that names no node is zero. Reading goes by a cursor for it.
fn name(slot: u32, next: usize) -> usize
    requires { names_node slot ≡ true → 0 < next }
    ensures { result ≡ named slot next }
{
    if names_node(slot) { next - 1 } else { 0 }
}

// Only a number has a value. By the number of its kind, since it asks nothing of the node; reading has a kind and a value.
fn value_of(node: Node) -> u32
    ensures { result ≡ cond (eqb node.kind 0) node.value 0 }
{
    if node.kind == u32::from(Kind::Number) {
        node.value
    } else {
        0
    }
}

// The node itself, once its children are written: the next nodes after them are after_a, after_b and after_c.
fn own_word(node: Node, after_a: usize, after_b: usize, after_c: usize) -> u64
    requires { Ended node after_a after_b after_c }
    ensures { result ≡ own_word node after_a after_b after_c }
{
    let digits = layout(node.kind);
    let a = name(digits / OF_A % 8, after_a);
    let b = name(digits / OF_B % 8, after_b);
    let c = name(digits % 8, after_c);
    node_word(node.kind, node.variable, value_of(node), a, b, c)
}

// The child that a field names, or nothing. The answer is the next node's number, as that of `write`.
#[cycle(write_write_slot)]
fn write_slot(setting: &Setting<'_>, slot: u32, value: usize, at: usize, out: &mut [u8]) -> usize
    requires { SlotWriting setting.now.routine.image.now setting.now.s slot value at (length out.old) }
    ensures { SlotWrote (hung setting.now.routine.image.now setting.now.s slot value) at out.old out.new result }
{
    if names_node(slot) {
        return write(setting, value, at, out);
    }
    at
}

// Node n configured for setting s, as nodes `at` and on. A choice, whose field a is a condition, becomes its chosen part.
#[cycle(write_write_slot)]
pub fn write(setting: &Setting<'_>, n: usize, at: usize, out: &mut [u8]) -> usize
    requires { Writing setting.now.routine.image.now setting.now.s n at (length out.old) }
    ensures { Wrote setting.now.routine.image.now setting.now.s n at out.old out.new result }
{
    let node = setting.routine.node(n);
    if is_choice(node.kind) {
        let part = setting.chosen(node);
        return write(setting, part, at, out);
    }
    let digits = layout(node.kind);
    let slot_a = digits / OF_A % 8;
    let slot_b = digits / OF_B % 8;
    let after_a = write_slot(setting, slot_a, node.a, at, out);
    let after_b = write_slot(setting, slot_b, node.b, after_a, out);
    let after_c = write_slot(setting, digits % 8, node.c, after_b, out);
    let own = own_word(node, after_a, after_b, after_c);
    put(out, 8 + 8 * after_c, own, 8);
    after_c + 1
}
