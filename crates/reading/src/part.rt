// A part of a routine, whatever its class: the token that it begins with, then its own parts with the marks between them, then the node itself.
ghost use Rattle.std.specs.Prelude.{◌≤◌, ◌<◌};
ghost use Rattle.image.specs.Kinds.{kind_number};
ghost use Rattle.reading.specs.Inner.Parts.{slot_of};
ghost use Rattle.reading.specs.Inner.Node.{PartReady, ReadsPart, FieldsReady, ReadsFields};

use super::condition::condition;
use super::cursor::Cursor;
use super::finish::finish;
use super::lead::part_lead;
use super::mark::{mark, marks};
use super::node::behind_a;
use image::kinds::{CONDITION, Kind, OF_A, OF_B, layout, names_node};
use image::refusals::Refusal;

// What a field of a kind holds: a condition, a part of a class, or nothing. One by one, here and below: the text and F are read, the place moves, nodes and records are written.
#[cycle(field_fields_part)]
#[inline(always)] // as a call of its own it would hand each cursor on once more
fn field(
    text: &[u8],
    options: u64,
    slot: u32,
    c: Cursor,
    nodes: &mut [u64],
    records: &mut [u32],
) -> Result<Cursor, Refusal>
    requires { PartReady text.now options c nodes.old records.old }
    ensures { ReadsPart text.now options (slot_of slot) c result nodes.old nodes.new
        records.old records.new }
{
    if slot == CONDITION {
        return condition(text, options, c, records);
    }
    if names_node(slot) {
        return part(text, options, slot, c, nodes, records);
    }
    Ok(c)
}

// What follows the token that opened a node, and the node: "children in the order a, b, c".
#[cycle(field_fields_part)]
fn fields(
    text: &[u8],
    options: u64,
    kind: Kind,
    value: u64,
    c: Cursor,
    nodes: &mut [u64],
    records: &mut [u32],
) -> Result<Cursor, Refusal>
    requires { FieldsReady text.now options (kind_number kind) value c nodes.old records.old }
    ensures { ReadsFields text.now options (kind_number kind) value c result nodes.old nodes.new
        records.old records.new }
{
    let digits = layout(u32::from(kind));
    let m = marks(kind);
    let before_a = mark(text, c, m.before_a)?;
    let a = field(text, options, digits / OF_A % 8, before_a, nodes, records)?;
    let v = behind_a(text, a, kind, m.behind_a, value)?;
    let before_b = v.cursor;
    let b = field(text, options, digits / OF_B % 8, before_b, nodes, records)?;
    let before_c = mark(text, b, m.behind_b)?;
    let d = field(text, options, digits % 8, before_c, nodes, records)?;
    let end = mark(text, d, m.behind_c)?;
    Ok(finish(kind, v.value, a, b, end, nodes))
}

// A part of a class.
#[cycle(field_fields_part)]
pub fn part(
    text: &[u8],
    options: u64,
    class: u32,
    c: Cursor,
    nodes: &mut [u64],
    records: &mut [u32],
) -> Result<Cursor, Refusal>
    requires { PartReady text.now options c nodes.old records.old × (0 < class) × (class ≤ 3) }
    ensures { ReadsPart text.now options (slot_of class) c result nodes.old nodes.new
        records.old records.new }
{
    let l = part_lead(text, class, c)?;
    fields(text, options, l.kind, l.value, l.cursor, nodes, records)
}
