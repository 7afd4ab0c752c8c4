// A node or a condition, written sign by sign from a place on; the answer is the place behind it.
ghost use Rattle.std.specs.Prelude.{length};
ghost use Rattle.text.specs.Inner.Puts.{Puts};
ghost use Rattle.imp.specs.Numbers.{signed32};
ghost use Rattle.image.specs.Tree.{condition};
ghost use Rattle.listing.specs.Inner.Spelling.{plainly, stands};
ghost use Rattle.listing.specs.Inner.Texts.{node_text, parts_at, condition_text, condition_parts};
ghost use Rattle.listing.specs.Inner.Listing.{Listing, Signing, Plain, ConditionListing, ConditionSigning};

use crate::gap::{put_gap, put_line};
use crate::short::all_short;
use crate::spelling::{condition_spelling, spelling};
use image::routine::Routine;
use image::{ConditionRecord, Node};
use imp::signed;
use text::{put_decimal, put_signed};

// What stands for a sign that is no part, of a record with this variable or option and this number. One by one: conditions and nodes are other records.
#[tactic(auto, unfolding(crate::specs::Inner::Spelling::plainly))]
fn put_plain(
    variable: usize,
    value: u32,
    flat: bool,
    level: usize,
    sign: u8,
    at: usize,
    out: &mut [u8],
) -> usize
    requires { Plain variable value flat level sign at (length out.old) }
    ensures { Puts (plainly variable (signed32 value) flat level sign) at out.old out.new result }
{
    match sign {
        b'V' => put_decimal(out, at, variable),
        b'N' => put_signed(out, at, signed(value)),
        b'>' => put_gap(out, at, flat, level + 1),
        b'^' => put_gap(out, at, flat, level),
        b'@' => put_line(out, at, level),
        b'.' => at,
        _ => {
            out[at] = sign;
            at + 1
        }
    }
}

#[cycle(list_condition_put_condition_sign)]
fn put_condition_sign(
    routine: Routine<'_>,
    r: ConditionRecord,
    sign: u8,
    at: usize,
    out: &mut [u8],
) -> usize
    requires { ConditionSigning routine.image.now r sign at (length out.old) }
    ensures { Puts (stands (condition_parts (condition routine.entry.image.now) r) sign) at out.old out.new result }
{
    match sign {
        b'A' => list_condition(routine, r.left, at, out),
        b'B' => list_condition(routine, r.right, at, out),
        _ => put_plain(r.option as usize, 0, true, 0, sign, at, out),
    }
}

// Condition k, written out. It and `list_node` stay two: their records have other fields, and a condition has no level.
#[cycle(list_condition_put_condition_sign)]
fn list_condition(routine: Routine<'_>, k: usize, at: usize, out: &mut [u8]) -> usize
    requires { ConditionListing routine.image.now k at (length out.old) }
    ensures { Puts (condition_text routine.entry.image.now k) at out.old out.new result }
{
    let r = routine.condition(k);
    let mut end = at;
    for &sign in condition_spelling(r.kind()) {
        end = put_condition_sign(routine, r, sign, end, out);
    }
    end
}

// What stands for a sign of a node at a level, one by one as in `put_plain`.
#[cycle(list_node_put_sign)]
fn put_sign(
    routine: Routine<'_>,
    node: Node,
    flat: bool,
    level: usize,
    sign: u8,
    at: usize,
    out: &mut [u8],
) -> usize
    requires { Signing routine.image.now node flat level sign at (length out.old) }
    ensures { Puts (stands (parts_at routine.entry.image.now level node) sign) at out.old out.new result }
{
    match sign {
        b'A' => list_node(routine, node.a, level + 1, at, out),
        b'B' => list_node(routine, node.b, level + 1, at, out),
        b'C' => list_node(routine, node.c, level + 1, at, out),
        b'X' => list_node(routine, node.a, level, at, out),
        b'Y' => list_node(routine, node.b, level, at, out),
        b'K' => list_condition(routine, node.a, at, out),
        _ => put_plain(node.variable, node.value, flat, level, sign, at, out),
    }
}

// Node n at a level.
#[cycle(list_node_put_sign)]
pub fn list_node(routine: Routine<'_>, n: usize, level: usize, at: usize, out: &mut [u8]) -> usize
    requires { Listing routine.image.now n level at (length out.old) }
    ensures { Puts (node_text routine.entry.image.now level n) at out.old out.new result }
{
    let node = routine.node(n);
    let flat = all_short(routine, node);
    let mut end = at;
    for &sign in spelling(node.kind()) {
        end = put_sign(routine, node, flat, level, sign, end, out);
    }
    end
}
