// The records of an image, as their fields.
ghost use Rattle.std.specs.Prelude.{◌≡◌, cond, ◌+◌, ◌*◌, ◌≤◌, length, get_or};
ghost use Rattle.sets.specs.Member.{bit};
ghost use Rattle.image.specs.Bytes.{number_at};
ghost use Rattle.image.specs.Layout.{layout, condition_layout};
ghost use Rattle.image.specs.Kinds.{kind_number, condition_kind_number};
ghost use Rattle.image.specs.Records.{header_fields, condition_fields, node_fields, header, condition_record, node};

use super::kinds::{ConditionKind, Kind};
use sets::Set;

#[derive(Clone, Copy)]
pub struct Header {
    pub edition: u64,
    pub options: u32,
    pub conditions: usize,
    pub nodes: usize,
    pub zero: u64,
}

// The kind is the image's number: before the check any may stand there.
#[derive(Clone, Copy)]
pub struct ConditionRecord {
    pub kind: u32,
    pub option: u32,
    pub left: usize,
    pub right: usize,
}

// A node's fields, and those of a number node over the same bits; the kind as of a condition.
#[derive(Clone, Copy)]
pub struct Node {
    pub kind: u32,
    pub variable: usize,
    pub a: usize,
    pub b: usize,
    pub c: usize,
    pub zero: u64,
    pub high: u64,
    pub value: u32,
}

// The number that n bytes from `at` make, most significant first: n is the caller's, so no array of the library's fits.
pub fn number_at(image: &[u8], at: usize, n: usize) -> u64
    requires { (n ≤ 8) × (at + n ≤ length image.now) }
    ensures { result ≡ number_at image.now at n }
{
    let mut v: u64 = 0;
    for byte in &image[at..at + n] {
        v = v * 256 + u64::from(*byte);
    }
    v
}

impl ConditionRecord {
    // The kind of a record that test 5 passes.
    pub fn kind(self) -> ConditionKind
        requires { condition_layout self.kind ≡ 0 → ⊥ }
        ensures { condition_kind_number result ≡ self.kind }
    {
        ConditionKind::try_from(self.kind).unwrap()
    }
}

impl Node {
    // The kind of a node that test 6 passes. No other number comes: what stands for one spares each node a test, and a trap, of its own.
    pub fn kind(self) -> Kind
        requires { layout self.kind ≡ 0 → ⊥ }
        ensures { kind_number result ≡ self.kind }
    {
        Kind::try_from(self.kind).unwrap_or(Kind::Choice)
    }

    // "b if true, c if false".
    pub fn side(self, test: bool) -> usize
        ensures { result ≡ cond test self.b self.c }
    {
        if test { self.b } else { self.c }
    }

    // The side that stands for a choice: "b if s is in its condition, else .. c".
    pub fn chosen(self, sets: &[u64], s: u64) -> usize
        ensures { result ≡ cond (bit (get_or sets.now self.a 0) s) self.b self.c }
    {
        self.side(Set::at(sets, self.a).has(s))
    }
}

// "Header, 64 bits: edition 8 (always 1), options F 4, condition count C 12, node count P 12, zero 28."
fn header_fields(w: u64) -> Header
    ensures { result ≡ header_fields w }
{
    Header {
        edition: (w >> 56) % 256,
        options: ((w >> 52) % 16) as u32,
        conditions: ((w >> 40) % 4096) as usize,
        nodes: ((w >> 28) % 4096) as usize,
        zero: w % 268435456,
    }
}

// "32 bits each: kind 4, option 4, left 12, right 12."
fn condition_fields(w: u64) -> ConditionRecord
    ensures { result ≡ condition_fields w }
{
    ConditionRecord {
        kind: ((w >> 28) % 16) as u32,
        option: ((w >> 24) % 16) as u32,
        left: ((w >> 12) % 4096) as usize,
        right: (w % 4096) as usize,
    }
}

// "64 bits each: kind 6, variable 6, a 12, b 12, c 12, zero 16. The number node instead: kind 6, zero 26, value 32 in two's complement."
fn node_fields(w: u64) -> Node
    ensures { result ≡ node_fields w }
{
    Node {
        kind: ((w >> 58) % 64) as u32,
        variable: ((w >> 52) % 64) as usize,
        a: ((w >> 40) % 4096) as usize,
        b: ((w >> 28) % 4096) as usize,
        c: ((w >> 16) % 4096) as usize,
        zero: w % 65536,
        high: (w >> 32) % 67108864,
        value: (w % 4294967296) as u32,
    }
}

pub fn header_at(image: &[u8]) -> Header
    requires { 8 ≤ length image.now }
    ensures { result ≡ header image.now }
{
    header_fields(number_at(image, 0, 8))
}

pub fn condition_at(image: &[u8], k: usize) -> ConditionRecord
    requires { 8 + 4 * k + 4 ≤ length image.now }
    ensures { result ≡ condition_record image.now k }
{
    condition_fields(number_at(image, 8 + 4 * k, 4))
}

// `conditions` is the count that the header has, so that it is not read again for each node.
pub fn node_at(image: &[u8], conditions: usize, n: usize) -> Node
    requires { (conditions ≡ (header image.now).conditions) × (8 + 4 * conditions + 8 * n + 8 ≤ length image.now) }
    ensures { result ≡ node image.now n }
{
    node_fields(number_at(image, 8 + 4 * conditions + 8 * n, 8))
}
