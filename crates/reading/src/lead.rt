// The token that a part begins with: it tells the node's kind, and opens it.
ghost use Rattle.std.specs.Prelude.{◌≡◌, suc, ◌≤◌, ◌<◌, length, true, false};
ghost use Rattle.image.specs.Kinds.{kind_number};
ghost use Rattle.reading.specs.Inner.Way.{Good};
ghost use Rattle.reading.specs.Inner.Lead.{WordLead, VariableLead, NumberLead, ForkLead, LeadFrom};
ghost use Rattle.reading.specs.Inner.Between.{Met};

use super::bytes::{byte_at, is_digit};
use super::cursor::Cursor;
use super::number::{HIGHEST, LAST_VARIABLE, Number, read_number};
use super::spaces::to_token;
use super::token::{Opens, word};
use image::kinds::{BOOLEAN, Kind, STATEMENT};
use image::refusals::Refusal;

// Where the token leads to; the kind that it tells, and a number's 32 bits, a variable or an option.
#[derive(Clone, Copy)]
pub struct Lead<K> {
    pub cursor: Cursor,
    pub kind: K,
    pub value: u64,
}

// A token that tells its kind alone.
pub fn led<K>(cursor: Cursor, kind: K) -> Lead<K>
    ensures { result ≡ record { cursor = cursor; kind = kind; value = 0 } }
{
    Lead {
        cursor,
        kind,
        value: 0,
    }
}

// A number that tells a kind.
pub fn numbered<K>(n: Number, kind: K) -> Lead<K>
    ensures { result ≡ record { cursor = n.cursor; kind = kind; value = n.value } }
{
    Lead {
        cursor: n.cursor,
        kind,
        value: n.value,
    }
}

// A word or mark that opens a node of a kind.
fn by_word(text: &[u8], c: Cursor, x: &[u8], kind: Kind) -> Result<Lead<Kind>, Refusal>
    requires { Good text.now c }
    ensures { WordLead text.now c x.now (kind_number kind) result }
{
    Ok(led(word(text, c, x, Opens::Node)?, kind))
}

// "Variables are v0 to v15"
fn by_variable(text: &[u8], c: Cursor, kind: Kind) -> Result<Lead<Kind>, Refusal>
    requires { Good text.now c × (suc c.at ≤ length text.now) }
    ensures { VariableLead text.now c (kind_number kind) result }
{
    let n = read_number(text, c, c.at + 1, false, LAST_VARIABLE, Opens::Node)?;
    Ok(numbered(n, kind))
}

// "numbers are signed decimals in 32 bits"
fn by_number(text: &[u8], c: Cursor) -> Result<Lead<Kind>, Refusal>
    requires { Good text.now c }
    ensures { NumberLead text.now c c.at false result }
{
    let n = read_number(text, c, c.at, false, HIGHEST, Opens::Node)?;
    Ok(numbered(n, Kind::Number))
}

// Behind a minus: -n has the 32 bits 2^32 - n.
fn by_minus(text: &[u8], c: Cursor) -> Result<Lead<Kind>, Refusal>
    requires { Good text.now c × (suc c.at ≤ length text.now) }
    ensures { NumberLead text.now c (suc c.at) true result }
{
    let n = read_number(text, c, c.at + 1, true, HIGHEST, Opens::Node)?;
    Ok(Lead {
        value: 4294967296 - n.value,
        ..numbered(n, Kind::Number)
    })
}

// throw and try part at their second byte.
fn by_t(text: &[u8], c: Cursor) -> Result<Lead<Kind>, Refusal>
    requires { Good text.now c × (suc c.at ≤ length text.now) }
    ensures { ForkLead text.now c result }
{
    if byte_at(text, c.at + 1) == b'h' {
        return by_word(text, c, b"throw", Kind::Throw);
    }
    by_word(text, c, b"try", Kind::Try)
}

fn statement_lead(text: &[u8], c: Cursor) -> Result<Lead<Kind>, Refusal>
    requires { Met text.now c }
    ensures { LeadFrom text.now 3 c result }
{
    match byte_at(text, c.at) {
        b's' => by_word(text, c, b"skip", Kind::Skip),
        b'v' => by_variable(text, c, Kind::Assign),
        b'{' => by_word(text, c, b"{", Kind::Sequence),
        b'i' => by_word(text, c, b"if", Kind::If),
        b'w' => by_word(text, c, b"while", Kind::While),
        b't' => by_t(text, c),
        b'[' => by_word(text, c, b"[", Kind::Choice),
        _ => Err(Refusal::TextWrong(c.at)),
    }
}

fn boolean_lead(text: &[u8], c: Cursor) -> Result<Lead<Kind>, Refusal>
    requires { Met text.now c }
    ensures { LeadFrom text.now 2 c result }
{
    match byte_at(text, c.at) {
        b't' => by_word(text, c, b"true", Kind::True),
        b'f' => by_word(text, c, b"false", Kind::False),
        b'n' => by_word(text, c, b"not", Kind::Not),
        b'b' => by_word(text, c, b"both", Kind::And),
        b'(' => by_word(text, c, b"(", Kind::Less),
        b'[' => by_word(text, c, b"[", Kind::ChoiceOfBooleans),
        _ => Err(Refusal::TextWrong(c.at)),
    }
}

fn arithmetic_lead(text: &[u8], c: Cursor) -> Result<Lead<Kind>, Refusal>
    requires { Met text.now c }
    ensures { LeadFrom text.now 1 c result }
{
    let b = byte_at(text, c.at);
    if is_digit(b) {
        return by_number(text, c);
    }
    match b {
        b'-' => by_minus(text, c),
        b'v' => by_variable(text, c, Kind::Variable),
        b'(' => by_word(text, c, b"(", Kind::Sum),
        b'p' => by_word(text, c, b"pick", Kind::Pick),
        b'[' => by_word(text, c, b"[", Kind::ChoiceOfArithmetic),
        _ => Err(Refusal::TextWrong(c.at)),
    }
}

// How a part of a class begins; the class is a digit of `layout`.
pub fn part_lead(text: &[u8], class: u32, from: Cursor) -> Result<Lead<Kind>, Refusal>
    requires { Good text.now from × (0 < class) × (class ≤ 3) }
    ensures { LeadFrom text.now class from result }
{
    let c = to_token(text, from)?;
    match class {
        STATEMENT => statement_lead(text, c),
        BOOLEAN => boolean_lead(text, c),
        _ => arithmetic_lead(text, c),
    }
}
