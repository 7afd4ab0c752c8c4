// The token that a condition begins with, and the word between two conditions.
ghost use Rattle.std.specs.Prelude.{suc, ◌≤◌, length};
ghost use Rattle.reading.specs.Inner.Way.{Good};
ghost use Rattle.reading.specs.Inner.ConditionLead.{RecordLead, OptionLead, ConditionFrom, JoinFrom};

use super::bytes::byte_at;
use super::cursor::Cursor;
use super::lead::{Lead, led, numbered};
use super::number::read_number;
use super::spaces::to_token;
use super::token::{Opens, word};
use image::kinds::ConditionKind;
use image::refusals::Refusal;

// A word or mark that opens a record of a kind. `by_word` stays beside it: its contract names a node, and the kind by its number.
fn by_record(
    text: &[u8],
    c: Cursor,
    x: &[u8],
    kind: ConditionKind,
) -> Result<Lead<ConditionKind>, Refusal>
    requires { Good text.now c }
    ensures { RecordLead text.now c x.now kind result }
{
    Ok(led(word(text, c, x, Opens::Record)?, kind))
}

// "options o0 and up, below F"
fn by_option(text: &[u8], options: u64, c: Cursor) -> Result<Lead<ConditionKind>, Refusal>
    requires { Good text.now c × (suc c.at ≤ length text.now) × (options ≤ 6) }
    ensures { OptionLead text.now options c result }
{
    if options == 0 {
        return Err(Refusal::TextWrong(c.at));
    }
    let n = read_number(text, c, c.at + 1, false, options - 1, Opens::Record)?;
    Ok(numbered(n, ConditionKind::Option))
}

// A bracket is told to be an and; the word between its conditions decides.
pub fn condition_lead(
    text: &[u8],
    options: u64,
    from: Cursor,
) -> Result<Lead<ConditionKind>, Refusal>
    requires { Good text.now from × (options ≤ 6) }
    ensures { ConditionFrom text.now options from result }
{
    let c = to_token(text, from)?;
    match byte_at(text, c.at) {
        b't' => by_record(text, c, b"true", ConditionKind::True),
        b'f' => by_record(text, c, b"false", ConditionKind::False),
        b'n' => by_record(text, c, b"not", ConditionKind::Not),
        b'(' => by_record(text, c, b"(", ConditionKind::And),
        b'o' => by_option(text, options, c),
        _ => Err(Refusal::TextWrong(c.at)),
    }
}

// Either word; where neither begins, it is refused as an `and` that does not.
pub fn join(text: &[u8], from: Cursor) -> Result<Lead<ConditionKind>, Refusal>
    requires { Good text.now from }
    ensures { JoinFrom text.now from result }
{
    let c = to_token(text, from)?;
    if byte_at(text, c.at) == b'o' {
        return Ok(led(word(text, c, b"or", Opens::Nothing)?, ConditionKind::Or));
    }
    Ok(led(word(text, c, b"and", Opens::Nothing)?, ConditionKind::And))
}
