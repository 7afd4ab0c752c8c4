// The whole text: "It begins with `options` and F", and nothing but spaces stands behind the statement.
ghost use Rattle.std.specs.Prelude.{◌≡◌, length};
ghost use Rattle.written.specs.Limits.{NODES, RECORDS};
ghost use Rattle.reading.specs.Inner.Way.{Good};
ghost use Rattle.reading.specs.Inner.Whole.{CountWay, EndWay, ReadsWhole};

use super::cursor::Cursor;
use super::mark::fixed;
use super::number::{MOST_OPTIONS, Number, read_number};
use super::part::part;
use super::spaces::{pass_spaces, to_token};
use super::token::Opens;
use image::kinds::STATEMENT;
use image::refusals::Refusal;

// F.
fn count(text: &[u8], c: Cursor) -> Result<Number, Refusal>
    requires { Good text.now c }
    ensures { CountWay text.now c result }
{
    let d = to_token(text, c)?;
    read_number(text, d, d.at, false, MOST_OPTIONS, Opens::Nothing)
}

// The end of the text.
fn end(text: &[u8], c: Cursor) -> Result<(), Refusal>
    requires { Good text.now c }
    ensures { EndWay text.now c result }
{
    let d = pass_spaces(text, c);
    if d.at == text.len() {
        Ok(())
    } else {
        Err(Refusal::TextWrong(d.at))
    }
}

// The routine's nodes and condition records, and F.
pub fn whole(text: &[u8], nodes: &mut [u64], records: &mut [u32]) -> Result<Number, Refusal>
    requires { (length nodes.old ≡ NODES) × (length records.old ≡ RECORDS) }
    ensures { ReadsWhole text.now nodes.new records.new result }
{
    let start = Cursor {
        at: 0,
        tight: false,
        nodes: 0,
        records: 0,
        node: 0,
        condition: 0,
    };
    let c = fixed(text, start, b"options")?;
    let f = count(text, c)?;
    let d = f.cursor;
    let cursor = part(text, f.value, STATEMENT, d, nodes, records)?;
    end(text, cursor)?;
    Ok(Number { cursor, ..f })
}
