// Tokens, from their first byte on: a word or mark, a number, and what each opens.
ghost use Rattle.std.specs.Prelude.{◌≡◌, ◌+◌, ◌≤◌, cond, eqb, length, drop};
ghost use Rattle.reading.specs.Inner.Way.{Good, node_of, record_in};
ghost use Rattle.reading.specs.Inner.Spelling.{agree};
ghost use Rattle.reading.specs.Inner.Token.{opens_of, counted_to, word_to};

use super::bytes::{byte_at, is_run, is_wordy};
use super::cursor::Cursor;
use image::refusals::Refusal;

// What a token opens.
#[derive(Clone, Copy)]
pub enum Opens {
    Nothing,
    Node,
    Record,
}

impl Opens {
    fn nodes(self) -> usize
        ensures { result ≡ node_of (opens_of self) }
    {
        match self {
            Opens::Node => 1,
            _ => 0,
        }
    }

    fn records(self) -> usize
        ensures { result ≡ record_in (opens_of self) }
    {
        match self {
            Opens::Record => 1,
            _ => 0,
        }
    }
}

// "1,024 nodes and 256 conditions"
pub const NODES: usize = 1024;

pub const RECORDS: usize = 256;

// Behind a token that ends at `end`: "a whole word, number or bracket that opens node 1,025 or condition 257" is refused at its first byte.
pub fn counted(
    text: &[u8],
    c: Cursor,
    end: usize,
    tight: bool,
    opens: Opens,
) -> Result<Cursor, Refusal>
    requires { Good text.now c }
    ensures { result ≡ counted_to text.now c end tight (opens_of opens) }
{
    let nodes = c.nodes + opens.nodes();
    let records = c.records + opens.records();
    if (nodes <= NODES) & (records <= RECORDS) {
        return Ok(Cursor {
            at: end,
            tight,
            nodes,
            records,
            ..c
        });
    }
    if tight & is_run(byte_at(text, end)) {
        return Err(Refusal::TextWrong(end));
    }
    Err(Refusal::TooMany(c.at))
}

// How many bytes of a word a text begins with.
fn agreed(text: &[u8], word: &[u8]) -> usize
    ensures { result ≡ agree word.now text.now }
{
    word.iter()
        .zip(text)
        .take_while(|(own, there)| there == own)
        .count()
}

// Behind a word or mark; it is refused at the first byte that is not its own.
pub fn word(text: &[u8], c: Cursor, word: &[u8], opens: Opens) -> Result<Cursor, Refusal>
    requires { Good text.now c }
    ensures { result ≡ word_to text.now c word.now (opens_of opens) }
{
    let n = agreed(&text[c.at..], word);
    if n < word.len() {
        return Err(Refusal::TextWrong(c.at + n));
    }
    counted(text, c, c.at + n, is_wordy(byte_at(word, 0)), opens)
}
