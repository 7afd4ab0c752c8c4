// What stands between two tokens: "Spaces and line ends may stand around any word, number or mark, and must between two words or numbers".
ghost use Rattle.std.specs.Prelude.{◌≡◌, ◌+◌, ◌≤◌, length, drop};
ghost use Rattle.reading.specs.Inner.Way.{Good};
ghost use Rattle.reading.specs.Inner.Token.{spaces_in, passed, met};

use super::bytes::{byte_at, is_space, is_wordy};
use super::cursor::Cursor;
use image::refusals::Refusal;

// How many spaces a text begins with.
fn spaces(text: &[u8]) -> usize
    ensures { result ≡ spaces_in text.now }
{
    text.iter().take_while(|b| is_space(**b)).count()
}

// Behind all spaces.
pub fn pass_spaces(text: &[u8], c: Cursor) -> Cursor
    requires { Good text.now c }
    ensures { result ≡ passed text.now c }
{
    let at = c.at + spaces(&text[c.at..]);
    Cursor {
        at,
        tight: c.tight & (at == c.at),
        ..c
    }
}

// At the first byte of a token, and no word or number right behind another.
pub fn to_token(text: &[u8], c: Cursor) -> Result<Cursor, Refusal>
    requires { Good text.now c }
    ensures { result ≡ met text.now c }
{
    let d = pass_spaces(text, c);
    if d.at == text.len() {
        return Err(Refusal::TextWrong(d.at));
    }
    if d.tight & is_wordy(byte_at(text, d.at)) {
        return Err(Refusal::TextWrong(d.at));
    }
    Ok(d)
}
