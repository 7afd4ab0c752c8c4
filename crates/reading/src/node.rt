// What stands behind a node's first part.
ghost use Rattle.std.specs.Prelude.{◌≡◌};
ghost use Rattle.std.proofs.Math.Option.{Option};
ghost use Rattle.image.specs.Kinds.{kind_number};
ghost use Rattle.reading.specs.Inner.Way.{Good};
ghost use Rattle.written.specs.Token.{Lexeme};
ghost use Rattle.reading.specs.Inner.Parts.{text_of};
ghost use Rattle.reading.specs.Inner.Node.{VariableWay, BehindA};

use super::bytes::byte_at;
use super::cursor::Cursor;
use super::mark::{fixed, mark};
use super::number::{LAST_VARIABLE, Number, read_number};
use super::spaces::to_token;
use super::token::Opens;
use image::kinds::Kind;
use image::refusals::Refusal;

// A variable that opens nothing.
fn variable(text: &[u8], c: Cursor) -> Result<Number, Refusal>
    requires { Good text.now c }
    ensures { VariableWay text.now c result }
{
    let d = to_token(text, c)?;
    if byte_at(text, d.at) != b'v' {
        return Err(Refusal::TextWrong(d.at));
    }
    read_number(text, d, d.at + 1, false, LAST_VARIABLE, Opens::Nothing)
}

// The mark behind a; a try has its variable there, "catch v with".
pub fn behind_a(text: &[u8], c: Cursor, kind: Kind, x: &[u8], value: u64) -> Result<Number, Refusal>
    requires { Good text.now c }
    ensures { (o : Option Lexeme) → x.now ≡ text_of o
        → BehindA text.now c (kind_number kind) o value result }
{
    match kind {
        Kind::Try => {
            let d = fixed(text, c, b"catch")?;
            let v = variable(text, d)?;
            let e = v.cursor;
            Ok(Number {
                cursor: fixed(text, e, b"with")?,
                ..v
            })
        }
        _ => Ok(Number {
            cursor: mark(text, c, x)?,
            value,
        }),
    }
}
