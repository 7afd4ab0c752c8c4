// The words and marks between the parts of a node.
ghost use Rattle.std.specs.Prelude.{◌≡◌};
ghost use Rattle.image.specs.Kinds.{kind_number};
ghost use Rattle.reading.specs.Inner.Way.{Good};
ghost use Rattle.reading.specs.Inner.Token.{fixed_to};
ghost use Rattle.std.proofs.Math.Option.{Option};
ghost use Rattle.written.specs.Token.{Lexeme};
ghost use Rattle.reading.specs.Inner.Parts.{text_of, MarksAre, MarksOf};
ghost use Rattle.reading.specs.Inner.Marks.{Marks};

use super::cursor::Cursor;
use super::spaces::to_token;
use super::token::{Opens, word};
use image::kinds::Kind;
use image::refusals::Refusal;

// What stands before a node's a, and behind its a, b and c: nothing where it is empty.
#[derive(Clone, Copy)]
pub struct NodeMarks {
    pub before_a: &'static [u8],
    pub behind_a: &'static [u8],
    pub behind_b: &'static [u8],
    pub behind_c: &'static [u8],
}

fn around(
    before_a: &'static [u8],
    behind_a: &'static [u8],
    behind_b: &'static [u8],
    behind_c: &'static [u8],
) -> NodeMarks
    ensures { MarksAre before_a.now behind_a.now behind_b.now behind_c.now result.before_a.now
        result.behind_a.now result.behind_b.now result.behind_c.now }
{
    NodeMarks {
        before_a,
        behind_a,
        behind_b,
        behind_c,
    }
}

#[tactic(auto, unfolding(crate::specs::Inner::Parts::marks_of, crate::specs::Inner::Parts::mark_table))]
pub fn marks(kind: Kind) -> NodeMarks
    ensures { MarksOf (kind_number kind) result.before_a.now result.behind_a.now
        result.behind_b.now result.behind_c.now }
{
    match kind {
        Kind::Sum => around(b"", b"+", b")", b""), // ( a + b )
        Kind::Pick => around(b"(", b"?", b":", b")"), // pick ( a ? b : c )
        Kind::And => around(b"(", b"and", b")", b""), // both ( a and b )
        Kind::Less => around(b"", b"<", b")", b""), // ( a < b )
        Kind::Assign => around(b":=", b"", b"", b""), // v := a
        Kind::Sequence => around(b"", b";", b"}", b""), // { a ; b }
        Kind::If => around(b"", b"then", b"else", b""), // if a then b else c
        Kind::While => around(b"", b"do", b"", b""), // while a do b
        Kind::ChoiceOfArithmetic | Kind::ChoiceOfBooleans | Kind::Choice => {
            around(b"", b"?", b":", b"]") // [ a ? b : c ]
        }
        _ => around(b"", b"", b"", b""),
    }
}

// A word or mark that opens nothing.
pub fn fixed(text: &[u8], c: Cursor, x: &[u8]) -> Result<Cursor, Refusal>
    requires { Good text.now c }
    ensures { result ≡ fixed_to text.now c x.now }
{
    let d = to_token(text, c)?;
    word(text, d, x, Opens::Nothing)
}

// A mark of a node, or none.
pub fn mark(text: &[u8], c: Cursor, x: &[u8]) -> Result<Cursor, Refusal>
    requires { Good text.now c }
    ensures { (o : Option Lexeme) → x.now ≡ text_of o → Marks text.now c o result }
{
    if x.is_empty() {
        return Ok(c);
    }
    fixed(text, c, x)
}
