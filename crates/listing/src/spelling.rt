// How each kind is spelled, sign by sign. A, B and C are the parts in its fields, a level further in; X and Y those of a sequence, at its own level; K is
// its condition, V its variable or option, N its number; > and ^ are gaps, further in and not, @ is a line of its own level; a dot is nothing, and any
// other byte stands for itself.
ghost use Rattle.std.specs.Prelude.{◌≡◌};
ghost use Rattle.image.specs.Kinds.{kind_number, condition_kind_number};
ghost use Rattle.listing.specs.Inner.Spelling.{spelling, condition_spelling};

use image::kinds::{ConditionKind, Kind};

// Signs are bytes, and each row is as long as the longest, as the definition's rows are (specs/Inner/Spelling).
#[tactic(auto, unfolding(crate::specs::Inner::Spelling::spelling, crate::specs::Inner::Spelling::spellings))]
pub fn spelling(kind: Kind) -> &'static [u8]
    ensures { result.now ≡ spelling (kind_number kind) }
{
    match kind {
        Kind::Number => b"N....................",
        Kind::Variable => b"vV...................",
        Kind::Sum => b"(A + B)..............",
        Kind::Pick => b"pick (A ? B : C).....",
        Kind::ChoiceOfArithmetic => b"[K ? B : C]..........",
        Kind::False => b"false................",
        Kind::True => b"true.................",
        Kind::Not => b"not A................",
        Kind::And => b"both (A and B).......",
        Kind::Less => b"(A < B)..............",
        Kind::ChoiceOfBooleans => b"[K ? B : C]..........",
        Kind::Skip => b"skip.................",
        Kind::Assign => b"vV := A..............",
        Kind::Sequence => b"{X ;@Y}..............",
        Kind::If => b"if A then>B^else>C...",
        Kind::While => b"while A do>B.........",
        Kind::Throw => b"throw A..............",
        Kind::Try => b"try>A^catch vV with>B",
        Kind::Choice => b"[K ?>B^:>C]..........",
    }
}

#[tactic(auto, unfolding(crate::specs::Inner::Spelling::condition_spelling, crate::specs::Inner::Spelling::condition_spellings))]
pub fn condition_spelling(kind: ConditionKind) -> &'static [u8]
    ensures { result.now ≡ condition_spelling (condition_kind_number kind) }
{
    match kind {
        ConditionKind::False => b"false....",
        ConditionKind::True => b"true.....",
        ConditionKind::Option => b"oV.......",
        ConditionKind::Not => b"not A....",
        ConditionKind::And => b"(A and B)",
        ConditionKind::Or => b"(A or B).",
    }
}
