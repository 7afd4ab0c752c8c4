// The refusals of documents 01 and 02: one case for each number, with its place where that is not 0.
ghost use Rattle.std.specs.Prelude.{◌≡◌};
ghost use Rattle.image.specs.Refusals.{number_of, place_of};

#[derive(Clone, Copy, PartialEq, Eq)]
pub enum Refusal {
    ImageShort,
    EditionWrong,
    CountsWrong,
    LengthWrong,
    ConditionWrong(usize),
    NodeWrong(usize),
    ClassWrong(usize),
    NamedWrong(usize),
    SetBeyond,
    BudgetOver,
    SettingBeyond,
    LentWrong,
    ChoiceHeld(usize),
    SpaceShort,
    ConditionBeyond,
    InputShort,
    TextWrong(usize),
    TooMany(usize),
}

impl Refusal {
    // The papers' table: a refusal's number and its place.
    fn in_table(self) -> (u32, usize)
        ensures { (result.0 ≡ number_of self) × (result.1 ≡ place_of self) }
    {
        match self {
            Refusal::ImageShort => (1, 0),
            Refusal::EditionWrong => (2, 0),
            Refusal::CountsWrong => (3, 0),
            Refusal::LengthWrong => (4, 0),
            Refusal::ConditionWrong(k) => (5, k),
            Refusal::NodeWrong(n) => (6, n),
            Refusal::ClassWrong(n) => (7, n),
            Refusal::NamedWrong(n) => (8, n),
            Refusal::SetBeyond => (9, 0),
            Refusal::BudgetOver => (10, 0),
            Refusal::SettingBeyond => (11, 0),
            Refusal::LentWrong => (12, 0),
            Refusal::ChoiceHeld(n) => (13, n),
            Refusal::SpaceShort => (14, 0),
            Refusal::ConditionBeyond => (15, 0),
            Refusal::InputShort => (16, 0),
            Refusal::TextWrong(at) => (17, at),
            Refusal::TooMany(at) => (18, at),
        }
    }

    pub fn number(self) -> u32
        ensures { result ≡ number_of self }
    {
        self.in_table().0
    }

    pub fn place(self) -> usize
        ensures { result ≡ place_of self }
    {
        self.in_table().1
    }
}
