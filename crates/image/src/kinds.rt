// Document 01's kinds of nodes and of conditions by name, and what each holds: specs/Layout.antt explains the rows of digits.
ghost use Rattle.std.specs.Prelude.{◌≡◌};
ghost use Rattle.image.specs.Layout.{layout, condition_layout, names_node, is_choice};
ghost use Rattle.image.specs.Kinds.{kind_number, condition_kind_number, Decodes, DecodesCondition};

// The kinds of nodes, each with its number.
#[derive(Clone, Copy, PartialEq, Eq)]
pub enum Kind {
    Number = 0,
    Variable = 1,
    Sum = 2,
    Pick = 3,
    ChoiceOfArithmetic = 4,
    False = 8,
    True = 9,
    Not = 10,
    And = 11,
    Less = 12,
    ChoiceOfBooleans = 13,
    Skip = 16,
    Assign = 17,
    Sequence = 18,
    If = 19,
    While = 20,
    Throw = 21,
    Try = 22,
    Choice = 23,
}

// A number that is no kind.
#[derive(Clone, Copy, PartialEq, Eq)]
pub struct UnknownKind(pub u32);

impl TryFrom<u32> for Kind {
    type Error = UnknownKind;

    ghost try_from_gives = { Decodes };

    fn try_from(number: u32) -> Result<Self, UnknownKind> {
        match number {
            0 => Ok(Kind::Number),
            1 => Ok(Kind::Variable),
            2 => Ok(Kind::Sum),
            3 => Ok(Kind::Pick),
            4 => Ok(Kind::ChoiceOfArithmetic),
            8 => Ok(Kind::False),
            9 => Ok(Kind::True),
            10 => Ok(Kind::Not),
            11 => Ok(Kind::And),
            12 => Ok(Kind::Less),
            13 => Ok(Kind::ChoiceOfBooleans),
            16 => Ok(Kind::Skip),
            17 => Ok(Kind::Assign),
            18 => Ok(Kind::Sequence),
            19 => Ok(Kind::If),
            20 => Ok(Kind::While),
            21 => Ok(Kind::Throw),
            22 => Ok(Kind::Try),
            23 => Ok(Kind::Choice),
            _ => Err(UnknownKind(number)),
        }
    }
}

impl From<Kind> for u32 {
    ghost from_gives = { λ kind n. n ≡ kind_number kind };

    fn from(kind: Kind) -> u32 {
        kind as u32
    }
}

// The kinds of conditions, each with its number; an enum of its own, and so a match of its own.
#[derive(Clone, Copy, PartialEq, Eq)]
pub enum ConditionKind {
    False = 0,
    True = 1,
    Option = 2,
    Not = 3,
    And = 4,
    Or = 5,
}

impl TryFrom<u32> for ConditionKind {
    type Error = UnknownKind;

    ghost try_from_gives = { DecodesCondition };

    fn try_from(number: u32) -> Result<Self, UnknownKind> {
        match number {
            0 => Ok(ConditionKind::False),
            1 => Ok(ConditionKind::True),
            2 => Ok(ConditionKind::Option),
            3 => Ok(ConditionKind::Not),
            4 => Ok(ConditionKind::And),
            5 => Ok(ConditionKind::Or),
            _ => Err(UnknownKind(number)),
        }
    }
}

impl From<ConditionKind> for u32 {
    ghost from_gives = { λ kind n. n ≡ condition_kind_number kind };

    fn from(condition: ConditionKind) -> u32 {
        condition as u32
    }
}

// The weights of a row's digits: class, variable, a and b; the last digit is c's.
pub const OF_CLASS: u32 = 0o10000;

pub const OF_VARIABLE: u32 = 0o1000;

pub const OF_A: u32 = 0o100;

pub const OF_B: u32 = 0o10;

// What a digit says: the class of a node, or what a field holds. Numbers, here and where a slot is asked for: specs/Layout has document 01's tables so.
pub const BOOLEAN: u32 = 2;

pub const STATEMENT: u32 = 3;

pub const CONDITION: u32 = 4;

// Class, variable, a, b, c, an octal digit each.
const KINDS: [u32; 24] = [
    0o10000, // 0 number
    0o11000, // 1 variable
    0o10110, // 2 sum
    0o10211, // 3 pick
    0o10411, // 4 choice of arithmetic
    0o00000, 0o00000, 0o00000, 0o20000, // 8 false
    0o20000, // 9 true
    0o20200, // 10 not
    0o20220, // 11 and
    0o20110, // 12 less
    0o20422, // 13 choice of booleans
    0o00000, 0o00000, 0o30000, // 16 skip
    0o31100, // 17 assign
    0o30330, // 18 sequence
    0o30233, // 19 if
    0o30230, // 20 while
    0o30100, // 21 throw
    0o31330, // 22 try
    0o30433, // 23 choice of statements
];

// The weights of a condition's digits: option and left; the last digit is right's.
pub const OF_OPTION: u32 = 0o100;

pub const OF_LEFT: u32 = 0o10;

// Likewise for conditions, in a table of its own, since a row has other digits: whether the kind is known, option, left, right.
const CONDITION_KINDS: [u32; 6] = [
    0o1000, // 0 false
    0o1000, // 1 true
    0o1100, // 2 option
    0o1010, // 3 not
    0o1011, // 4 and
    0o1011, // 5 or
];

// "All other kinds are refused": they have class 0.
pub fn layout(kind: u32) -> u32
    ensures { result ≡ layout kind }
{
    KINDS.get(kind as usize).copied().unwrap_or(0)
}

pub fn condition_layout(kind: u32) -> u32
    ensures { result ≡ condition_layout kind }
{
    CONDITION_KINDS.get(kind as usize).copied().unwrap_or(0)
}

// The field names a node, of the class that its digit says.
pub fn names_node(slot: u32) -> bool
    ensures { result ≡ names_node slot }
{
    (0 < slot) & (slot < CONDITION)
}

// A choice: its field a is a condition.
pub fn is_choice(kind: u32) -> bool
    ensures { result ≡ is_choice kind }
{
    layout(kind) / OF_A % 8 == CONDITION
}
