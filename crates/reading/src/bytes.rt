// What a byte of a text can be, by the ranges that the grammar has (written/specs/Byte).
ghost use Rattle.std.specs.Prelude.{◌≡◌, get_or};
ghost use Rattle.written.specs.Byte.{is_space, is_digit, is_run, is_wordy};

// A space or a line end.
pub fn is_space(b: u8) -> bool
    ensures { result ≡ is_space b }
{
    (b == b' ') | (b == b'\n')
}

pub fn is_digit(b: u8) -> bool
    ensures { result ≡ is_digit b }
{
    (b'0' <= b) & (b <= b'9')
}

// A letter or a digit: a word or number goes on with it.
pub fn is_run(b: u8) -> bool
    ensures { result ≡ is_run b }
{
    ((b'0' <= b) & (b <= b'9')) | (((b'A' <= b) & (b <= b'Z')) | ((b'a' <= b) & (b <= b'z')))
}

// A word or number begins with it.
pub fn is_wordy(b: u8) -> bool
    ensures { result ≡ is_wordy b }
{
    is_run(b) | (b == b'-')
}

// The byte at a place; 0, which no token holds, past the end.
pub fn byte_at(text: &[u8], at: usize) -> u8
    ensures { result ≡ get_or text.now at 0 }
{
    text.get(at).copied().unwrap_or(0)
}
