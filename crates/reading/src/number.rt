// Numbers: "numbers have no plus, leading zero or -0", and none is over its bound.
ghost use Rattle.std.specs.Prelude.{◌≡◌, ◌≤◌, length};
ghost use Rattle.written.specs.Machine.{low};
ghost use Rattle.reading.specs.Inner.Way.{Good};
ghost use Rattle.reading.specs.Inner.Token.{opens_of};
ghost use Rattle.reading.specs.Inner.Number.{DigitsFrom, NumberFrom};

use super::bytes::{byte_at, is_digit, is_run};
use super::cursor::Cursor;
use super::token::{Opens, counted};
use image::refusals::Refusal;

// "Variables are v0 to v15"
pub const LAST_VARIABLE: u64 = 15;

// Document 01: "F from 0 to 6".
pub const MOST_OPTIONS: u64 = 6;

// "signed decimals in 32 bits"
pub const HIGHEST: u64 = 2147483647;

// How many digits go on with a number, and the value that they make of it.
#[derive(Clone, Copy)]
pub struct Digits {
    pub count: usize,
    pub value: u64,
}

// The digits that a text begins with, as far as they go on with the number n.
fn read_digits(text: &[u8], n: u64, most: u64) -> Digits
    requires { (n ≤ most) × (most ≤ 4294967296) }
    ensures { DigitsFrom text.now n most result }
{
    let mut value = n;
    for (count, b) in text.iter().enumerate() {
        if !is_digit(*b) {
            return Digits { count, value };
        }
        let next = value * 10 + u64::from(*b - b'0');
        if (value == 0) | (most < next) {
            return Digits { count, value };
        }
        value = next;
    }
    Digits {
        count: text.len(),
        value,
    }
}

// A number read: where it leads to, and its value.
#[derive(Clone, Copy)]
pub struct Number {
    pub cursor: Cursor,
    pub value: u64,
}

// The least number: behind a minus it is 1.
fn least(positive: bool) -> u64
    ensures { result ≡ low positive }
{
    u64::from(positive)
}

// The token that has a number from `at` on, from 0 to hi or from 1 to 1 + hi. One by one: the five kinds of numbers differ in each.
pub fn read_number(
    text: &[u8],
    c: Cursor,
    at: usize,
    positive: bool,
    hi: u64,
    opens: Opens,
) -> Result<Number, Refusal>
    requires { Good text.now c × (at ≤ length text.now) × (hi ≤ 2147483647) }
    ensures { NumberFrom text.now c at positive hi (opens_of opens) result }
{
    let low = least(positive);
    let most = low + hi;
    let b = byte_at(text, at);
    if !is_digit(b) {
        return Err(Refusal::TextWrong(at));
    }
    let n = u64::from(b - b'0');
    if (n < low) | (most < n) {
        return Err(Refusal::TextWrong(at));
    }
    let d = read_digits(&text[at + 1..], n, most);
    let end = at + 1 + d.count;
    if is_run(byte_at(text, end)) {
        return Err(Refusal::TextWrong(end));
    }
    Ok(Number {
        cursor: counted(text, c, end, true, opens)?,
        value: d.value,
    })
}
