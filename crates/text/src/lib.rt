// Texts written into a slice from a place on; the answer is the place behind them.
#![tactic(auto)]

ghost use Rattle.std.specs.Prelude.{◌+◌, ◌≤◌, length};
ghost use Rattle.text.specs.Inner.Puts.{Puts};

mod decimal; // decimal.rt: numbers

pub use decimal::{put_decimal, put_signed};

// A text as it is.
pub fn put(out: &mut [u8], at: usize, text: &[u8]) -> usize
    requires { at + length text.now ≤ length out.old }
    ensures { Puts text.now at out.old out.new result }
{
    let end = at + text.len();
    out[at..end].copy_from_slice(text);
    end
}
