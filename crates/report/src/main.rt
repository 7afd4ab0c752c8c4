// The report program: reads standard input, no more than 9,237 bytes, and writes the text that `lines` makes of it. Nothing else.
#![tactic(auto)]

ghost use Rattle.std.specs.Prelude.{◌≡◌, ◌≤◌, length, take};
ghost use Rattle.lines.specs.Limits.{most, enough};
ghost use Rattle.report.specs.Stream.{Tells};

use lines::{ENOUGH, report};
use std::io::Write;
use streams::{complain, read_input};

// "one beyond the longest possible input"
const MOST: usize = 9237;

// The text of what was read, at the start of `space`, and its length. It is never short: every text fits.
// By input and n, and not by the part that was read: `Tells` speaks of the whole space.
fn tell(input: &[u8], n: usize, space: &mut [u8]) -> usize
    requires input_len { length input.now ≡ most }
    requires n_in_bounds { n ≤ length input.now }
    requires enough_in_bounds { enough ≤ length space.old }
    ensures upper_bound { result ≤ length space.new }
    ensures tells { Tells input.now n (take result space.new) }
{
    report(&input[..n], space).unwrap()
}

// Writes nothing but the text of what was read; false if it cannot be written. The hall program has its own: each names its own text.
fn write<W: Write>(out: &mut W, input: &[u8], n: usize, text: &[u8]) -> bool
    requires { Tells input.now n text.now }
{
    out.write_all(text).is_ok()
}

// The stream that n bytes were read of.
fn answer_to<W: Write, E: Write>(out: &mut W, errors: &mut E, input: &[u8], n: usize)
    requires input_len { length input.now ≡ most }
    requires n_in_bounds { n ≤ length input.now }
{
    let mut space = [0u8; ENOUGH];
    let end = tell(input, n, &mut space);
    if !write(out, input, n, &space[..end]) {
        complain(errors, b"report: the text cannot be written\n");
    }
}

// "it reads no more than 9,237 bytes". Each program has a `main`, with its own space and its own words.
fn main(rt: HostRuntime) {
    let mut input = [0u8; MOST];
    match read_input(&mut rt.stdin(), &mut input) {
        Ok(n) => answer_to(&mut rt.stdout(), &mut rt.stderr(), &input, n),
        Err(_) => complain(&mut rt.stderr(), b"report: the input cannot be read\n"),
    }
}
