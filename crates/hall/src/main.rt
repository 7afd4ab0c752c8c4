// The program of one hall: reads standard input, no more than 9,237 bytes, and writes how the routine ends in one setting and what its variables then hold.
#![tactic(auto)]

ghost use Rattle.std.specs.Prelude.{◌≡◌, ◌≤◌, length};
ghost use Rattle.lines.specs.Limits.{most};
ghost use Rattle.hall.specs.Stream.{Tells};

mod tell; // tell.rt: the text

use std::io::Write;
use streams::{complain, read_input};
use tell::tell;

// "one beyond the longest possible input"
const MOST: usize = 9237;

// A space that every text fits.
const ENOUGH: usize = 288;

// Writes nothing but the text of what was read; false if it cannot be written. The report program has its own: each names its own text.
fn write<W: Write>(out: &mut W, input: &[u8], n: usize, text: &[u8]) -> bool
    requires { Tells input.now n text.now }
{
    out.write_all(text).is_ok()
}

// The stream that n bytes were read of: by input and n, since `Tells` speaks of the whole space.
fn answer_to<W: Write, E: Write>(out: &mut W, errors: &mut E, input: &[u8], n: usize)
    requires input_len { length input.now ≡ most }
    requires n_in_bounds { n ≤ length input.now }
{
    let mut space = [0u8; ENOUGH];
    let end = tell(&input[..n], &mut space);
    if !write(out, input, n, &space[..end]) {
        complain(errors, b"hall: the text cannot be written\n");
    }
}

// "it reads no more than 9,237 bytes". Each program has a `main`, with its own space and its own words.
fn main(rt: HostRuntime) {
    let mut input = [0u8; MOST];
    match read_input(&mut rt.stdin(), &mut input) {
        Ok(n) => answer_to(&mut rt.stdout(), &mut rt.stderr(), &input, n),
        Err(_) => complain(&mut rt.stderr(), b"hall: the input cannot be read\n"),
    }
}
