// What the programs share: standard input read into a space, to its end or until that is full, and a refusal said on standard error.
#![tactic(auto)]

ghost use Rattle.std.specs.Prelude.{◌≡◌, ℕ, ◌≤◌, length, get_or, IfOk, IfErr};
ghost use Rattle.image.specs.Refusals.{number_of, place_of};
ghost use Rattle.lines.specs.Text.{refusal_line};
ghost use Rattle.streams.specs.Streams.{most};

use image::refusals::Refusal;
use lines::put_refusal;
use std::io::{Read, Write};

// How many bytes came before reading failed.
#[derive(Clone, Copy, PartialEq, Eq)]
pub struct Failed(pub usize);

// Zeros, handed out by a function so that no proof has to look at so many of them.
pub fn blank<const N: usize>() -> [u8; N]
    ensures length { N ≡ length result }
    ensures zeros { (k : ℕ) → get_or result k 0 ≡ 0 }
{
    [0; N]
}

// Until the input ends or `space` is full, whichever is first: how many bytes came. An input that has filled its space may go on.
pub fn read_input<R: Read>(input: &mut R, space: &mut [u8]) -> Result<usize, Failed>
    requires { length space.old ≤ most }
    ensures ok { IfOk result (λ n. n ≤ length space.new) }
    ensures err { IfErr result (λ e. e.0 ≤ length space.new) }
{
    // Not one by one: a read brings as many bytes as it likes.
    let mut done = 0;
    while done < space.len() {
        match input.read(&mut space[done..]) {
            Ok(0) => return Ok(done),
            Ok(more) => done += more,
            Err(_) => return Err(Failed(done)),
        }
    }
    Ok(done)
}

// Writes nothing but the line of this refusal.
fn say<W: Write>(errors: &mut W, r: Refusal, line: &[u8])
    requires { line.now ≡ refusal_line (number_of r) (place_of r) }
{
    complain(errors, line)
}

// Where even this cannot be written, nothing tells it.
pub fn complain<W: Write>(errors: &mut W, line: &[u8]) {
    let _ = errors.write_all(line);
}

// "its number and place, as `refused 9 at 0`"
pub fn refuse<W: Write>(errors: &mut W, r: Refusal) {
    let mut space = [0u8; 64];
    let end = put_refusal(&mut space, r);
    say(errors, r, &space[..end])
}
