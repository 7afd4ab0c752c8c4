// The reader program: a routine in the written form on standard input to its image on standard output. Of a text that is refused, or that does not fit its
// space, nothing is written there and a line says so on standard error.
#![tactic(auto)]

ghost use Rattle.std.specs.Prelude.{◌≡◌, ◌≤◌, ◌<◌, length, IfOk};
ghost use Rattle.image.specs.Refusals.{number_of, place_of};
ghost use Rattle.image.specs.Rows.{refused, answer};
ghost use Rattle.streams.specs.Streams.{most, as_told};
ghost use Rattle.reader.specs.Stream.{longest, Tells};

use image::refusals::Refusal;
use reading::read;
use std::io::Write;
use streams::{blank, complain, read_input, refuse};

// A text of 256 KiB, and a byte by which its end is seen.
const SPACE: usize = 262145;

// The longest image: 8 bytes, 256 conditions and 1,024 nodes.
const IMAGE: usize = 9224;

// What reading the whole text answers, with the image at the start of `space`. By text and n, here and below: `Tells` speaks of the whole space.
fn tell(text: &[u8], n: usize, space: &mut [u8]) -> Result<usize, Refusal>
    requires n_in_bounds { n < length text.now }
    requires space_len { length space.old ≡ longest }
    ensures inside { IfOk result (λ end. end ≤ length space.new) }
    ensures tells { Tells text.now n (as_told result space.new) }
{
    read(&text[..n], space)
}

// Writes nothing but the image of what was read; false if it cannot be written.
// The lister has `give`, `deny` and `answer_to` too: each names its own program's answer to a stream.
fn give<W: Write>(out: &mut W, text: &[u8], n: usize, image: &[u8]) -> bool
    requires { Tells text.now n (answer image.now) }
{
    out.write_all(image).is_ok()
}

// Says nothing but the refusal of what was read.
fn deny<E: Write>(errors: &mut E, text: &[u8], n: usize, r: Refusal)
    requires { Tells text.now n (refused (number_of r) (place_of r)) }
{
    refuse(errors, r)
}

// The whole text, of n bytes, in a space of just 256 KiB and a byte.
fn answer_to<W: Write, E: Write>(out: &mut W, errors: &mut E, text: &[u8], n: usize)
    requires text_len { length text.now ≡ most }
    requires n_in_bounds { n < length text.now }
{
    let mut space = [0u8; IMAGE];
    match tell(text, n, &mut space) {
        Ok(end) => {
            if !give(out, text, n, &space[..end]) {
                complain(errors, b"reader: the image cannot be written\n");
            }
        }
        Err(r) => deny(errors, text, n, r),
    }
}

// Each program has a `main`, with its own space and its own words.
fn main(rt: HostRuntime) {
    let mut text = blank::<SPACE>();
    match read_input(&mut rt.stdin(), &mut text) {
        Ok(SPACE) => complain(
            &mut rt.stderr(),
            b"reader: the text is longer than 262,144 bytes\n",
        ),
        Ok(n) => answer_to(&mut rt.stdout(), &mut rt.stderr(), &text, n),
        Err(_) => complain(&mut rt.stderr(), b"reader: the text cannot be read\n"),
    }
}
