// The lister program: an image on standard input to its written form on standard output. Of an image that is refused nothing is written there, and a line says
// so on standard error.
#![tactic(auto)]

ghost use Rattle.std.specs.Prelude.{◌≡◌, ◌≤◌, length, IfOk};
ghost use Rattle.image.specs.Refusals.{number_of, place_of};
ghost use Rattle.image.specs.Rows.{refused, answer};
ghost use Rattle.streams.specs.Streams.{as_told};
ghost use Rattle.lister.specs.Stream.{most, enough, Tells};

use image::refusals::Refusal;
use listing::list;
use std::io::Write;
use streams::{blank, complain, read_input, refuse};

// One byte beyond the longest image: a stream that goes on is no image, and its refusal needs no later byte.
const MOST: usize = 9225;

// A space that every listing fits.
const ENOUGH: usize = 124692;

// What listing the stream answers, with the text at the start of `space`. By image and n, here and below: `Tells` speaks of the whole space.
fn tell(image: &[u8], n: usize, space: &mut [u8]) -> Result<usize, Refusal>
    requires image_len { length image.now ≡ most }
    requires n_in_bounds { n ≤ length image.now }
    requires space_len { length space.old ≡ enough }
    ensures inside { IfOk result (λ end. end ≤ length space.new) }
    ensures tells { Tells image.now n (as_told result space.new) }
{
    list(&image[..n], space)
}

// Writes nothing but the text of what was read; false if it cannot be written.
// The reader has `give`, `deny` and `answer_to` too: each names its own program's answer to a stream.
fn give<W: Write>(out: &mut W, image: &[u8], n: usize, text: &[u8]) -> bool
    requires { Tells image.now n (answer text.now) }
{
    out.write_all(text).is_ok()
}

// Says nothing but the refusal of what was read.
fn deny<E: Write>(errors: &mut E, image: &[u8], n: usize, r: Refusal)
    requires { Tells image.now n (refused (number_of r) (place_of r)) }
{
    refuse(errors, r)
}

// The stream that n bytes were read of.
fn answer_to<W: Write, E: Write>(out: &mut W, errors: &mut E, image: &[u8], n: usize)
    requires image_len { length image.now ≡ most }
    requires n_in_bounds { n ≤ length image.now }
{
    let mut space = blank::<ENOUGH>();
    match tell(image, n, &mut space) {
        Ok(end) => {
            if !give(out, image, n, &space[..end]) {
                complain(errors, b"lister: the text cannot be written\n");
            }
        }
        Err(r) => deny(errors, image, n, r),
    }
}

// Each program has a `main`, with its own space and its own words.
fn main(rt: HostRuntime) {
    let mut image = [0u8; MOST];
    match read_input(&mut rt.stdin(), &mut image) {
        Ok(n) => answer_to(&mut rt.stdout(), &mut rt.stderr(), &image, n),
        Err(_) => complain(&mut rt.stderr(), b"lister: the image cannot be read\n"),
    }
}
