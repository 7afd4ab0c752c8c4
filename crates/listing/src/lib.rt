// The lister: an image as a written form, laid out for people.
#![tactic(auto)]

ghost use Rattle.std.specs.Prelude.{length};
ghost use Rattle.text.specs.Inner.Puts.{Puts};
ghost use Rattle.listing.specs.Lists.{listing_of, text_rows, list_rows, Lists};
ghost use Rattle.listing.specs.Inner.Shaped.{Shaped, Fitting};

mod gap; // gap.rt: what stands between the parts of a statement
mod records; // records.rt: how many conditions are written
mod short; // short.rt: whether the parts of a statement are short
mod spelling; // spelling.rt: the signs of each kind
mod write; // write.rt: nodes and conditions, sign by sign

use image::accept::{Shape, check};
use image::refusals::Refusal;
use image::routine::Routine;
use records::written_records;
use text::{put, put_decimal};
use write::list_node;

// As many condition records may be written out.
const RECORDS: usize = 256;

// A space that every listing fits.
const LONGEST: usize = 124692;

// "It begins with `options` and F."
fn put_listing(image: &[u8], shape: Shape, out: &mut [u8]) -> usize
    requires { Fitting image.now shape (length out.old) }
    ensures { Puts (listing_of image.now) 0 out.old out.new result }
{
    let root = shape.nodes - 1;
    let word = put(out, 0, b"options ");
    let count = put_decimal(out, word, shape.options as usize);
    let line = put(out, count, b"\n");
    let end = list_node(Routine::of(image, shape), root, 0, line, out);
    put(out, end, b"\n")
}

// The last tests, 18 and 14. The text goes through a space of its own, which it is certain to fit.
fn list_good(image: &[u8], shape: Shape, out: &mut [u8]) -> Result<usize, Refusal>
    requires { Shaped image.now shape }
    ensures { Lists (text_rows image.now (length out.old)) image.now out.old out.new result }
{
    if RECORDS < written_records(Routine::of(image, shape)) {
        return Err(Refusal::TooMany(0));
    }
    let mut text = [0u8; LONGEST];
    let end = put_listing(image, shape, &mut text);
    if out.len() < end {
        return Err(Refusal::SpaceShort);
    }
    Ok(put(out, 0, &text[..end]))
}

// "The lister prints one spelling per tree": the length written, or refusals 1 to 8, 18, 14.
pub fn list(image: &[u8], out: &mut [u8]) -> Result<usize, Refusal>
    ensures { Lists (list_rows image.now (length out.old)) image.now out.old out.new result }
{
    let shape = check(image)?;
    list_good(image, shape, out)
}
