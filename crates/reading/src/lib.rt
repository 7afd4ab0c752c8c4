// Reading: a text in the written form to an image.
#![tactic(auto)]

ghost use Rattle.reading.specs.Reads.{ReadsText};

mod bytes; // bytes.rt: what a byte can be
mod condition; // condition.rt: conditions, and their records
mod condition_lead; // condition_lead.rt: the token that a condition begins with
mod cursor; // cursor.rt: how far a reading has come
mod finish; // finish.rt: a node's own word
mod lead; // lead.rt: the token that a part begins with
mod mark; // mark.rt: the words and marks between parts
mod node; // node.rt: what follows the token that opened a node
mod number; // number.rt: numbers
mod part; // part.rt: parts, whatever their class
mod spaces; // spaces.rt: what stands between tokens
mod token; // token.rt: words, marks and numbers
mod whole; // whole.rt: the whole text
mod write; // write.rt: the image

use image::refusals::Refusal;
use token::{NODES, RECORDS};
use whole::whole;
use write::write_image;

// What the grammar says of a text, and its image where there is space: 17 or 18, "the earlier byte decides", and "14 last".
pub fn read(text: &[u8], out: &mut [u8]) -> Result<usize, Refusal>
    ensures { ReadsText text.now out.old out.new result }
{
    let mut nodes = [0u64; NODES];
    let mut records = [0u32; RECORDS];
    let r = whole(text, &mut nodes, &mut records)?;
    let c = r.cursor;
    write_image(r.value, c.condition, c.node, &records, &nodes, out)
}
