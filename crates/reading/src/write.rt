// The image of what has been read: "14 last", and nothing is written before it is known that all fits.
ghost use Rattle.std.specs.Prelude.{◌≡◌, ℕ, ◌+◌, ◌*◌, ◌≤◌, length, take};
ghost use Rattle.std.specs.List.{flat_map};
ghost use Rattle.std.proofs.lemmas.List.Edits.{sets};
ghost use Rattle.image.specs.Term.{bytes_of};
ghost use Rattle.reading.specs.Inner.Writing.{Writing, Writes};

use image::refusals::Refusal;
use image::words::{head_word, put};

// Words one behind another, `width` bytes each.
fn put_words<T: Copy + Into<u64>>(out: &mut [u8], at: usize, words: &[T], width: usize)
    requires { at + width * length words.now ≤ length out.old }
    ensures { (value : T → ℕ) → ((w : T) (n : ℕ) → T.converts w n → n ≡ value w)
        → out.new ≡ sets out.old at (flat_map (λ w. bytes_of width (value w)) words.now) }
{
    for (i, w) in words.iter().enumerate() {
        put(out, at + width * i, (*w).into(), width);
    }
}

// Header, condition records, nodes; the spaces hold as many as are counted beside them, and what is behind those is not the text's.
pub fn write_image(
    options: u64,
    conditions: usize,
    count: usize,
    records: &[u32],
    nodes: &[u64],
    out: &mut [u8],
) -> Result<usize, Refusal>
    requires { Writing options conditions count records.now nodes.now }
    ensures { Writes options conditions count records.now nodes.now out.old out.new result }
{
    let first = 8 + 4 * conditions;
    let length = first + 8 * count;
    if out.len() < length {
        return Err(Refusal::SpaceShort);
    }
    put(out, 0, head_word(options as usize, conditions, count), 8);
    put_words(out, 8, &records[..conditions], 4);
    put_words(out, first, &nodes[..count], 8);
    Ok(length)
}
