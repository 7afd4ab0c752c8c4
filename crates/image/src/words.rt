// An image's words, and their bytes.
ghost use Rattle.std.specs.Prelude.{◌≡◌, ◌+◌, ◌≤◌, length};
ghost use Rattle.std.proofs.lemmas.List.Edits.{sets};
ghost use Rattle.image.specs.Term.{head_word, condition_word, node_word, bytes_of};
ghost use Rattle.image.specs.Inner.Words.{HeadFields, ConditionFields, NodeFields};

// The lowest bytes of w, `width` of them, most significant first; the least is stored first. By the place: the width is the caller's, so no array of the library's fits.
pub fn put(out: &mut [u8], at: usize, w: u64, width: usize)
    requires { at + width ≤ length out.old }
    ensures { out.new ≡ sets out.old at (bytes_of width w) }
{
    let mut rest = w;
    for i in (0..width).rev() {
        out[at + i] = (rest % 256) as u8;
        rest /= 256;
    }
}

// Edition 1, and the counts.
pub fn head_word(options: usize, conditions: usize, nodes: usize) -> u64
    requires { HeadFields options conditions nodes }
    ensures { result ≡ head_word options conditions nodes }
{
    0x100_0000_0000_0000
        + (options as u64) * 0x10_0000_0000_0000
        + (conditions as u64) * 0x100_0000_0000
        + (nodes as u64) * 0x1000_0000
}

// Each field is as wide as its place, so no sum leaves 32 bits.
pub fn condition_word(kind: u32, option: usize, left: usize, right: usize) -> u32
    requires { ConditionFields kind option left right }
    ensures { result ≡ condition_word kind option left right }
{
    kind * 0x1000_0000 + (option as u32) * 0x100_0000 + (left as u32) * 0x1000 + (right as u32)
}

// The fields one by one, as a record of document 01 has them. No kind above 23 is known, so a value of 32 bits never carries out of the word.
pub fn node_word(kind: u32, variable: usize, value: u32, a: usize, b: usize, c: usize) -> u64
    requires { NodeFields kind variable a b c }
    ensures { result ≡ node_word kind variable value a b c }
{
    (kind as u64) * 0x400_0000_0000_0000
        + (variable as u64) * 0x10_0000_0000_0000
        + (a as u64) * 0x100_0000_0000
        + (b as u64) * 0x1000_0000
        + (c as u64) * 0x1_0000
        + (value as u64)
}
