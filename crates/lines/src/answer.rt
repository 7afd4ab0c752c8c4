// A text handed over: all of it where it fits, else only its length.
ghost use Rattle.lines.specs.Report.{Reports};

use text::put;

// How long the text is that `out` is too short for.
#[derive(Clone, Copy, PartialEq, Eq)]
pub struct Short(pub usize);

// The length of the text, and all of it is in `out`; or `out` is too short and as it was.
pub fn hand_over(text: &[u8], out: &mut [u8]) -> Result<usize, Short>
    ensures { Reports text.now out.old out.new result }
{
    if out.len() < text.len() {
        return Err(Short(text.len()));
    }
    Ok(put(out, 0, text))
}
