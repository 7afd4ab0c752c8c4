// What stands between the parts of a statement: a space, or a line end and the level of the part.
ghost use Rattle.std.specs.Prelude.{◌+◌, ◌≤◌, length};
ghost use Rattle.text.specs.Inner.Puts.{Puts};
ghost use Rattle.written.specs.Lister.{line, gap};

use text::put;

// The deepest level that is indented as such.
const DEEPEST: usize = 16;

// A line end, and two spaces for each level.
pub fn put_line(out: &mut [u8], at: usize, level: usize) -> usize
    requires { at + length (line level) ≤ length out.old }
    ensures { Puts (line level) at out.old out.new result }
{
    let deepest: &[u8] = b"\n                                ";
    let end = 1 + 2 * level.min(DEEPEST);
    put(out, at, &deepest[..end])
}

#[tactic(auto, unfolding(written::specs::Lister::gap))]
pub fn put_gap(out: &mut [u8], at: usize, flat: bool, level: usize) -> usize
    requires { at + length (gap flat level) ≤ length out.old }
    ensures { Puts (gap flat level) at out.old out.new result }
{
    if flat {
        return put(out, at, b" ");
    }
    put_line(out, at, level)
}
