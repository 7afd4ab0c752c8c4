// How far a reading has come. What cannot be read on is refused, and a production is a line of calls, each behind the one before it.
ghost use Rattle.std.specs.Prelude.{◌≡◌, ◌-◌};

// The place, and whether a word or number ends right before it; how many nodes and condition records have been opened; and the numbers of the next node and the
// next condition to be written.
#[derive(Clone, Copy)]
pub struct Cursor {
    pub at: usize,
    pub tight: bool,
    pub nodes: usize,
    pub records: usize,
    pub node: usize,
    pub condition: usize,
}

// The number before the next one.
pub fn before(next: usize) -> usize
    ensures { result ≡ next - 1 }
{
    next.saturating_sub(1)
}
