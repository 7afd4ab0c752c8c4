// One setting by itself: the run of one hall.
ghost use Rattle.std.specs.Prelude.{◌≡◌, ◌<◌};
ghost use Rattle.acceptance.specs.Inner.Comparing.{agrees, stays};

use crate::numbers::fill;
use plain::one_hall;
use plain::progress::{IDLE, Progress};

// "the same numbers, outcome, code and steps as the plain run of the routine configured for it".
pub fn agrees(image: &[u8], s: usize, budget: u32, p: Progress, left: &[i32]) -> bool
    requires { s < 64 }
    ensures { result ≡ agrees image.now s budget p left.now }
{
    let mut numbers = [0i32; 16];
    fill(s * 16, &mut numbers);
    match one_hall(image, s as u64, budget, &mut numbers) {
        Ok(q) => (p == q) & (numbers.as_slice() == left),
        Err(_) => false,
    }
}

// "outside the set nothing changes and the outcome is idle".
pub fn untouched(s: usize, p: Progress, left: &[i32]) -> bool
    requires { s < 64 }
    ensures { result ≡ stays s p left.now }
{
    let mut numbers = [0i32; 16];
    fill(s * 16, &mut numbers);
    let idle = Progress {
        outcome: IDLE,
        code: 0,
        steps: 0,
    };
    (p == idle) & (numbers.as_slice() == left)
}
