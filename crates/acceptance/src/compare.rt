// Condition 3 of one routine: one shared run over the set, and then every setting by itself.
ghost use Rattle.std.specs.Prelude.{◌≡◌, ◌≤◌, ◌<◌, length};
ghost use Rattle.image.specs.Rows.{written, check_rows};
ghost use Rattle.image.specs.Sets.{settings};
ghost use Rattle.shared.specs.Lent.{tally};
ghost use Rattle.acceptance.specs.Inner.Lengths.{Lengths};
ghost use Rattle.acceptance.specs.Inner.Comparing.{setting_holds, all_hold, compared};
ghost use Rattle.acceptance.specs.Inner.Expected.{expected};

use crate::alone::{agrees, untouched};
use crate::numbers::fill;
use image::accept::check;
use plain::progress::Progress;
use sets::Set;
use shared::shared_run;

#[derive(Clone, Copy)]
pub struct Compared {
    pub settings: usize,
    pub visits: u32,
    pub holds: bool,
}

// The settings of an image: 0 where the check refuses it.
fn settings(image: &[u8]) -> usize
    ensures upper_bound { result ≤ 64 }
    ensures value { result ≡ written (check_rows image.now) (settings image.now) 0 }
{
    match check(image) {
        Ok(shape) => 1 << shape.options,
        Err(_) => 0,
    }
}

// Setting s inside the set is as its plain run and outside untouched, and "visits are at least the largest step count".
// One by one: each of its parameters is another's answer.
#[tactic(auto, unfolding(crate::specs::Inner::Comparing::setting_holds))]
fn setting_holds(
    image: &[u8],
    set: Set,
    budget: u32,
    visits: u32,
    s: usize,
    p: Progress,
    left: &[i32],
) -> bool
    requires { s < 64 }
    ensures { result ≡ setting_holds image.now set.bits budget visits s p left.now }
{
    if visits < p.steps {
        return false;
    }
    if set.has(s as u64) {
        return agrees(image, s, budget, p, left);
    }
    untouched(s, p, left)
}

// Every setting holds, and the visits are "at most their sum". The slices one by one, as `shared_run` takes them; its
// `Lent` is its own.
fn all_hold(
    image: &[u8],
    set: Set,
    budget: u32,
    visits: u32,
    store: &[i32],
    outcomes: &[u8],
    codes: &[i32],
    steps: &[u32],
) -> bool
    requires { Lengths (length outcomes.now) (length store.now) (length codes.now) (length steps.now) }
    ensures { result ≡ all_hold image.now set.bits budget visits store.now
        (tally outcomes.now codes.now steps.now) }
{
    let mut sum: u64 = 0;
    let mut good = true;
    for (s, left) in store.chunks_exact(16).enumerate() {
        let p = Progress {
            outcome: outcomes[s],
            code: codes[s],
            steps: steps[s],
        };
        let holds = setting_holds(image, set, budget, visits, s, p, left);
        good &= holds;
        sum += u64::from(p.steps);
    }
    good & (u64::from(visits) <= sum)
}

// The runs, on slices of the right lengths, one by one as `shared_run` takes them.
fn compare_lent(
    image: &[u8],
    set: Set,
    budget: u32,
    store: &mut [i32],
    outcomes: &mut [u8],
    codes: &mut [i32],
    steps: &mut [u32],
) -> Option<Compared>
    requires { Lengths (length outcomes.old) (length store.old) (length codes.old) (length steps.old) }
    ensures { result ≡ compared (length outcomes.old) image.now set.bits budget
        (tally outcomes.old codes.old steps.old) }
{
    let n = outcomes.len();
    fill(0, store);
    let ends = shared_run(image, set, budget, store, outcomes, codes, steps).ok()?;
    let visits = ends.visits;
    let holds = all_hold(image, set, budget, visits, store, outcomes, codes, steps);
    Some(Compared {
        settings: n,
        visits,
        holds,
    })
}

// Condition 3 holds wherever the image, the set and the budget are not refused.
pub fn compare(image: &[u8], set: Set, budget: u32) -> Option<Compared>
    ensures { result ≡ expected image.now set.bits budget }
{
    let mut store = [0i32; 1024];
    let mut outcomes = [0u8; 64];
    let mut codes = [0i32; 64];
    let mut steps = [0u32; 64];
    let n = settings(image);
    let k = n * 16;
    compare_lent(
        image,
        set,
        budget,
        &mut store[..k],
        &mut outcomes[..n],
        &mut codes[..n],
        &mut steps[..n],
    )
}
