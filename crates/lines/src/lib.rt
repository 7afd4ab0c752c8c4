// The report: what a shared run answers and leaves, as text.
#![tactic(auto)]

ghost use Rattle.std.specs.Prelude.{◌*◌, ◌≤◌, length};
ghost use Rattle.image.specs.Sets.{settings};
ghost use Rattle.shared.specs.Lent.{tally};
ghost use Rattle.lines.specs.Limits.{enough};
ghost use Rattle.lines.specs.Text.{run_text, text};
ghost use Rattle.text.specs.Inner.Puts.{Puts};
ghost use Rattle.lines.specs.Report.{Reports};
ghost use Rattle.lines.specs.Inner.Telling.{Blank, Good};

mod answer; // answer.rt: what is answered, and a text handed over
mod input; // input.rt: the set and the budget
mod line; // line.rt: lines

pub use answer::Short;
use answer::hand_over;
use image::accept::check;
use image::refusals::Refusal;
pub use input::{budget_in, set_in};
use line::{put_ends, put_lines};
pub use line::{put_line, put_refusal};
use sets::Set;
use shared::shared_run;

// A space that every text fits.
pub const ENOUGH: usize = 2112;

// The text of a run on what is lent for it: four slices, as the call takes them from C too.
fn tell_run(
    image: &[u8],
    set: u64,
    budget: u32,
    store: &mut [i32],
    outcomes: &mut [u8],
    codes: &mut [i32],
    steps: &mut [u32],
    out: &mut [u8],
) -> usize
    requires { Blank (settings image.now) store.old (tally outcomes.old codes.old steps.old) (length out.old) }
    ensures { Puts (run_text image.now set budget) 0 out.old out.new result }
{
    match shared_run(
        image,
        Set { bits: set },
        budget,
        store,
        outcomes,
        codes,
        steps,
    ) {
        Err(r) => put_refusal(out, r),
        Ok(ends) => {
            let at = put_lines(out, outcomes, codes, steps);
            put_ends(out, at, ends)
        }
    }
}

// "all numbers start at 0", and each slice is lent at the exact length for n settings.
fn tell_image(image: &[u8], n: usize, set: u64, budget: u32, out: &mut [u8]) -> usize
    requires { Good image.now n (length out.old) }
    ensures { Puts (run_text image.now set budget) 0 out.old out.new result }
{
    let mut store = [0i32; 1024];
    let mut outcomes = [0u8; 64];
    let mut codes = [0i32; 64];
    let mut steps = [0u32; 64];
    let m = n * 16;
    tell_run(
        image,
        set,
        budget,
        &mut store[0..m],
        &mut outcomes[0..n],
        &mut codes[0..n],
        &mut steps[0..n],
        out,
    )
}

// "The report program tests 16 first, then as the shared run".
fn tell(input: &[u8], out: &mut [u8]) -> usize
    requires { enough ≤ length out.old }
    ensures { Puts (text input.now) 0 out.old out.new result }
{
    if input.len() < 12 {
        return put_refusal(out, Refusal::InputShort);
    }
    let image = &input[12..];
    match check(image) {
        Err(r) => put_refusal(out, r),
        Ok(shape) => {
            let n = 1usize << shape.options;
            tell_image(image, n, set_in(input), budget_in(input), out)
        }
    }
}

// The text through a space of its own, which it is certain to fit.
pub fn report(input: &[u8], out: &mut [u8]) -> Result<usize, Short>
    ensures { Reports (text input.now) out.old out.new result }
{
    let mut text = [0u8; ENOUGH];
    let n = tell(input, &mut text);
    hand_over(&text[..n], out)
}
