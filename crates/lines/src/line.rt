// The lines of a report, written into a slice from a place on; the answer is the place behind them.
ghost use Rattle.std.specs.Prelude.{◌+◌, ◌≤◌, ◌<◌, ◌++◌, length};
ghost use Rattle.image.specs.Refusals.{number_of, place_of};
ghost use Rattle.shared.specs.Lent.{tally};
ghost use Rattle.lines.specs.Words.{space, word, field};
ghost use Rattle.lines.specs.Text.{line, last_line, refusal_line};
ghost use Rattle.text.specs.Inner.Puts.{Puts};
ghost use Rattle.lines.specs.Inner.Telling.{Lined, tallied};

use image::refusals::Refusal;
use plain::progress::{FAULT, IDLE, LIVE, OUT, Progress};
use shared::Ends;
use text::{put, put_decimal, put_signed};

// A number behind its word, and the byte that ends it.
#[tactic(auto, using(crate::proofs::Room::room))]
fn put_field(out: &mut [u8], at: usize, name: &[u8], n: usize, end: u8) -> usize
    requires { at + length (field name.now n end) ≤ length out.old }
    ensures { Puts (field name.now n end) at out.old out.new result }
{
    let first = put(out, at, name);
    let last = put_decimal(out, first, n);
    put(out, last, &[end])
}

// "outcome in words (idle, done, fault, out)", between two spaces; no other number has a word. Outcomes are numbers (plain/src/progress.rt).
#[tactic(auto, unfolding(crate::specs::Words::word, crate::specs::Words::outcome_words))]
fn put_word(out: &mut [u8], at: usize, outcome: u8) -> usize
    requires { at + 7 ≤ length out.old }
    ensures { Puts (space ++ (word outcome ++ space)) at out.old out.new result }
{
    match outcome {
        IDLE => put(out, at, b" idle "),
        LIVE => put(out, at, b" done "),
        FAULT => put(out, at, b" fault "),
        OUT => put(out, at, b" out "),
        _ => put(out, at, b"  "),
    }
}

// The line of setting s.
#[tactic(auto, using(crate::proofs::Room::room))]
pub fn put_line(out: &mut [u8], at: usize, s: usize, p: Progress) -> usize
    requires { (s < 64) × (at + 32 ≤ length out.old) }
    ensures { Puts (line s p) at out.old out.new result }
{
    let after_s = put_decimal(out, at, s);
    let after_word = put_word(out, after_s, p.outcome);
    let after_code = put_signed(out, after_word, p.code);
    put_field(out, after_code, b" ", p.steps as usize, b'\n')
}

// The lines of all settings, in order.
pub fn put_lines(out: &mut [u8], outcomes: &[u8], codes: &[i32], steps: &[u32]) -> usize
    requires { Lined (length out.old) outcomes.now codes.now steps.now }
    ensures puts { Puts
        (tallied (length outcomes.now) (tally outcomes.now codes.now steps.now)) 0
        out.old out.new result }
    ensures upper_bound { result ≤ 2048 }
{
    let mut at = 0;
    // By the setting's number: its outcome, code and steps stand in three slices. (`Lent::progress` is the shared run's own.)
    for s in 0..outcomes.len() {
        let p = Progress {
            outcome: outcomes[s],
            code: codes[s],
            steps: steps[s],
        };
        at = put_line(out, at, s, p);
    }
    at
}

// "then visits and the number of members of the two sets".
#[tactic(auto, using(crate::proofs::Room::room))]
pub fn put_ends(out: &mut [u8], at: usize, ends: Ends) -> usize
    requires { at + 64 ≤ length out.old }
    ensures { Puts (last_line ends) at out.old out.new result }
{
    let faults = ends.fault.count() as usize;
    let outs = ends.out.count() as usize;
    let first = put_field(out, at, b"visits ", ends.visits as usize, b' ');
    let second = put_field(out, first, b"faults ", faults, b' ');
    put_field(out, second, b"out ", outs, b'\n')
}

// "A refusal prints one line, its number and place".
#[tactic(auto, using(crate::proofs::Room::room))]
pub fn put_refusal(out: &mut [u8], r: Refusal) -> usize
    requires { 64 ≤ length out.old }
    ensures { Puts (refusal_line (number_of r) (place_of r)) 0 out.old out.new result }
{
    let first = put_field(out, 0, b"refused ", r.number() as usize, b' ');
    put_field(out, first, b"at ", r.place(), b'\n')
}
