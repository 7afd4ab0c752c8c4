// Condition 3 by calls: each routine on standard input is run over its set and, setting by setting, by itself.
#![tactic(auto)]

ghost use Rattle.std.specs.Prelude.{◌<◌, length};

mod alone; // alone.rt: one setting by itself
mod compare; // compare.rt: one routine
mod numbers; // numbers.rt: a setting's sixteen numbers
mod tell; // tell.rt: a line for each routine

use compare::compare;
use image::number_at;
use lines::{budget_in, set_in};
use sets::Set;
use streams::{Failed, read_input};
use tell::{tell, tell_cut_short};

// Routine k, whose record begins the input: the length of the image in 2 bytes, the set in 8, the budget in 4, then the image. Answers what stands behind it:
// nothing where it is cut short.
fn routine<'a, R: Print>(rt: &R, input: &'a [u8], k: u64) -> &'a [u8]
    requires { 0 < length input.now }
    ensures { length result.now < length input.now }
{
    if let Some((head, rest)) = input.split_at_checked(14) {
        let size = number_at(head, 0, 2) as usize;
        if let Some((image, behind)) = rest.split_at_checked(size) {
            let run = &head[2..];
            let set = Set { bits: set_in(run) };
            tell(rt, k, compare(image, set, budget_in(run)));
            return behind;
        }
    }
    tell_cut_short(rt, k);
    &[]
}

// The first 16384 bytes of standard input, or as many as came before reading failed.
fn main(rt: HostRuntime) {
    let mut space = [0u8; 16384];
    let n = read_input(&mut rt.stdin(), &mut space).unwrap_or_else(|Failed(n)| n);
    let mut rest: &[u8] = &space[..n];
    // Counted by hand: how long a routine is stands in its record, so there is nothing to enumerate before it is read.
    let mut k: u64 = 0;
    while !rest.is_empty() {
        rest = routine(&rt, rest, k);
        k += 1;
    }
}
