// How far a setting is: its outcome, its code, its steps.

// "Outcomes: 0 idle, 1 done, 2 fault, 3 out." A setting that runs is done so far, and so it is live.
// They are numbers, since the shared run writes them into an array that C lends it.
pub const IDLE: u8 = 0;

pub const LIVE: u8 = 1;

pub const FAULT: u8 = 2;

pub const OUT: u8 = 3;

// "budget over 100,000"
pub const LARGEST_BUDGET: u32 = 100_000;

#[derive(Clone, Copy, PartialEq, Eq)]
pub struct Progress {
    pub outcome: u8,
    pub code: i32,
    pub steps: u32,
}
