// A line for each routine: its number, and whether condition 3 holds of it. Where it cannot be written, nothing tells it.
use crate::compare::Compared;
use std::fmt;

impl fmt::Display for Compared {
    fn fmt<W: fmt::Write>(&self, f: &mut fmt::Formatter<W>) -> fmt::Result {
        let word = if self.holds { "holds" } else { "FAILS" };
        write!(
            f,
            "{} settings, {} visits, condition 3 {word}",
            self.settings, self.visits
        )
    }
}

fn tell_number<R: Print>(rt: &R, k: u64) {
    let _ = print!(rt; "routine {k}: ");
}

pub fn tell<R: Print>(rt: &R, k: u64, compared: Option<Compared>) {
    tell_number(rt, k);
    let _ = match compared {
        Some(c) => println!(rt; "{c}"),
        None => println!(rt; "refused"),
    };
}

pub fn tell_cut_short<R: Print>(rt: &R, k: u64) {
    tell_number(rt, k);
    let _ = println!(rt; "cut short");
}
