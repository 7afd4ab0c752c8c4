// The text of one hall, written into a space from its start; the answer is the place behind it.
ghost use Rattle.std.specs.Prelude.{◌≡◌, ◌+◌, ◌*◌, ◌≤◌, ◌<◌, length};
ghost use Rattle.text.specs.Inner.Puts.{Puts};
ghost use Rattle.hall.specs.Text.{variable_line, variable_lines, run_text, text, enough};

use image::refusals::Refusal;
use lines::{budget_in, put_line, put_refusal, set_in};
use plain::one_hall;
use text::{put, put_decimal, put_signed};

// The line of variable v, which holds z.
#[tactic(auto, using(lines::proofs::Room::room))]
fn put_variable(out: &mut [u8], at: usize, v: usize, z: i32) -> usize
    requires { (v < 16) × (at + 16 ≤ length out.old) }
    ensures { Puts (variable_line v z) at out.old out.new result }
{
    let name = put(out, at, b"v");
    let gap = put_decimal(out, name, v);
    let number = put(out, gap, b" ");
    let last = put_signed(out, number, z);
    put(out, last, b"\n")
}

// The lines of all variables, in order.
fn put_variables(out: &mut [u8], at: usize, numbers: &[i32]) -> usize
    requires { (length numbers.now ≡ 16) × (at + 16 * 16 ≤ length out.old) }
    ensures { Puts (variable_lines 16 numbers.now) at out.old out.new result }
{
    let mut end = at;
    for (v, z) in numbers.iter().enumerate() {
        end = put_variable(out, end, v, *z);
    }
    end
}

// The text of a run, where "all numbers start at 0".
fn tell_run(image: &[u8], setting: u64, budget: u32, out: &mut [u8]) -> usize
    requires { enough ≤ length out.old }
    ensures { Puts (run_text image.now setting budget) 0 out.old out.new result }
{
    let mut numbers = [0i32; 16];
    match one_hall(image, setting, budget, &mut numbers) {
        Err(r) => put_refusal(out, r),
        Ok(p) => {
            let at = put_line(out, 0, setting as usize, p);
            put_variables(out, at, &numbers)
        }
    }
}

// As the report "tests 16 first", then as the run of one hall; the setting stands where the report has its set.
pub fn tell(input: &[u8], out: &mut [u8]) -> usize
    requires { enough ≤ length out.old }
    ensures { Puts (text input.now) 0 out.old out.new result }
{
    if input.len() < 12 {
        return put_refusal(out, Refusal::InputShort);
    }
    let setting = set_in(input);
    let budget = budget_in(input);
    tell_run(&input[12..], setting, budget, out)
}
