// The bench's calls for programs in C: the same answers, as plain numbers.
#![tactic(auto)]

ghost use Rattle.std.specs.Prelude.{◌≡◌};
ghost use Rattle.shared.specs.Lent.{tally};
ghost use Rattle.lines.specs.Text.{text};
ghost use Rattle.calls.specs.Calls.{check_reply, condition_reply, configure_reply, configure_left, plain_reply, plain_left, hall_reply, hall_left, list_reply, list_left, text_reply, text_left};
ghost use Rattle.calls.specs.Space.{where_right, Answers};
ghost use Rattle.calls.specs.Inner.Asked.{Asked};
ghost use Rattle.calls.specs.Read.{AnsweredRead};
ghost use Rattle.calls.specs.Shared.{AnsweredAll};

mod reply; // reply.rt: an answer as eight numbers

use configure::configure;
use image::accept::check;
use image::conditions::condition_set;
use lines::report;
use listing::list;
use plain::{one_hall, plain_run};
use reading::read;
use reply::{Reply, fill};
use sets::Set;
use shared::shared_run;

// How many numbers an answer has: number, place and six values.
const ANSWER_LENGTH: usize = 8;

// Whether the answer space is right. Where it is, `ask` is carried out and its answer is in the space; where it is not, nothing is carried out.
fn answered<T: Into<Reply>, E: Into<Reply>, F: FnMut() -> Result<T, E>>(
    answer: &mut [usize],
    ask: &mut F,
) -> bool
    requires { F.IsAlwaysCallable ask.old }
    ensures { Asked (λ x f. F.step ask.old x f) T.converts E.converts answer.old answer.new
        ask.old ask.new result }
{
    if answer.len() != ANSWER_LENGTH {
        return false;
    }
    fill(ask().map_or_else(E::into, T::into), answer);
    true
}

#[unsafe(no_mangle)]
pub extern "C" fn bench_check(image: &[u8], answer: &mut [usize]) -> bool
    ensures { Answers answer.old answer.new (check_reply image.now) result }
{
    answered(answer, &mut || check(image))
}

#[unsafe(no_mangle)]
pub extern "C" fn bench_condition_has(
    image: &[u8],
    condition: usize,
    s: u64,
    answer: &mut [usize],
) -> bool
    ensures { Answers answer.old answer.new
        (condition_reply image.now condition s) result }
{
    answered(
        answer,
        &mut || condition_set(image, condition).map(|set| set.has(s)),
    )
}

#[unsafe(no_mangle)]
pub extern "C" fn bench_configure(
    image: &[u8],
    setting: u64,
    out: &mut [u8],
    answer: &mut [usize],
) -> bool
    ensures answers { Answers answer.old answer.new
        (configure_reply image.now setting out.old) result }
    ensures out_after { out.new ≡ where_right answer.old
        (configure_left image.now setting out.old) out.old }
{
    answered(answer, &mut || configure(image, setting, out))
}

#[unsafe(no_mangle)]
pub extern "C" fn bench_plain_run(
    image: &[u8],
    budget: u32,
    numbers: &mut [i32],
    answer: &mut [usize],
) -> bool
    ensures answers { Answers answer.old answer.new
        (plain_reply image.now budget numbers.old) result }
    ensures numbers_after { numbers.new ≡ where_right answer.old
        (plain_left image.now budget numbers.old) numbers.old }
{
    answered(answer, &mut || plain_run(image, budget, numbers))
}

#[unsafe(no_mangle)]
pub extern "C" fn bench_one_hall(
    image: &[u8],
    setting: u64,
    budget: u32,
    numbers: &mut [i32],
    answer: &mut [usize],
) -> bool
    ensures answers { Answers answer.old answer.new
        (hall_reply image.now setting budget numbers.old) result }
    ensures numbers_after { numbers.new ≡ where_right answer.old
        (hall_left image.now setting budget numbers.old) numbers.old }
{
    answered(answer, &mut || one_hall(image, setting, budget, numbers))
}

#[unsafe(no_mangle)]
pub extern "C" fn bench_shared_run(
    image: &[u8],
    set: u64,
    budget: u32,
    store: &mut [i32],
    outcomes: &mut [u8],
    codes: &mut [i32],
    steps: &mut [u32],
    answer: &mut [usize],
) -> bool
    ensures { AnsweredAll image.now set budget store.old (tally outcomes.old codes.old steps.old)
        store.new (tally outcomes.new codes.new steps.new) answer.old answer.new result }
{
    answered(
        answer,
        &mut || {
            let set = Set { bits: set };
            shared_run(image, set, budget, store, outcomes, codes, steps)
        },
    )
}

#[unsafe(no_mangle)]
pub extern "C" fn bench_report(input: &[u8], out: &mut [u8], answer: &mut [usize]) -> bool
    ensures answers { Answers answer.old answer.new
        (text_reply (text input.now) out.old) result }
    ensures out_after { out.new ≡ where_right answer.old
        (text_left (text input.now) out.old) out.old }
{
    answered(answer, &mut || report(input, out))
}

#[unsafe(no_mangle)]
pub extern "C" fn bench_list(image: &[u8], out: &mut [u8], answer: &mut [usize]) -> bool
    ensures answers { Answers answer.old answer.new
        (list_reply image.now out.old) result }
    ensures out_after { out.new ≡ where_right answer.old
        (list_left image.now out.old) out.old }
{
    answered(answer, &mut || list(image, out))
}

#[unsafe(no_mangle)]
pub extern "C" fn bench_read(text: &[u8], out: &mut [u8], answer: &mut [usize]) -> bool
    ensures { AnsweredRead text.now out.old out.new answer.old answer.new result }
{
    answered(answer, &mut || read(text, out))
}
