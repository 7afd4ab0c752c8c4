// A reply: a call's answer as eight numbers.
ghost use Rattle.std.specs.Prelude.{◌≡◌, length, cond};
ghost use Rattle.image.specs.Refusals.{number_of, place_of};
ghost use Rattle.image.specs.Rows.{refused};
ghost use Rattle.calls.specs.Reply.{reply, no_values, values, shape_reply, length_reply, progress_reply, ends_reply};
ghost use Rattle.calls.specs.Space.{answer_length, all_numbers};

use image::accept::Shape;
use image::refusals::Refusal;
use imp::bits;
use lines::Short;
use plain::progress::Progress;
use shared::Ends;

// Carried out: number 0 and the call's values, 0 where it has no such value. Refused: number and place.
#[derive(Clone, Copy)]
pub struct Reply {
    pub number: usize,
    pub place: usize,
    pub values: [usize; 6],
}

pub fn values(first: usize, second: usize, third: usize) -> Reply
    ensures { result ≡ values first second third }
{
    Reply {
        number: 0,
        place: 0,
        values: [first, second, third, 0, 0, 0],
    }
}

impl From<Refusal> for Reply {
    ghost from_gives = { λ r y. y ≡ reply no_values (refused (number_of r) (place_of r)) };

    fn from(r: Refusal) -> Reply {
        Reply {
            number: r.number() as usize,
            place: r.place(),
            values: [0; 6],
        }
    }
}

// The length of a text that the space was too short for, and 1.
impl From<Short> for Reply {
    ghost from_gives = { λ s y. y ≡ values s.0 1 0 };

    fn from(s: Short) -> Reply {
        values(s.0, 1, 0)
    }
}

// F, C and P.
impl From<Shape> for Reply {
    ghost from_gives = { λ h y. y ≡ shape_reply h };

    fn from(h: Shape) -> Reply {
        values(h.options as usize, h.conditions, h.nodes)
    }
}

// 1 for a member, else 0.
impl From<bool> for Reply {
    ghost from_gives = { λ is y. y ≡ values (cond is 1 0) 0 0 };

    fn from(is: bool) -> Reply {
        values(usize::from(is), 0, 0)
    }
}

// The length of what was written.
impl From<usize> for Reply {
    ghost from_gives = { λ n y. y ≡ length_reply n };

    fn from(n: usize) -> Reply {
        values(n, 0, 0)
    }
}

// Outcome, code as 32 bits, and steps.
impl From<Progress> for Reply {
    ghost from_gives = { λ p y. y ≡ progress_reply p };

    fn from(p: Progress) -> Reply {
        values(
            usize::from(p.outcome),
            bits(p.code) as usize,
            p.steps as usize,
        )
    }
}

// The visits, the set in fault, the set out.
impl From<Ends> for Reply {
    ghost from_gives = { λ e y. y ≡ ends_reply e };

    fn from(e: Ends) -> Reply {
        values(
            e.visits as usize,
            e.fault.bits as usize,
            e.out.bits as usize,
        )
    }
}

pub fn fill(r: Reply, answer: &mut [usize])
    requires { length answer.old ≡ answer_length }
    ensures { answer.new ≡ all_numbers r }
{
    answer[0] = r.number;
    answer[1] = r.place;
    answer[2..].copy_from_slice(&r.values);
}
