// Conditions: "one condition record for each written occurrence, .. operands first".
ghost use Rattle.image.specs.Kinds.{condition_kind_number};
ghost use Rattle.reading.specs.Inner.Conditions.{ConditionReady, ReadsCondition};
ghost use Rattle.reading.specs.Inner.Storing.{Storable, Stores};

use super::condition_lead::{condition_lead, join};
use super::cursor::{Cursor, before};
use super::mark::fixed;
use image::kinds::ConditionKind;
use image::refusals::Refusal;
use image::words::condition_word;

// One record more, by the fields of its word.
fn store(
    c: Cursor,
    kind: ConditionKind,
    option: usize,
    left: usize,
    right: usize,
    records: &mut [u32],
) -> Cursor
    requires { Storable c (condition_kind_number kind) option left right records.old }
    ensures { Stores c (condition_kind_number kind) option left right records.old records.new result }
{
    let at = c.condition;
    records[at] = condition_word(u32::from(kind), option, left, right);
    Cursor {
        condition: at + 1,
        ..c
    }
}

// Behind a condition. The token that it begins with has been read before its operands are.
pub fn condition(
    text: &[u8],
    options: u64,
    c: Cursor,
    records: &mut [u32],
) -> Result<Cursor, Refusal>
    requires { ConditionReady text.now options c records.old }
    ensures { ReadsCondition text.now options c result records.old records.new }
{
    let lead = condition_lead(text, options, c)?;
    let o = lead.cursor;
    match lead.kind {
        ConditionKind::Not => {
            let a = condition(text, options, o, records)?;
            let left = before(a.condition);
            Ok(store(a, ConditionKind::Not, 0, left, 0, records))
        }
        ConditionKind::And => {
            let a = condition(text, options, o, records)?;
            let j = join(text, a)?;
            let between = j.cursor;
            let b = condition(text, options, between, records)?;
            let d = fixed(text, b, b")")?;
            let left = before(a.condition);
            let right = before(b.condition);
            Ok(store(d, j.kind, 0, left, right, records))
        }
        kind => Ok(store(o, kind, lead.value as usize, 0, 0, records)),
    }
}
