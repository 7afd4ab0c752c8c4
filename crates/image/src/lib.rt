// Images: what is refused, with which number and place, and what an accepted image holds.
#![tactic(auto)]

pub mod accept; // accept.rt: tests 1 to 8
pub mod conditions; // conditions.rt: the sets of conditions
mod fits; // fits.rt: what one record may hold
pub mod kinds; // kinds.rt: the kinds by name, and what each holds
mod names; // names.rt: how often each node is named
mod records; // records.rt: the fields of header, conditions and nodes
pub mod refusals; // refusals.rt: document 01's refusals
pub mod routine; // routine.rt: a routine in an image
pub mod search; // search.rt: the lowest number that is bad
pub mod setting; // setting.rt: a setting of a routine
pub mod words; // words.rt: an image's words, and their bytes

// Numbers, conditions and nodes of bare bytes stand beside a routine's own.
pub use records::{ConditionRecord, Node, condition_at, node_at, number_at};
