// Families whose regions, and action kinds whose actions, have records: the traits, and the records of those supplied.
#![tactic(auto)]

mod actions;
mod pairs;
mod ranges;
mod recorded;
mod spans;
mod verdicts;

pub use fields::{Fault, FaultKind, Part, RecordFault};
pub use recorded::{Recorded, RecordedAction, Written, WrittenAction};
