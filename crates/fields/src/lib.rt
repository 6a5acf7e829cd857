// The fields of a record and how a record is laid out, and the faults of records and files.
#![tactic(auto)]

mod faults;
mod fields;
mod layouts;

pub use faults::{Fault, FaultKind, Part, RecordFault};
pub use fields::{Number, given, given_bit, put_given};
pub use layouts::{Layout, read_record};
