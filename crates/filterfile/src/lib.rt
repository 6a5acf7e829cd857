// A whole filter file, for every recorded family and action kind.
#![tactic(auto)]

mod files;
mod writing;

pub use files::{read_file, usable_places};
pub use writing::{WriteError, write_file};
