// Filter files from their bytes: one checked, or two compared, to the listing or to why there is none.
#![tactic(auto)]

mod checks;
mod codes;
mod comparing;
mod refusals;
mod texts;
mod writing;

pub use checks::check;
pub use refusals::{Refusal, Unwritten};
pub use texts::printed;
pub use writing::write_compared;
