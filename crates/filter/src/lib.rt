// First-match filters in lent clause memory: drafts that are edited, sealed filters that are matched and compared.
#![tactic(auto)]

mod draft;
mod errors;
mod places;
mod sealed;

pub use draft::Draft;
pub use errors::EditError;
pub use places::insert_at;
pub use sealed::Sealed;
