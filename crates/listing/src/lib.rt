// The printed text of a comparison: its rows, or which load or comparison was declined.
#![tactic(auto)]

mod declines;
mod lines;
mod listings;
mod numbers;
mod octets;
mod regions;

pub use declines::Declined;
pub use listings::Listing;
