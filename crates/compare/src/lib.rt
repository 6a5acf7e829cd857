// Two sealed filters compared: the region list, the rows that they treat unlike, and the rows' holes.
#![tactic(auto)]

mod cells;
mod comparison;
mod regions;
mod reports;
mod rows;

pub use comparison::compare;
pub use reports::{Declined, Report};
pub use rows::Row;
