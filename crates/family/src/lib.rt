// What a family of regions and a kind of action tell, and the laws that they owe.
#![tactic(auto)]

mod actions;
mod clauses;
mod edges;
mod families;

pub use actions::ActionKind;
pub use clauses::Clause;
pub use edges::Edge;
pub use families::Family;
