// A plan: a table that is seated, with the bounds that its tasks keep.
#![tactic(auto)]

mod plan;
mod row;

pub use plan::Plan;
pub use plan::weighing::weigh;
pub use row::ShortRow;
