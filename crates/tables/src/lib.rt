// The table that two texts declare: its resources and its tasks, and what is worked out of them.
#![tactic(auto)]

mod fault;
mod table;
mod task;

pub use fault::{Notice, ReadFault, Refusal};
pub use table::Table;
pub use table::reading::read;
pub use task::Task;
