// What a task's bounds add up to if it sat elsewhere: a seating is tried and stays as it was.
#![tactic(auto)]

mod fault;
mod moved;
mod trying;
mod weighing;

pub use fault::TrialFault;
pub use trying::trial;
