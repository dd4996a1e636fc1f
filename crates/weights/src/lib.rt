// Weighing the tasks of a table under a seating: their blocking terms and their bounds.
#![tactic(auto)]

mod weighing;
mod weight;

pub use weighing::weigh_seats;
pub use weight::Weight;
