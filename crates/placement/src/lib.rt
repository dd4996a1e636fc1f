// Finding seats for a table: the first seating, by a fixed order of attempts, under which no task is late.
#![tactic(auto)]

mod placing;
mod seats;

pub use placing::place;
