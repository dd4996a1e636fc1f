// The least number of ticks that is no less than what a part needs within it, and the search for it.
#![tactic(auto)]

mod demand;
mod search;
mod term;

pub use demand::Demand;
pub use search::{LONGEST_SPAN, Need, least_bound};
pub use term::Term;
