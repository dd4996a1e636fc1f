// What is told of a desk: its plan, or why it has none, as text.
#![tactic(auto)]

mod denial;
mod denying;
mod fault;
mod planning;
mod telling;

pub use denial::{Denial, denied};
pub use fault::ListingFault;
pub use telling::{listing, text};
