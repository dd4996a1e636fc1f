// Which critical section may hold a synchronisation processor against which, and which of the open sections such a
// processor serves next.
#![tactic(auto)]

mod ceiling;
mod discipline;
mod naming;
mod section;
mod whole;

pub use ceiling::Ceiling;
pub use discipline::{Discipline, Holding};
pub use section::{OpenSection, Section};
pub use whole::Whole;
