// How long each part of a task may take under a seating: needs, blocking terms, bounds, and which task is late.
#![tactic(auto)]

mod blocking;
mod judging;
mod lateness;
mod needs;
mod part;
mod places;
mod seated;
mod seating;

pub use lateness::{Lateness, WeighFault};
pub use part::{Bounds, PartKind};
pub use seated::Seated;
pub use seating::{Seating, is_box};
