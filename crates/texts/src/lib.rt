// The texts of a table as bytes, and their lines.
#![tactic(auto)]

mod cutting;
mod lines;
mod pair;
mod place;

pub use cutting::cut;
pub use lines::{Lines, next_line};
pub use pair::Texts;
pub use place::{Place, Text};
