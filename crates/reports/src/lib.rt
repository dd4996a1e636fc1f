// What is written of a table that was read, and of a refusal, as the bytes of a text.
#![tactic(auto)]

mod listing;
mod refusing;

pub use listing::table_text;
pub use refusing::refusal_text;
