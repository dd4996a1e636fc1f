// Names as a text writes them, with entities, and as they are compared: decoded.
#![tactic(auto)]

mod fault;
mod name;

pub use fault::NameFault;
pub use name::{Name, NameBuffer};
