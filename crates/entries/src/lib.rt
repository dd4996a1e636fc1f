// What one line of a text says: the name of a resource, or a task with its lengths, period and resource by name.
#![tactic(auto)]

mod entry;
mod fault;
mod parsing;

pub use entry::Entry;
pub use fault::{At, LineError, LineFault};
pub use parsing::{parse_resource, parse_task};
