// One byte of a name as a text writes it: as itself, or by an entity.
#![tactic(auto)]

mod units;

pub use units::{Decoded, entity, unit};
