ghost use Rattle.std.specs.Prelude.{◌≡◌, ◌≤◌, true, vec_len};
ghost use Rattle.tables.specs.Rows.{sound};
ghost use Rattle.tables.specs.Rowed.{called, rows};

use crate::task::Task;
use names::Name;

pub(crate) mod copying;
mod growing;
pub(crate) mod reading;
mod rows;

// The resources of a desk, in the order of their text, and its tasks, by rank. A table is empty, was filled by
// `read`, or is a copy of such a one: no two resources and no two tasks have the same name, tasks stand by rising period, and a task's resource
// is one of the table's.
#[derive(Debug, Drop)]
pub struct Table {
    resources: Vec<Name>,
    tasks: Vec<Task>,
    ghost few: { (vec_len resources ≤ 32) × (vec_len tasks ≤ 64) },
    ghost sound: { sound (called resources.items) (rows tasks.items) ≡ true },
}
