ghost use Rattle.std.specs.Prelude.{◌≡◌, ◌≤◌, length};

use crate::table::Table;
use crate::task::Task;
use names::Name;

impl Table {
    // The resources, in the order of their text.
    pub fn resources(&self) -> &[Name]
        ensures { result.now ≡ self.now.resources.items }
    {
        self.resources.as_slice()
    }

    // The tasks, by rank. There are at most 64.
    pub fn tasks(&self) -> &[Task]
        ensures value { result.now ≡ self.now.tasks.items }
        ensures few { length result.now ≤ 64 }
    {
        self.tasks.as_slice()
    }
}
