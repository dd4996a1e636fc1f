ghost use Rattle.std.specs.Prelude.{◌≡◌, ◌<◌, true, false, [], map, length, IfOk, Ok, vec_len, OnOk};
ghost use Rattle.std.specs.Option.{option_map};
ghost use Rattle.names.specs.Spelled.{spelled};
ghost use Rattle.entries.specs.Said.{entered};
ghost use Rattle.entries.specs.Told.{Told};
ghost use Rattle.tables.specs.Listed.{listed};
ghost use Rattle.tables.specs.Reading.{empty_table, fitted, resource_for, place_for, read_line, with_entry, with_resource, with_task};
ghost use Rattle.tables.specs.Rowed.{row_of, rowed, rows};
ghost use Rattle.tables.specs.Rows.{has, inside, place_of, rising, row_names, spot};

use crate::table::Table;
use crate::task::Task;
use entries::{Entry, LineError, LineFault, parse_resource, parse_task};
use fields::Ticks;
use names::Name;
use std::alloc::{AllocError, Global};
use texts::Text;

const MOST_RESOURCES: usize = 32;

const MOST_TASKS: usize = 64;

// How many tasks come before a new one of that period: those of a lesser period, and those of the same.
fn spot_of(tasks: &[Task], period: Ticks) -> usize
    requires { rising (rows tasks.now) ≡ true }
    ensures { result ≡ spot period (rows tasks.now) }
{
    tasks.partition_point(|task| task.period <= period)
}

// The entry as a task, unless its lengths and its resource do not fit together.
fn fit(entry: Entry, resource: Option<usize>) -> Result<Task, LineFault>
    ensures value { rowed result ≡ fitted (entered entry) resource }
    ensures kept { IfOk result (λ t. (spelled t.name ≡ spelled entry.name) × (t.resource ≡ resource)) }
{
    if resource.is_some() != (entry.critical > 0) {
        return Err(LineFault::Unmatched);
    }
    let total = u64::from(entry.before) + u64::from(entry.critical) + u64::from(entry.after);
    if total == 0 || total > u64::from(entry.period) {
        return Err(LineFault::Overfull);
    }
    let Entry {
        name,
        before,
        critical,
        after,
        period,
        resource: _,
    } = entry;
    Ok(Task {
        name,
        before,
        critical,
        after,
        period,
        resource,
    })
}

impl Table {
    // A table with no resource and no task.
    pub fn empty(heap: Global) -> Table
        ensures { listed result ≡ empty_table }
    {
        Table {
            resources: Vec::new(heap),
            tasks: Vec::new(heap),
        }
    }

    fn has_resource(&self, name: &Name) -> bool
        ensures { result ≡ has (spelled name.now) (listed self.now).resources }
    {
        self.resources.contains(name)
    }

    fn has_task(&self, name: &Name) -> bool
        ensures { result ≡ has (spelled name.now) (row_names (listed self.now).tasks) }
    {
        self.tasks.iter().any(|task| task.name == *name)
    }

    // One resource more, after the others.
    fn add_resource(&mut self, name: Name) -> Result<(), LineError>
        ensures { Told result (λ _. listed self.new) (with_resource (listed self.old) (spelled name)) }
    {
        if self.resources.len() >= MOST_RESOURCES {
            return Err(LineError::Fault(LineFault::Full));
        }
        if self.has_resource(&name) {
            return Err(LineError::Fault(LineFault::Twice));
        }
        self.resources.push(name)?;
        Ok(())
    }

    // The place of the resource of that name.
    fn place_of(&self, name: &Name) -> Option<usize>
        ensures { result ≡ place_of (spelled name.now) (listed self.now).resources }
    {
        self.resources.iter().position(|one| *one == *name)
    }

    // The place of the resource that an entry names.
    fn resource_of(&self, entry: &Entry) -> Result<Option<usize>, LineFault>
        ensures value { result ≡ resource_for (listed self.now).resources (option_map spelled entry.now.resource) }
        ensures known { IfOk result (λ g. inside (length (listed self.now).resources) g ≡ true) }
    {
        match &entry.resource {
            Some(name) => self.place_of(name).map(Some).ok_or(LineFault::Unknown),
            None => Ok(None),
        }
    }

    // The place of a new task's resource, unless the table has no room for the task or has one of its name.
    fn place_for(&self, entry: &Entry) -> Result<Option<usize>, LineFault>
        ensures value { result ≡ place_for (listed self.now) (entered entry.now) }
        ensures fits { IfOk result (λ g. (length (listed self.now).tasks < 64) × (has (spelled entry.now.name) (row_names (listed self.now).tasks) ≡ false) × (inside (length (listed self.now).resources) g ≡ true)) }
    {
        if self.tasks.len() >= MOST_TASKS {
            return Err(LineFault::Full);
        }
        if self.has_task(&entry.name) {
            return Err(LineFault::Twice);
        }
        self.resource_of(entry)
    }

    // One task more, in its place by period.
    fn insert(&mut self, task: Task) -> Result<(), AllocError>
        requires room { length (listed self.old).tasks < 64 }
        requires fresh { has (row_of task).name (row_names (listed self.old).tasks) ≡ false }
        requires known { inside (length (listed self.old).resources) task.resource ≡ true }
        ensures { OnOk result (listed self.new ≡ with_task (listed self.old) (row_of task)) }
    {
        let place = spot_of(self.tasks.as_slice(), task.period);
        self.tasks.insert(place, task)?;
        Ok(())
    }

    // One task more, unless the table refuses it.
    fn add_task(&mut self, entry: Entry) -> Result<(), LineError>
        ensures { Told result (λ _. listed self.new) (with_entry (listed self.old) (entered entry)) }
    {
        let resource = self.place_for(&entry)?;
        let task = fit(entry, resource)?;
        self.insert(task)?;
        Ok(())
    }

    // The table with what one line more declares. The two kinds of line differ in what they declare, and in where it goes.
    pub(super) fn read_line(
        &mut self,
        heap: Global,
        text: Text,
        line: &[u8],
    ) -> Result<(), LineError>
        ensures { Told result (λ _. listed self.new) (read_line text (listed self.old) line.now) }
    {
        match text {
            Text::Resources => self.add_resource(parse_resource(heap, line)?),
            Text::Tasks => self.add_task(parse_task(heap, line)?),
        }
    }
}
