ghost use Rattle.std.specs.Prelude.{◌≡◌, ◌≤◌, IfOk};
ghost use Rattle.std.specs.Option.{option_map};
ghost use Rattle.names.specs.Spelled.{spelled};
ghost use Rattle.fields.specs.Fields.{shape};
ghost use Rattle.fields.specs.Forms.{resource_shapes, task_shapes};
ghost use Rattle.entries.specs.Entries.{entry_of, figure_at, guard_at, name_at, resource_line, task_line};
ghost use Rattle.entries.specs.Said.{entered, result_map};
ghost use Rattle.entries.specs.Told.{Told};

use crate::entry::Entry;
use crate::fault::{LineError, LineFault, locate};
use fields::{Field, LineForm, ResourceLine, TaskLine, Ticks};
use names::{Name, NameBuffer};
use std::alloc::Global;

fn name_at(number: usize, field: Field, room: NameBuffer) -> Result<Name, LineFault>
    ensures { result_map spelled result ≡ name_at number (shape field.entry) }
{
    Ok(locate(number, field.name(room))?)
}

fn figure_at(number: usize, field: Field, low: Ticks) -> Result<Ticks, LineFault>
    ensures value { result ≡ figure_at number low (shape field.entry) }
    ensures range { IfOk result (λ n. (low ≤ n) × (n ≤ 10000000)) }
{
    field.figure(low).ok_or(LineFault::Figure(number))
}

// The resource that a field names; a hyphen names none.
fn guard_at(number: usize, field: Field, room: NameBuffer) -> Result<Option<Name>, LineFault>
    ensures { result_map (option_map spelled) result ≡ guard_at number (shape field.entry) }
{
    match field {
        Field::Hyphen => Ok(None),
        _ => name_at(number, field, room).map(Some),
    }
}

// The fields of a task line as what they stand for, from the left to the first fault.
fn convert(line: &TaskLine, name: NameBuffer, resource: NameBuffer) -> Result<Entry, LineFault>
    ensures { result_map entered result ≡ entry_of (task_shapes line.now) }
{
    let name = name_at(2, line.name, name)?;
    let before = figure_at(3, line.before, 0)?;
    let critical = figure_at(4, line.critical, 0)?;
    let after = figure_at(5, line.after, 0)?;
    let period = figure_at(6, line.period, 1)?;
    let resource = guard_at(7, line.resource, resource)?;
    Ok(Entry {
        name,
        before,
        critical,
        after,
        period,
        resource,
    })
}

// The name that a resource line declares.
pub fn parse_resource(heap: Global, line: &[u8]) -> Result<Name, LineError>
    ensures { Told result spelled (resource_line line.now) }
{
    let fields = ResourceLine::split(heap, line)?.ok_or(LineFault::Form)?;
    let room = NameBuffer::new(heap)?;
    Ok(name_at(2, fields.name, room)?)
}

// What a task line declares.
pub fn parse_task(heap: Global, line: &[u8]) -> Result<Entry, LineError>
    ensures { Told result entered (task_line line.now) }
{
    let fields = TaskLine::split(heap, line)?.ok_or(LineFault::Form)?;
    let name = NameBuffer::new(heap)?;
    let resource = NameBuffer::new(heap)?;
    Ok(convert(&fields, name, resource)?)
}
