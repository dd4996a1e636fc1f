ghost use Rattle.std.specs.Prelude.{◌≡◌, ◌∷◌, ◌++◌, IfOk, OnOk};
ghost use Rattle.std.specs.Option.{option_map};
ghost use Rattle.names.specs.Names.{encoded};
ghost use Rattle.names.specs.Spelled.{spelled};
ghost use Rattle.writing.specs.Lines.{or_dash, spaced_on};
ghost use Rattle.tables.specs.Listed.{listed};
ghost use Rattle.tables.specs.Rowed.{row_of};
ghost use Rattle.reports.specs.Reports.{figures_of, guard_of, resource_text, resources_text, table_text, task_text, tasks_text};

use names::Name;
use std::alloc::{AllocError, Global};
use tables::{Table, Task};
use usage::{ceiling, load, users};
use writing::{end_line, push_field};

// The name of the resource at a place; none without a place, or where it is outside.
fn guard(table: &Table, place: Option<usize>) -> Option<&Name>
    ensures { option_map (λ n. spelled n.now) result ≡ guard_of (listed table.now).resources place }
{
    table.resources().get(place?)
}

// Writes the name of the resource that a task uses as a field; a hyphen for none.
fn push_guard(out: &mut Vec<u8>, table: &Table, place: Option<usize>) -> Result<(), AllocError>
    ensures { OnOk result (out.new.items ≡ out.old.items ++ 32 ∷ or_dash encoded (guard_of (listed table.now).resources place)) }
{
    push_field(out, guard(table, place))
}

// Writes the line of the resource at a place.
fn push_resource(
    out: &mut Vec<u8>,
    table: &Table,
    place: usize,
    name: &Name,
) -> Result<(), AllocError>
    ensures { OnOk result (out.new.items ≡ out.old.items ++ resource_text (listed table.now).tasks place (spelled name.now)) }
{
    out.extend_from_slice(b"resource")?;
    push_field(out, name)?;
    push_field(out, ceiling(table, place))?;
    push_field(out, users(table, place))?;
    push_field(out, load(table, place))?;
    end_line(out)
}

// Writes the figures of a task as fields: its ticks before, in and after its critical section, and its period.
fn push_figures(out: &mut Vec<u8>, task: &Task) -> Result<(), AllocError>
    ensures { OnOk result (out.new.items ≡ out.old.items ++ spaced_on (figures_of (row_of task.now))) }
{
    push_field(out, task.before)?;
    push_field(out, task.critical)?;
    push_field(out, task.after)?;
    push_field(out, task.period)
}

// Writes the line of a task.
fn push_task(out: &mut Vec<u8>, table: &Table, task: &Task) -> Result<(), AllocError>
    ensures { OnOk result (out.new.items ≡ out.old.items ++ task_text (listed table.now).resources (row_of task.now)) }
{
    out.extend_from_slice(b"task")?;
    push_field(out, &task.name)?;
    push_figures(out, task)?;
    push_guard(out, table, task.resource)?;
    end_line(out)
}

// Writes the lines of the resources. A loop, since of a text that a closure changes a proof knows nothing.
fn push_resources(out: &mut Vec<u8>, table: &Table) -> Result<(), AllocError>
    ensures { OnOk result (out.new.items ≡ out.old.items ++ resources_text (listed table.now)) }
{
    for (place, name) in table.resources().iter().enumerate() {
        push_resource(out, table, place, name)?;
    }
    Ok(())
}

// Writes the lines of the tasks. A loop for the same reason.
fn push_tasks(out: &mut Vec<u8>, table: &Table) -> Result<(), AllocError>
    ensures { OnOk result (out.new.items ≡ out.old.items ++ tasks_text (listed table.now)) }
{
    for task in table.tasks() {
        push_task(out, table, task)?;
    }
    Ok(())
}

// The lines of a table: its resources, then its tasks.
pub fn table_text(heap: Global, table: &Table) -> Result<Vec<u8>, AllocError>
    ensures { IfOk result (λ text. text.items ≡ table_text (listed table.now)) }
{
    let mut out = Vec::new(heap);
    push_resources(&mut out, table)?;
    push_tasks(&mut out, table)?;
    Ok(out)
}
