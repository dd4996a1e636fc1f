ghost use Rattle.std.specs.Prelude.{◌≡◌, ◌++◌, OnOk, slice_index_or};
ghost use Rattle.names.specs.Spelled.{spelled};
ghost use Rattle.tables.specs.Rowed.{row_of};
ghost use Rattle.analysis.specs.Weighing.{no_bounds};
ghost use Rattle.plans.specs.Plans.{planned};
ghost use Rattle.writing.specs.Lines.{spaced_on};
ghost use Rattle.listings.specs.Listings.{at_text, ats_text, bound_fields, head_text, plan_text, run_text, runs_text};

use analysis::Bounds;
use names::Name;
use plans::Plan;
use std::alloc::AllocError;
use tables::Task;
use writing::{end_line, push_field};

// Writes the first line of a plan.
fn push_head(out: &mut Vec<u8>, plan: &Plan) -> Result<(), AllocError>
    ensures { OnOk result (out.new.items ≡ out.old.items ++ head_text (planned plan.now).processors (planned plan.now).syncs) }
{
    out.extend_from_slice(b"plan")?;
    push_field(out, plan.processors())?;
    push_field(out, plan.syncs())?;
    end_line(out)
}

// Writes the line of the resource at a place.
fn push_at(out: &mut Vec<u8>, plan: &Plan, place: usize, name: &Name) -> Result<(), AllocError>
    ensures { OnOk result (out.new.items ≡ out.old.items ++ at_text (planned plan.now).seats.resources place (spelled name.now)) }
{
    let site = plan.sites().get(place).copied().unwrap_or(0);
    out.extend_from_slice(b"at")?;
    push_field(out, name)?;
    push_field(out, site)?;
    end_line(out)
}

// The bounds of the task of a rank; zeros past the last.
fn bounds_at(plan: &Plan, rank: usize) -> Bounds
    ensures { result ≡ slice_index_or (planned plan.now).bounds rank no_bounds }
{
    plan.weights()
        .get(rank)
        .map(|weight| weight.bounds)
        .unwrap_or_default()
}

// Writes the bounds of a task's parts, and their sum, as fields.
fn push_bounds(out: &mut Vec<u8>, bounds: Bounds) -> Result<(), AllocError>
    ensures { OnOk result (out.new.items ≡ out.old.items ++ spaced_on (bound_fields bounds)) }
{
    push_field(out, bounds.before)?;
    push_field(out, bounds.critical)?;
    push_field(out, bounds.after)?;
    push_field(out, bounds.total())
}

// Writes the line of the task of a rank.
fn push_run(out: &mut Vec<u8>, plan: &Plan, rank: usize, task: &Task) -> Result<(), AllocError>
    ensures { OnOk result (out.new.items ≡ out.old.items ++ run_text (planned plan.now).seats.tasks (planned plan.now).bounds rank (row_of task.now)) }
{
    let home = plan.homes().get(rank).copied().unwrap_or(0);
    out.extend_from_slice(b"run")?;
    push_field(out, &task.name)?;
    push_field(out, home)?;
    push_bounds(out, bounds_at(plan, rank))?;
    end_line(out)
}

// Writes the lines of the resources. A loop, since of a text that a closure changes a proof knows nothing.
fn push_ats(out: &mut Vec<u8>, plan: &Plan) -> Result<(), AllocError>
    ensures { OnOk result (out.new.items ≡ out.old.items ++ ats_text (planned plan.now).seats.resources (planned plan.now).table) }
{
    for (place, name) in plan.table().resources().iter().enumerate() {
        push_at(out, plan, place, name)?;
    }
    Ok(())
}

// Writes the lines of the tasks. A loop for the same reason.
fn push_runs(out: &mut Vec<u8>, plan: &Plan) -> Result<(), AllocError>
    ensures { OnOk result (out.new.items ≡ out.old.items ++ runs_text (planned plan.now).seats.tasks (planned plan.now).bounds (planned plan.now).table) }
{
    for (rank, task) in plan.table().tasks().iter().enumerate() {
        push_run(out, plan, rank, task)?;
    }
    Ok(())
}

// Writes the lines of a plan: its first line, its resources, its tasks.
pub(crate) fn push_plan(out: &mut Vec<u8>, plan: &Plan) -> Result<(), AllocError>
    ensures { OnOk result (out.new.items ≡ out.old.items ++ plan_text (planned plan.now)) }
{
    push_head(out, plan)?;
    push_ats(out, plan)?;
    push_runs(out, plan)
}
