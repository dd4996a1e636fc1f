ghost use Rattle.std.specs.Prelude.{◌≡◌, length, nat_lt};
ghost use Rattle.tables.specs.Listed.{listed};
ghost use Rattle.analysis.specs.Told.{seats_of};
ghost use Rattle.trials.specs.Trials.{Tried, tried_of};

use crate::fault::TrialFault;
use crate::weighing::weigh_moved;
use analysis::{Seating, WeighFault, is_box};
use disciplines::Discipline;
use fields::Ticks;
use std::alloc::Global;
use tables::Table;

// Whether a table has a task of that number.
fn is_task(table: &Table, task: usize) -> bool
    ensures { result ≡ nat_lt task (length (listed table.now).tasks) }
{
    task < table.tasks().len()
}

// The sum of the bounds of one task if it sat on that processor; else the first of these: the box is none, there is no
// task of that number, weighing refuses the seating. Afterwards its seat is what it was, whichever way the trial ends.
pub fn trial<D: Discipline>(
    heap: Global,
    processors: u8,
    table: &Table,
    seating: &mut Seating,
    discipline: &D,
    task: usize,
    processor: u8,
) -> Result<Ticks, TrialFault>
    ensures answer { Tried result (tried_of (D.may discipline.now) processors seating.old.syncs (listed table.now) (seats_of seating.old) task processor) }
    ensures same { (seating.new.syncs ≡ seating.old.syncs) × (seats_of seating.new ≡ seats_of seating.old) }
{
    if !is_box(processors) {
        return Err(TrialFault::Weigh(WeighFault::Box));
    }
    if !is_task(table, task) {
        return Err(TrialFault::NoTask);
    }
    weigh_moved(
        heap, processors, table, seating, discipline, task, processor,
    )
}
