ghost use Rattle.std.specs.Prelude.{◌≡◌, ◌<◌, length};
ghost use Rattle.tables.specs.Listed.{listed};
ghost use Rattle.analysis.specs.Told.{seats_of};
ghost use Rattle.analysis.specs.Weighing.{weigh_of};
ghost use Rattle.trials.specs.Trials.{Tried, seated_on, sum_of};

use crate::fault::TrialFault;
use crate::moved::{Moved, replace};
use analysis::{Seated, Seating};
use disciplines::Discipline;
use fields::Ticks;
use std::alloc::Global;
use tables::Table;
use weights::weigh_seats;

// The sum of the bounds of a task, its seat being changed while it is weighed. The seats come as slices, for of a vector
// whose slice comes back by a guard's drop the check knows no element.
fn weigh_changed<D: Discipline>(
    heap: Global,
    processors: u8,
    syncs: u8,
    table: &Table,
    sites: &[u8],
    homes: &mut [u8],
    discipline: &D,
    task: usize,
    processor: u8,
) -> Result<Ticks, TrialFault>
    requires { task < length (listed table.now).tasks }
    ensures answer { Tried result (sum_of task (weigh_of (D.may discipline.now) processors syncs (listed table.now) (seated_on (record { resources = sites.now; tasks = homes.old }) task processor))) }
    ensures same { homes.new ≡ homes.old }
{
    let old = replace(homes, task, processor);
    let guard = Moved {
        seats: homes,
        at: task,
        old,
    };
    let seated = Seated {
        table,
        sites,
        homes: guard.bytes(),
    };
    let weights = weigh_seats(heap, processors, syncs, seated, discipline)?;
    // The bounds keep a deadline, so their sum fits.
    Ok(weights[task].bounds.total() as Ticks)
}

// The same of a seating.
pub(crate) fn weigh_moved<D: Discipline>(
    heap: Global,
    processors: u8,
    table: &Table,
    seating: &mut Seating,
    discipline: &D,
    task: usize,
    processor: u8,
) -> Result<Ticks, TrialFault>
    requires { task < length (listed table.now).tasks }
    ensures answer { Tried result (sum_of task (weigh_of (D.may discipline.now) processors seating.old.syncs (listed table.now) (seated_on (seats_of seating.old) task processor))) }
    ensures same { (seating.new.syncs ≡ seating.old.syncs) × (seats_of seating.new ≡ seats_of seating.old) }
{
    weigh_changed(
        heap,
        processors,
        seating.syncs,
        table,
        &seating.resources,
        &mut seating.tasks,
        discipline,
        task,
        processor,
    )
}
