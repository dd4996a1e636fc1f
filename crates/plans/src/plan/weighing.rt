ghost use Rattle.std.specs.Prelude.{◌≡◌, IfOk};
ghost use Rattle.tables.specs.Listed.{listed};
ghost use Rattle.analysis.specs.Exact.{Exactness};
ghost use Rattle.analysis.specs.Told.{Told, seats_of};
ghost use Rattle.analysis.specs.Weighing.{weigh_of};
ghost use Rattle.plans.specs.Plans.{planned};
ghost use Rattle.plans.specs.Sound.{Sound};
ghost use Rattle.weights.specs.Weights.{planned_with};

use crate::plan::Plan;
use analysis::{Seated, Seating, WeighFault};
use disciplines::Discipline;
use std::alloc::{AllocError, Global};
use tables::Table;
use weights::{Weight, weigh_seats};

// The theorem of exactness, for a caller's contract; it does nothing.
fn weighing_is_exact<D: Discipline>(
    processors: u8,
    table: &Table,
    seating: &Seating,
    discipline: &D,
)
    ensures { Exactness (D.may discipline.now) processors seating.now.syncs (listed table.now) (seats_of seating.now) (weigh_of (D.may discipline.now) processors seating.now.syncs (listed table.now) (seats_of seating.now)) }
{}

// The plan that holds these, which were found to be sound.
fn fill(
    processors: u8,
    table: &Table,
    seating: &Seating,
    weights: Vec<Weight>,
) -> Result<Plan, AllocError>
    requires { Sound (planned_with processors seating.now.syncs (listed table.now) (seats_of seating.now) weights.items) }
    ensures { IfOk result (λ p. planned p ≡ planned_with processors seating.now.syncs (listed table.now) (seats_of seating.now) weights.items) }
{
    Ok(Plan {
        processors,
        seating: seating.clone()?,
        table: table.clone()?,
        weights,
    })
}

// Weighs a table through the slices of its seating, and fills a plan with what is found. Apart from `weigh`, so that a wrong
// `weigh` is refused for its own contract.
fn weigh_table<D: Discipline>(
    heap: Global,
    processors: u8,
    table: &Table,
    seating: &Seating,
    discipline: &D,
) -> Result<Plan, WeighFault>
    ensures { Told result planned (weigh_of (D.may discipline.now) processors seating.now.syncs (listed table.now) (seats_of seating.now)) }
{
    let seated = Seated {
        table,
        sites: &seating.resources,
        homes: &seating.tasks,
    };
    let weights = weigh_seats(heap, processors, seating.syncs, seated, discipline)?;
    Ok(fill(processors, table, seating, weights)?)
}

// The plan of a table that is seated in a box (weighing, trying and placing stand in three crates, so that what they take is
// no struct with them as its methods); else the first of these: the box is none, the seating is not lawful, a
// task is late.
pub fn weigh<D: Discipline>(
    heap: Global,
    processors: u8,
    table: &Table,
    seating: &Seating,
    discipline: &D,
) -> Result<Plan, WeighFault>
    ensures value { Told result planned (weigh_of (D.may discipline.now) processors seating.now.syncs (listed table.now) (seats_of seating.now)) }
    ensures exact { Exactness (D.may discipline.now) processors seating.now.syncs (listed table.now) (seats_of seating.now) (weigh_of (D.may discipline.now) processors seating.now.syncs (listed table.now) (seats_of seating.now)) }
{
    weighing_is_exact(processors, table, seating, discipline);
    weigh_table(heap, processors, table, seating, discipline)
}
