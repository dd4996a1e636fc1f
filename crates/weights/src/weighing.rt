ghost use Rattle.std.specs.Prelude.{length};
ghost use Rattle.analysis.specs.Seated.{listing_in, rows_in, seats_in};
ghost use Rattle.analysis.specs.Told.{Told};
ghost use Rattle.analysis.specs.Weighing.{weigh_of};
ghost use Rattle.weights.specs.Weights.{bounds_of, planned_with, terms_of, weighed_to};

use crate::weight::Weight;
use analysis::{Seated, WeighFault, is_box};
use disciplines::Discipline;
use std::alloc::Global;

// The weights of all tasks, by rank, or the first task that is late. A match, since the closure of a `map_err` would take
// along the rank, which the loop's invariant names.
fn weigh_tasks<D: Discipline>(
    heap: Global,
    seated: Seated,
    discipline: &D,
) -> Result<Vec<Weight>, WeighFault>
    ensures { Told result (λ w. (terms_of w.items, bounds_of w.items)) (weighed_to (D.may discipline.now) (seats_in seated.entry) (rows_in seated.entry) (length (rows_in seated.entry))) }
{
    let mut weights = Vec::new(heap);
    for rank in 0..seated.table.tasks().len() {
        let blocking = seated.blocking_term(discipline, rank);
        match seated.judge(heap, blocking, rank)? {
            Ok(bounds) => weights.push(Weight { blocking, bounds })?,
            Err(lateness) => return Err(WeighFault::Late(rank, lateness)),
        }
    }
    Ok(weights)
}

// The weights of a table's tasks under a seating, by rank; else the first of these: the box is none, the seating is not
// lawful, a task is late.
pub fn weigh_seats<D: Discipline>(
    heap: Global,
    processors: u8,
    syncs: u8,
    seated: Seated,
    discipline: &D,
) -> Result<Vec<Weight>, WeighFault>
    ensures { Told result (λ w. planned_with processors syncs (listing_in seated.entry) (seats_in seated.entry) w.items) (weigh_of (D.may discipline.now) processors syncs (listing_in seated.entry) (seats_in seated.entry)) }
{
    if !is_box(processors) {
        return Err(WeighFault::Box);
    }
    if !seated.is_lawful(processors, syncs) {
        return Err(WeighFault::Seat);
    }
    weigh_tasks(heap, seated, discipline)
}
