ghost use Rattle.std.specs.Prelude.{◌≡◌, true};
ghost use Rattle.tables.specs.Listed.{listed};
ghost use Rattle.analysis.specs.Seats.{is_box};
ghost use Rattle.analysis.specs.Told.{Told};
ghost use Rattle.attempts.specs.Accepted.{Accepted};
ghost use Rattle.attempts.specs.Placing.{fewest, find_seats, most, place_of};
ghost use Rattle.plans.specs.Plans.{planned};
ghost use Rattle.placement.specs.Seatings.{found_in, late_with};

use crate::seats::{critical_bound, sit};
use analysis::{Lateness, PartKind, Seated, Seating, WeighFault, is_box};
use disciplines::Discipline;
use fields::Ticks;
use plans::{Plan, weigh};
use spreading::spread;
use std::alloc::Global;
use tables::Table;

// How a task is late that no processor takes, its critical part having this bound, or none.
fn lateness_with(critical: Option<Ticks>) -> Lateness
    ensures { result ≡ late_with critical }
{
    critical.map_or(Lateness::NoBound(PartKind::Critical), |_| Lateness::Whole)
}

// The fewest synchronisation processors to try: one, or none without a resource. Either fits a byte, as does what follows.
fn fewest_syncs(table: &Table) -> u8
    ensures { result ≡ fewest (listed table.now) }
{
    table.resources().len().min(1) as u8
}

// The most to try: one for each resource, and a processor is left for tasks.
fn most_syncs(processors: u8, table: &Table) -> u8
    requires { is_box processors ≡ true }
    ensures { result ≡ most processors (listed table.now) }
{
    table.resources().len().min(usize::from(processors - 1)) as u8
}

// The seating that is found for a table: the first attempt that seats every task, else the last one's failure. By a rule of
// this project the loops over attempts, tasks and processors are labelled, and the attempts' result comes by `break`.
fn find_seats<D: Discipline>(
    heap: Global,
    processors: u8,
    table: &Table,
    discipline: &D,
) -> Result<Seating, WeighFault>
    requires { is_box processors ≡ true }
    ensures { Told result found_in (find_seats (D.may discipline.now) processors (listed table.now)) }
{
    let most = most_syncs(processors, table);
    let mut syncs = fewest_syncs(table);
    'attempts: loop {
        let sites = spread(heap, table, processors, syncs)?;
        let seated = Seated {
            table,
            sites: &sites,
            homes: &[],
        };
        let mut homes = Vec::new(heap);
        'tasks: for rank in 0..table.tasks().len() {
            let critical = critical_bound(heap, seated, discipline, rank)?;
            'processors: for processor in 0..processors - syncs {
                if sit(heap, seated, &mut homes, critical, processor)? {
                    continue 'tasks;
                }
            }
            if syncs == most {
                break 'attempts Err(WeighFault::Late(rank, lateness_with(critical)));
            }
            syncs += 1;
            continue 'attempts;
        }
        break 'attempts Ok(Seating {
            syncs,
            resources: sites,
            tasks: homes,
        });
    }
}

// The theorem that weighing accepts what is found, for a caller's contract; it does nothing.
fn what_is_found_is_accepted<D: Discipline>(processors: u8, table: &Table, discipline: &D)
    ensures { Accepted (D.may discipline.now) processors (listed table.now) }
{}

// The plan of the seating that is found for a table in a box.
pub fn place<D: Discipline>(
    heap: Global,
    processors: u8,
    table: &Table,
    discipline: &D,
) -> Result<Plan, WeighFault>
    ensures value { Told result planned (place_of (D.may discipline.now) processors (listed table.now)) }
    ensures accepted { Accepted (D.may discipline.now) processors (listed table.now) }
{
    what_is_found_is_accepted(processors, table, discipline);
    if !is_box(processors) {
        return Err(WeighFault::Box);
    }
    let seating = find_seats(heap, processors, table, discipline)?;
    weigh(heap, processors, table, &seating, discipline)
}
