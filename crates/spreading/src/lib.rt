// Seats for the resources of a table on the synchronisation processors of a box.
#![tactic(auto)]

ghost use Rattle.std.specs.Prelude.{◌≡◌, IfOk};
ghost use Rattle.tables.specs.Listed.{listed};
ghost use Rattle.spreading.specs.Placed.{AllPlaced};
ghost use Rattle.spreading.specs.Spreading.{loads, seats_for, spread_of};

use chart::Chart;
use std::alloc::{AllocError, Global};
use tables::Table;
use usage::load;

mod chart;

// The load of each resource, by place.
fn loads(heap: Global, table: &Table) -> Result<Vec<u64>, AllocError>
    ensures { IfOk result (λ all. all.items ≡ loads (listed table.now)) }
{
    (0..table.resources().len())
        .map(|place| load(table, place))
        .collect(heap)
}

// The seats of resources with these loads, after one round for each.
fn seat_all(heap: Global, loads: &[u64], processors: u8, syncs: u8) -> Result<Vec<u8>, AllocError>
    ensures value { IfOk result (λ seats. seats.items ≡ seats_for loads.now processors syncs) }
    ensures placed { IfOk result (λ seats. AllPlaced loads.now processors syncs seats.items) }
{
    let mut chart = Chart::blank(heap, loads.len(), processors, syncs)?;
    for _ in loads {
        chart.seat_next(loads);
    }
    chart.all_seats(heap)
}

// The processor of each resource, by place: the heaviest resource first, each goes to the lightest of the
// synchronisation processors, which are the last `syncs` of the box's. No resource is left out.
pub fn spread(heap: Global, table: &Table, processors: u8, syncs: u8) -> Result<Vec<u8>, AllocError>
    ensures value { IfOk result (λ seats. seats.items ≡ spread_of (listed table.now) processors syncs) }
    ensures placed { IfOk result (λ seats. AllPlaced (loads (listed table.now)) processors syncs seats.items) }
{
    let loads = loads(heap, table)?;
    seat_all(heap, loads.as_slice(), processors, syncs)
}
