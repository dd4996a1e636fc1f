ghost use Rattle.std.specs.Prelude.{◌≡◌, ℕ, ◌-◌, ◌<◌, ◌≤◌, Bool, is_some, length, map, IfOk};
ghost use Rattle.spreading.specs.Charted.{Ready, charted};
ghost use Rattle.spreading.specs.Choosing.{AnswersAs};
ghost use Rattle.spreading.specs.Spreading.{first_best, goes_first, heaviest, lightest, seat_next, unseated};

use std::alloc::{AllocError, Global};

// The seats while rounds go on. The loads of the resources are lent for all rounds, so they stand apart.
#[derive(Drop)]
pub(crate) struct Chart {
    // The number of the first synchronisation processor.
    first: u8,
    // The processor of each resource; none before a round has seated it.
    seats: Vec<Option<u8>>,
    // The load of each synchronisation processor. Loads have 64 bits, so that no sum of them overflows.
    sums: Vec<u128>,
}

// The first of the places below `count` that no other beats; 0 where there is none. A loop, since a fold's proof does not
// find that both places asked about are below `count`, and `min_by_key` has no key for what beats what.
fn first_best<F: Fn(usize, usize) -> bool>(count: usize, beats: F) -> usize
    requires { (one other : ℕ) → one < count → other < count → F.pre beats one other }
    ensures value { (test : ℕ → ℕ → Bool) → AnswersAs test count (F.post beats) → result ≡ first_best test count }
    ensures within { result ≤ count }
    ensures some { 0 < count → result < count }
{
    let mut best = 0;
    for place in 0..count {
        if beats(place, best) {
            best = place;
        }
    }
    best
}

// Whether the resource at one place is to be seated before the one at another.
fn goes_first(loads: &[u64], seats: &[Option<u8>], one: usize, other: usize) -> bool
    requires { (one < length loads.now) × ((other < length loads.now) × (length seats.now ≡ length loads.now)) }
    ensures { result ≡ goes_first loads.now (map is_some seats.now) one other }
{
    seats[one].is_none() && (seats[other].is_some() || loads[other] < loads[one])
}

// The heaviest resource without a seat; the earlier place on ties.
fn heaviest(loads: &[u64], seats: &[Option<u8>]) -> usize
    requires { (0 < length loads.now) × (length seats.now ≡ length loads.now) }
    ensures value { result ≡ heaviest loads.now (map is_some seats.now) }
    ensures within { result < length loads.now }
{
    first_best(
        loads.len(),
        |one, other| goes_first(loads, seats, one, other),
    )
}

// The synchronisation processor with the least load so far; the lowest number on ties, and 0 where there is none.
fn lightest(sums: &[u128]) -> usize
    ensures value { result ≡ lightest sums.now }
    ensures within { result ≤ length sums.now }
{
    first_best(sums.len(), |one, other| sums[one] < sums[other])
}

impl Chart {
    // The chart before the first round, where the last `syncs` processors serve critical sections.
    pub(crate) fn blank(
        heap: Global,
        resources: usize,
        processors: u8,
        syncs: u8,
    ) -> Result<Chart, AllocError>
        ensures first { IfOk result (λ chart. chart.first ≡ processors - syncs) }
        ensures chart { IfOk result (λ chart. charted chart ≡ unseated resources (processors - syncs) syncs) }
    {
        Ok(Chart {
            first: processors.saturating_sub(syncs),
            seats: vec![in heap; None; resources]?,
            sums: vec![in heap; 0; usize::from(syncs)]?,
        })
    }

    // One round: the heaviest resource without a seat goes to the lightest synchronisation processor. Its number fits a byte.
    pub(crate) fn seat_next(&mut self, loads: &[u64])
        requires { Ready loads.now self.old.first (charted self.old) }
        ensures first { self.new.first ≡ self.old.first }
        ensures chart { charted self.new ≡ seat_next loads.now self.old.first (charted self.old) }
    {
        let resource = heaviest(loads, self.seats.as_slice());
        let processor = lightest(self.sums.as_slice());
        self.seats[resource] = Some(self.first + processor as u8);
        if let Some(sum) = self.sums.get_mut(processor) {
            *sum += u128::from(loads[resource]);
        }
    }

    // The processor of each resource; the first one for a resource that no round has seated.
    pub(crate) fn all_seats(&self, heap: Global) -> Result<Vec<u8>, AllocError>
        ensures { IfOk result (λ seats. seats.items ≡ (charted self.now).seats) }
    {
        self.seats
            .iter()
            .map(|seat| seat.unwrap_or(self.first))
            .collect(heap)
    }
}
