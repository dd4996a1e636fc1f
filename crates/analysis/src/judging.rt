ghost use Rattle.std.specs.Prelude.{◌≡◌, ◌+◌, ◌<◌, length, IfOk};
ghost use Rattle.bounds.specs.Interference.{interference};
ghost use Rattle.bounds.specs.Least.{least};
ghost use Rattle.analysis.specs.Judging.{bound, fitting, judged, judged_with};
ghost use Rattle.analysis.specs.Needs.{need};
ghost use Rattle.analysis.specs.Parts.{deadline, row_at};
ghost use Rattle.analysis.specs.Seated.{rows_in, seats_in};

use crate::lateness::Lateness;
use crate::part::{Bounds, PartKind};
use crate::seated::Seated;
use bounds::{Demand, least_bound};
use fields::Ticks;
use std::alloc::{AllocError, Global};

// The least number of ticks, from 1 to the limit, that is no less than the demand within it. It is at most the limit, so
// the cast loses nothing.
fn least_ticks(demand: &Demand, limit: Ticks) -> Option<Ticks>
    ensures { result ≡ least (λ t. demand.now.base + interference demand.now.terms.items t) limit }
{
    least_bound(demand, u64::from(limit)).map(|ticks| ticks as Ticks)
}

impl Seated<'_> {
    // The least number of ticks, from 1 to the deadline, that is no less than what the part needs within it.
    fn search_bound(
        self,
        heap: Global,
        blocking: Ticks,
        kind: PartKind,
        rank: usize,
    ) -> Result<Option<Ticks>, AllocError>
        requires { rank < length (rows_in self) }
        ensures { IfOk result (λ o. o ≡ least (need (seats_in self.entry) (rows_in self.entry) blocking kind rank) (deadline (row_at (rows_in self.entry) rank))) }
    {
        let demand = self.demand(heap, blocking, kind, rank)?;
        Ok(least_ticks(&demand, self.deadline(rank)))
    }

    // The least number of ticks that meets the inequality of a part of the task `rank`: 0 where the task has no such
    // part, and past the last task.
    pub fn part_bound(
        self,
        heap: Global,
        blocking: Ticks,
        kind: PartKind,
        rank: usize,
    ) -> Result<Option<Ticks>, AllocError>
        ensures { IfOk result (λ o. o ≡ bound (seats_in self.entry) (rows_in self.entry) blocking kind rank) }
    {
        if self.length(kind, rank) == 0 {
            return Ok(Some(0));
        }
        self.search_bound(heap, blocking, kind, rank)
    }

    // Three bounds, where they add up to at most the deadline of the task `rank`.
    fn fit(self, bounds: Bounds, rank: usize) -> Result<Bounds, Lateness>
        ensures { result ≡ fitting (seats_in self.entry) (rows_in self.entry) 0 rank bounds }
    {
        if bounds.total() > u64::from(self.deadline(rank)) {
            return Err(Lateness::Whole);
        }
        Ok(bounds)
    }

    // The judgement of the task `rank`, whose critical part has this bound, or none. Neither of its other parts asks
    // for a blocking term. A result in a result: who tries seats asks whether the inner one is good, and goes on.
    pub fn judge_with(
        self,
        heap: Global,
        critical: Option<Ticks>,
        rank: usize,
    ) -> Result<Result<Bounds, Lateness>, AllocError>
        ensures { IfOk result (λ a. a ≡ judged_with (seats_in self.entry) (rows_in self.entry) 0 critical rank) }
    {
        let Some(before) = self.part_bound(heap, 0, PartKind::Before, rank)? else {
            return Ok(Err(Lateness::NoBound(PartKind::Before)));
        };
        let Some(critical) = critical else {
            return Ok(Err(Lateness::NoBound(PartKind::Critical)));
        };
        let Some(after) = self.part_bound(heap, 0, PartKind::After, rank)? else {
            return Ok(Err(Lateness::NoBound(PartKind::After)));
        };
        let bounds = Bounds {
            before,
            critical,
            after,
        };
        Ok(self.fit(bounds, rank))
    }

    // The three bounds of the task `rank` under its blocking term; else its first part that has none, or the whole
    // where they add up to too much. A result in a result, as above.
    pub fn judge(
        self,
        heap: Global,
        blocking: Ticks,
        rank: usize,
    ) -> Result<Result<Bounds, Lateness>, AllocError>
        ensures { IfOk result (λ a. a ≡ judged (seats_in self.entry) (rows_in self.entry) blocking rank) }
    {
        let critical = self.part_bound(heap, blocking, PartKind::Critical, rank)?;
        self.judge_with(heap, critical, rank)
    }
}
