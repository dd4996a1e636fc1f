ghost use Rattle.std.specs.Prelude.{◌≡◌, ℕ, ◌+◌, ◌≤◌, length, IfOk, vec_len};
ghost use Rattle.bounds.specs.Interference.{interference};
ghost use Rattle.bounds.specs.Sums.{sum_to};
ghost use Rattle.tables.specs.Rowed.{row_of};
ghost use Rattle.analysis.specs.Needs.{need, once, taken_by, term_of};
ghost use Rattle.analysis.specs.Parts.{length_of, row_at};
ghost use Rattle.analysis.specs.Seated.{rows_in, seats_in};

use crate::part::PartKind;
use crate::seated::Seated;
use bounds::{Demand, Term};
use fields::Ticks;
use std::alloc::{AllocError, Global};
use tables::Task;

impl PartKind {
    // The length of a task's part of this kind.
    pub(crate) fn length_of(self, task: &Task) -> Ticks
        ensures { result ≡ length_of self (row_of task.now) }
    {
        match self {
            PartKind::Before => task.before,
            PartKind::Critical => task.critical,
            PartKind::After => task.after,
        }
    }

    // What a better-ranked task takes from a part of this kind in each of its periods.
    fn term_of(self, task: &Task) -> Term
        ensures { result ≡ term_of self task.now }
    {
        let length = match self {
            PartKind::Critical => task.critical,
            PartKind::Before | PartKind::After => task.before + task.after,
        };
        Term {
            period: u64::from(task.period),
            length: u64::from(length),
        }
    }
}

impl Seated<'_> {
    // The terms of the better-ranked tasks that share a processor with a part of this kind of the task `rank`.
    fn terms(self, heap: Global, kind: PartKind, rank: usize) -> Result<Vec<Term>, AllocError>
        requires { rank ≤ length (rows_in self) }
        ensures taken { IfOk result (λ terms. (t : ℕ) → interference terms.items t ≡ sum_to (taken_by (seats_in self.entry) (rows_in self.entry) kind rank t) rank) }
        ensures few { IfOk result (λ terms. vec_len terms ≤ rank) }
    {
        self.table.tasks()[..rank]
            .iter()
            .enumerate()
            .filter(|(better, _)| self.are_together(kind, *better, rank))
            .map(|(_, task)| kind.term_of(task))
            .collect(heap)
    }

    // What a part of the task `rank` takes itself: its length, a critical part its blocking term too.
    fn once(self, blocking: Ticks, kind: PartKind, rank: usize) -> u64
        ensures value { result ≡ once kind blocking (row_at (rows_in self.entry) rank) }
        ensures bound { result ≤ 10000000000 }
    {
        let own = u64::from(self.length(kind, rank));
        match kind {
            PartKind::Critical => u64::from(blocking) + own,
            PartKind::Before | PartKind::After => own,
        }
    }

    // The need of a part of the task `rank`.
    pub(crate) fn demand(
        self,
        heap: Global,
        blocking: Ticks,
        kind: PartKind,
        rank: usize,
    ) -> Result<Demand, AllocError>
        requires { rank ≤ length (rows_in self) }
        ensures { IfOk result (λ d. (t : ℕ) → d.base + interference d.terms.items t ≡ need (seats_in self.entry) (rows_in self.entry) blocking kind rank t) }
    {
        let terms = self.terms(heap, kind, rank)?;
        let base = self.once(blocking, kind, rank);
        Ok(Demand { base, terms })
    }
}
