ghost use Rattle.std.specs.Prelude.{◌≡◌, unwrap_or};
ghost use Rattle.analysis.specs.Blocking.{blocking, blocks, section};
ghost use Rattle.analysis.specs.Seated.{rows_in, seats_in};

use crate::part::PartKind;
use crate::seated::Seated;
use disciplines::{Discipline, Holding, Section};
use fields::Ticks;
use usage::ceiling;

impl Seated<'_> {
    // A task's critical section as a discipline sees it. What is cut to its limits fits a byte.
    fn section(self, rank: usize) -> Section
        ensures { result ≡ section (rows_in self.entry) rank }
    {
        let resource = self.resource(rank).unwrap_or(0);
        let ceiling = ceiling(self.table, resource).unwrap_or(0);
        Section {
            rank: rank.min(63) as u8,
            resource: resource.min(31) as u8,
            ceiling: ceiling.min(63) as u8,
        }
    }

    // Whether the section of the task `worse` ranks worse than that of the task `rank`, sits on its processor and may
    // hold against it.
    fn is_blocking<D: Discipline>(self, discipline: &D, rank: usize, worse: usize) -> bool
        ensures { result ≡ blocks (D.may discipline.now) (seats_in self.entry) (rows_in self.entry) rank worse }
    {
        rank < worse
            && self.are_together(PartKind::Critical, worse, rank)
            && discipline.hold(self.section(worse), self.section(rank))
    }

    // The greatest critical length among the tasks that are blocking; none if there are none.
    fn greatest_blocking<D: Discipline>(self, discipline: &D, rank: usize) -> Option<Ticks>
        ensures { unwrap_or result 0 ≡ blocking (D.may discipline.now) (seats_in self.entry) (rows_in self.entry) rank }
    {
        (0..self.table.tasks().len())
            .filter(|worse| self.is_blocking(discipline, rank, *worse))
            .map(|worse| self.length(PartKind::Critical, worse))
            .max()
    }

    // The blocking term of a task's critical section. It does not ask where tasks sit.
    pub fn blocking_term<D: Discipline>(self, discipline: &D, rank: usize) -> Ticks
        ensures { result ≡ blocking (D.may discipline.now) (seats_in self.entry) (rows_in self.entry) rank }
    {
        self.greatest_blocking(discipline, rank).unwrap_or(0)
    }
}
