ghost use Rattle.std.specs.Prelude.{◌≡◌, slice_index, option_copied};
ghost use Rattle.analysis.specs.Parts.{deadline, length_of, row_at};
ghost use Rattle.analysis.specs.Seated.{row_or_none, rows_in, seats_in};
ghost use Rattle.analysis.specs.Seats.{same_place, served_at, together};

use crate::part::PartKind;
use crate::seated::Seated;
use fields::Ticks;
use tables::Task;

// A seat by its place; the first processor past the last seat.
fn seat_at(seats: &[u8], place: usize) -> u8
    ensures { result ≡ slice_index seats.now place }
{
    seats.get(place).copied().unwrap_or(0)
}

// Whether there are two processors, and they are the same.
fn is_same_place(one: Option<u8>, other: Option<u8>) -> bool
    ensures { result ≡ same_place one other }
{
    one.is_some() && one == other
}

impl<'a> Seated<'a> {
    // The task of a rank; none past the last one.
    pub(crate) fn task(self, rank: usize) -> Option<&'a Task>
        ensures { row_or_none (option_copied result) ≡ row_at (rows_in self.entry) rank }
    {
        self.table.tasks().get(rank)
    }

    // The place of the resource that a task uses; none without one, or past the last task.
    pub(crate) fn resource(self, rank: usize) -> Option<usize>
        ensures { result ≡ (row_at (rows_in self.entry) rank).resource }
    {
        self.task(rank)?.resource
    }

    // The length of a task's part; 0 past the last task.
    pub(crate) fn length(self, kind: PartKind, rank: usize) -> Ticks
        ensures { result ≡ length_of kind (row_at (rows_in self.entry) rank) }
    {
        self.task(rank).map_or(0, |task| kind.length_of(task))
    }

    // The most ticks that a job of a task may take, today as many as its period; 1 past the last task.
    pub(crate) fn deadline(self, rank: usize) -> Ticks
        ensures { result ≡ deadline (row_at (rows_in self.entry) rank) }
    {
        self.task(rank).map_or(1, |task| task.period)
    }

    // The processor that serves a task's parts of a kind: that of its resource, or its own.
    fn processor(self, kind: PartKind, rank: usize) -> Option<u8>
        ensures { result ≡ served_at (seats_in self.entry) (rows_in self.entry) kind rank }
    {
        match kind {
            PartKind::Critical => self.resource(rank).map(|place| seat_at(self.sites, place)),
            PartKind::Before | PartKind::After => Some(seat_at(self.homes, rank)),
        }
    }

    // Whether two tasks have their parts of a kind served by one processor.
    pub(crate) fn are_together(self, kind: PartKind, one: usize, other: usize) -> bool
        ensures { result ≡ together (seats_in self.entry) (rows_in self.entry) kind one other }
    {
        is_same_place(self.processor(kind, one), self.processor(kind, other))
    }
}
