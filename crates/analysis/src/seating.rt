ghost use Rattle.std.specs.Prelude.{◌≡◌, ◌&&◌, length};
ghost use Rattle.analysis.specs.Seated.{listing_in, rows_in, seats_in};
ghost use Rattle.analysis.specs.Seats.{all_from, all_seated, is_box, is_from, lawful};

use crate::seated::Seated;

pub(crate) mod copying;

// A processor for each resource and for each task of a table, and how many of the box's last processors serve
// critical sections.
#[derive(Debug, Drop)]
pub struct Seating {
    pub syncs: u8,
    pub resources: Vec<u8>,
    pub tasks: Vec<u8>,
}

// Whether a box may have so many processors.
pub fn is_box(processors: u8) -> bool
    ensures { result ≡ is_box processors }
{
    (2..=16).contains(&processors)
}

// Whether a processor is one from `low` on and below `high`.
fn is_from(low: u8, high: u8, processor: u8) -> bool
    ensures { result ≡ is_from low high processor }
{
    (low..high).contains(&processor)
}

// Whether each seat is such a processor.
fn all_from(low: u8, high: u8, seats: &[u8]) -> bool
    ensures { result ≡ all_from low high seats.now }
{
    seats.iter().all(|seat| is_from(low, high, *seat))
}

// Whether there are as many seats as rows, each such a processor.
fn all_seated(low: u8, high: u8, rows: usize, seats: &[u8]) -> bool
    ensures { result ≡ all_seated low high rows seats.now }
{
    seats.len() == rows && all_from(low, high, seats)
}

impl Seated<'_> {
    // Whether each resource has one of the last processors and each task one of the others.
    fn are_seated(self, processors: u8, first_sync: u8) -> bool
        ensures { result ≡ (all_seated first_sync processors (length (listing_in self.entry).resources) (seats_in self.entry).resources && all_seated 0 first_sync (length (rows_in self.entry)) (seats_in self.entry).tasks) }
    {
        all_seated(
            first_sync,
            processors,
            self.table.resources().len(),
            self.sites,
        ) && all_seated(0, first_sync, self.table.tasks().len(), self.homes)
    }

    // Whether the seats, with the last `syncs` of the processors serving critical sections, are a lawful seating of
    // the table.
    pub fn is_lawful(self, processors: u8, syncs: u8) -> bool
        ensures { result ≡ lawful processors syncs (listing_in self.entry) (seats_in self.entry) }
    {
        is_box(processors) && syncs < processors && self.are_seated(processors, processors - syncs)
    }
}
