ghost use Rattle.std.specs.Prelude.{◌≡◌};
ghost use Rattle.std.specs.Option.{option_map};
ghost use Rattle.names.specs.Spelled.{spelled};
ghost use Rattle.tables.specs.Listed.{listed};
ghost use Rattle.listings.specs.Denials.{denied_of, name_at, number_of, reason_of};

use analysis::{Lateness, WeighFault};
use names::Name;
use tables::{Notice, Table};

// A refusal as it is told.
#[derive(Clone, Copy)]
pub enum Denial<'a> {
    // Of a text, or of a line in it.
    Unread(Notice),
    // The number of processors is not 2 to 16.
    Box,
    // The seating is not lawful.
    Seat,
    // The late task by its name, and how it is late.
    Late(&'a Name, Lateness),
    // The row is too short for what is to be written into it.
    ShortRow,
    // There is no such task.
    NoTask,
}

impl Denial<'_> {
    // The number by which the refusal is known.
    pub fn number(&self) -> u8
        ensures { result ≡ number_of (reason_of self.now) }
    {
        match self {
            Denial::Unread(notice) => notice.number,
            Denial::Box => 10,
            Denial::Seat => 11,
            Denial::Late(_, _) => 12,
            Denial::ShortRow => 13,
            Denial::NoTask => 16,
        }
    }
}

// The name of the task of a rank; none past the last.
fn task_name(table: &Table, rank: usize) -> Option<&Name>
    ensures { option_map (λ name. spelled name.now) result ≡ name_at (listed table.now) rank }
{
    table.tasks().get(rank).map(|task| &task.name)
}

// The refusal that a fault of weighing a table amounts to; none where memory was wanting. A rank past the last task,
// which weighing never tells, has no name to be told by: none too.
pub fn denied<'a>(table: &'a Table, fault: WeighFault) -> Option<Denial<'a>>
    ensures { option_map reason_of result ≡ denied_of (listed table.now) fault }
{
    match fault {
        WeighFault::Box => Some(Denial::Box),
        WeighFault::Seat => Some(Denial::Seat),
        WeighFault::Late(rank, lateness) => {
            Some(Denial::Late(task_name(table, rank)?, lateness))
        }
        WeighFault::Memory => None,
    }
}
