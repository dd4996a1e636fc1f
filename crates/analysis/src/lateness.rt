ghost use Rattle.std.specs.Prelude.{◌≡◌};
ghost use Rattle.analysis.specs.declared.lateness.WeighFault.TheVariants.{Memory};

use crate::part::PartKind;
use std::alloc::{AllocError, AllocFailed};

// How a task is late: its first part that has no bound, or all three have one and their sum passes the deadline.
#[derive(Clone, Copy, Debug)]
pub enum Lateness {
    NoBound(PartKind),
    Whole,
}

// Why there is no plan. Each layer has an error enum of its own, and takes faults up by hand: a
// clause names the one that a question mark makes, which a derived `From` does not tell.
#[derive(Clone, Copy, Debug)]
pub enum WeighFault {
    // The number of processors is not 2 to 16.
    Box,
    // The seating is not lawful.
    Seat,
    // The first late task, by its rank, and how it is late.
    Late(usize, Lateness),
    // Memory was wanting.
    Memory,
}

impl From<AllocError> for WeighFault {
    ghost from_gives = { λ _ r. r ≡ Memory };

    fn from(_e: AllocError) -> WeighFault {
        WeighFault::Memory
    }
}

impl<T: Drop> From<AllocFailed<T>> for WeighFault {
    ghost from_gives = { λ _ r. r ≡ Memory };

    fn from(_e: AllocFailed<T>) -> WeighFault {
        WeighFault::Memory
    }
}
