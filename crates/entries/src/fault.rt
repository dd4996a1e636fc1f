ghost use Rattle.std.specs.Prelude.{◌≡◌};
ghost use Rattle.entries.specs.Faults.{located};
ghost use Rattle.entries.specs.declared.fault.LineError.TheVariants.{Fault, Memory};
ghost use Rattle.entries.specs.declared.fault.LineFault.TheVariants.{Name};

use names::NameFault;
use std::alloc::{AllocError, AllocFailed};

// What is wrong with a line. A field is told by its number, counted from 1.
#[derive(Clone, Copy, Debug, PartialEq, Eq)]
pub enum LineFault {
    // The line is not in form.
    Form,
    // This field is no figure, or one out of its range.
    Figure(usize),
    // This field is no name.
    Name(usize, NameFault),
    // The table has no room for one more.
    Full,
    // The name stands earlier in the same text.
    Twice,
    // No resource has that name.
    Unknown,
    // A resource without a critical section, or a critical section without a resource.
    Unmatched,
    // The lengths add up to 0, or to more than the period.
    Overfull,
}

// Why a line gives nothing: its fault, or want of memory. Each layer has an error enum of its own.
#[derive(Clone, Copy, Debug, PartialEq, Eq)]
pub enum LineError {
    Fault(LineFault),
    Memory,
}

// A fault, and the place in what lies above where it was found.
#[derive(Clone, Copy, Debug)]
pub struct At<P, E> {
    pub place: P,
    pub fault: E,
}

// What was found at a place.
pub(crate) fn locate<P: Drop, T, E>(place: P, found: Result<T, E>) -> Result<T, At<P, E>>
    ensures { result ≡ located place found }
{
    found.map_err(|fault| At { place, fault })
}

// Faults are taken up by hand, since a clause names the one that a question mark makes, which a derived `From` does not tell.
impl From<At<usize, NameFault>> for LineFault {
    ghost from_gives = { λ e r. r ≡ Name e.place e.fault };

    fn from(e: At<usize, NameFault>) -> LineFault {
        LineFault::Name(e.place, e.fault)
    }
}

impl From<LineFault> for LineError {
    ghost from_gives = { λ e r. r ≡ Fault e };

    fn from(e: LineFault) -> LineError {
        LineError::Fault(e)
    }
}

impl From<AllocError> for LineError {
    ghost from_gives = { λ _ r. r ≡ Memory };

    fn from(_e: AllocError) -> LineError {
        LineError::Memory
    }
}

impl<T: Drop> From<AllocFailed<T>> for LineError {
    ghost from_gives = { λ _ r. r ≡ Memory };

    fn from(_e: AllocFailed<T>) -> LineError {
        LineError::Memory
    }
}
