ghost use Rattle.std.specs.Prelude.{◌≡◌};
ghost use Rattle.tables.specs.Refusals.{fault_at, notice_of, number_of, refusal_of, refused_at};
ghost use Rattle.tables.specs.declared.fault.ReadFault.TheVariants.{Memory, Refused};

use entries::{At, LineError, LineFault};
use std::alloc::AllocError;
use texts::{Place, Text};

// Why two texts declare no table.
#[derive(Clone, Copy, Debug, PartialEq, Eq)]
pub enum Refusal {
    // The text is too long.
    Long(Text),
    // The line of this number in this text is at fault.
    Line(Text, usize, LineFault),
}

// Why no table was read. Each layer has an error enum of its own, and takes faults up by hand: a
// clause names the one that a question mark makes, which a derived `From` does not tell.
#[derive(Clone, Copy, Debug, PartialEq, Eq)]
pub enum ReadFault {
    // The texts declare none.
    Refused(Refusal),
    // Memory was wanting.
    Memory,
}

// A refusal as it is told: its number, and the place of what is refused.
#[derive(Clone, Copy, Debug, PartialEq, Eq)]
pub struct Notice {
    pub number: u8,
    pub place: Place,
}

// A line, by its text and its number.
#[derive(Clone, Copy, Debug)]
pub struct LinePlace {
    pub text: Text,
    pub line: usize,
}

impl From<Refusal> for ReadFault {
    ghost from_gives = { λ e r. r ≡ Refused e };

    fn from(e: Refusal) -> ReadFault {
        ReadFault::Refused(e)
    }
}

impl From<At<LinePlace, LineError>> for ReadFault {
    ghost from_gives = { λ e r. r ≡ fault_at e.place e.fault };

    fn from(e: At<LinePlace, LineError>) -> ReadFault {
        match e.fault {
            LineError::Fault(fault) => {
                ReadFault::Refused(Refusal::Line(e.place.text, e.place.line, fault))
            }
            LineError::Memory => ReadFault::Memory,
        }
    }
}

impl From<AllocError> for ReadFault {
    ghost from_gives = { λ _ r. r ≡ Memory };

    fn from(_e: AllocError) -> ReadFault {
        ReadFault::Memory
    }
}

impl Refusal {
    // The number of the refusal.
    pub fn number(&self) -> u8
        ensures { result ≡ number_of self.now }
    {
        match self {
            Refusal::Long(_) => 1,
            Refusal::Line(_, _, LineFault::Form) => 2,
            Refusal::Line(_, _, LineFault::Figure(_)) => 3,
            Refusal::Line(_, _, LineFault::Name(_, _)) => 4,
            Refusal::Line(_, _, LineFault::Twice) => 5,
            Refusal::Line(_, _, LineFault::Unknown) => 6,
            Refusal::Line(_, _, LineFault::Full) => 7,
            Refusal::Line(_, _, LineFault::Unmatched) => 8,
            Refusal::Line(_, _, LineFault::Overfull) => 9,
        }
    }

    // The place of what is refused.
    pub fn place(&self) -> Place
        ensures { result ≡ refused_at self.now }
    {
        let (text, line, field, byte) = match *self {
            Refusal::Long(text) => (text, 0, 0, 0),
            Refusal::Line(text, line, LineFault::Figure(field)) => (text, line, field, 0),
            Refusal::Line(text, line, LineFault::Name(field, fault)) => {
                (text, line, field, fault.byte())
            }
            Refusal::Line(text, line, _) => (text, line, 0, 0),
        };
        Place {
            text,
            line,
            field,
            byte,
        }
    }

    // What is told of the refusal.
    pub fn notice(&self) -> Notice
        ensures { result ≡ notice_of self.now }
    {
        Notice {
            number: self.number(),
            place: self.place(),
        }
    }
}

impl ReadFault {
    // The refusal that a fault amounts to; want of memory refuses nothing.
    pub fn refusal(&self) -> Option<Refusal>
        ensures { result ≡ refusal_of self.now }
    {
        match self {
            ReadFault::Refused(refusal) => Some(*refusal),
            ReadFault::Memory => None,
        }
    }
}
