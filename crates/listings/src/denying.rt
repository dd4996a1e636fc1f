ghost use Rattle.std.specs.Prelude.{◌≡◌, ◌++◌, OnOk};
ghost use Rattle.writing.specs.Lines.{spaced_on};
ghost use Rattle.listings.specs.Denials.{reason_of};
ghost use Rattle.listings.specs.Listings.{denial_text, details_of, lateness_word};

use crate::denial::Denial;
use analysis::{Lateness, PartKind};
use std::alloc::AllocError;
use writing::{end_line, push_field};

// How a task is late, in one word. It is no `Writable`: the trait and the type are both of other crates.
fn lateness_word(lateness: Lateness) -> &'static [u8]
    ensures { result.now ≡ lateness_word lateness }
{
    match lateness {
        Lateness::NoBound(PartKind::Before) => b"before",
        Lateness::NoBound(PartKind::Critical) => b"critical",
        Lateness::NoBound(PartKind::After) => b"after",
        Lateness::Whole => b"whole",
    }
}

// Writes what a refusal tells after its number.
fn push_details(out: &mut Vec<u8>, denial: &Denial<'_>) -> Result<(), AllocError>
    ensures { OnOk result (out.new.items ≡ out.old.items ++ spaced_on (details_of (reason_of denial.now))) }
{
    match denial {
        Denial::Unread(notice) => {
            push_field(out, notice.place.text)?;
            push_field(out, notice.place.line)
        }
        Denial::Late(name, lateness) => {
            push_field(out, *name)?;
            push_field(out, lateness_word(*lateness))
        }
        Denial::Box | Denial::Seat | Denial::ShortRow | Denial::NoTask => Ok(()),
    }
}

// Writes the line of a refusal.
pub(crate) fn push_denial(out: &mut Vec<u8>, denial: &Denial<'_>) -> Result<(), AllocError>
    ensures { OnOk result (out.new.items ≡ out.old.items ++ denial_text (reason_of denial.now)) }
{
    out.extend_from_slice(b"refused")?;
    push_field(out, denial.number())?;
    push_details(out, denial)?;
    end_line(out)
}
