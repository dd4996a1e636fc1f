ghost use Rattle.std.specs.Prelude.{◌≡◌, length, IfOk};
ghost use Rattle.listings.specs.Lent.{Told, fitted, row_after};
ghost use Rattle.listings.specs.Listings.{answer_text};

use crate::denial::Denial;
use crate::denying::push_denial;
use crate::fault::ListingFault;
use crate::planning::push_plan;
use plans::Plan;
use std::alloc::{AllocError, Global};

// The lines of an answer: a plan, or why there is none.
pub fn text(heap: Global, answer: Result<&Plan, Denial<'_>>) -> Result<Vec<u8>, AllocError>
    ensures { IfOk result (λ lines. lines.items ≡ answer_text answer.entry) }
{
    let mut out = Vec::new(heap);
    match answer {
        Ok(plan) => push_plan(&mut out, plan)?,
        Err(denial) => push_denial(&mut out, &denial)?,
    }
    Ok(out)
}

// Writes a text to the front of a row, and answers its length; a row that is too short for it stays as it was.
// The front is written in place: of a row that `get_mut` has lent no proof knows the elements.
fn write_front(lines: &[u8], row: &mut [u8]) -> Result<usize, ListingFault>
    ensures value { result ≡ fitted lines.now (length row.old) }
    ensures after { row.new ≡ row_after result lines.now row.old }
{
    let size = lines.len();
    if row.len() < size {
        return Err(ListingFault::ShortRow);
    }
    row[..size].copy_from_slice(lines);
    Ok(size)
}

// Writes the lines of an answer to the front of the lent row, and answers how many bytes they are. A longer row keeps
// its rest; one that is too short stays as it was, and so does any row where memory is wanting.
pub fn listing(
    heap: Global,
    answer: Result<&Plan, Denial<'_>>,
    row: &mut [u8],
) -> Result<usize, ListingFault>
    ensures value { Told result (fitted (answer_text answer.entry) (length row.old)) }
    ensures after { row.new ≡ row_after result (answer_text answer.entry) row.old }
{
    let lines = text(heap, answer)?;
    write_front(lines.as_slice(), row)
}
