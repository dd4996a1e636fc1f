ghost use Rattle.std.specs.Prelude.{◌≡◌, ◌<◌, ◌≤◌, ℕ, List, false, length, codes, IfOk, if◌then◌else◌, Some, None, nat_eq};
ghost use Rattle.std.specs.Option.{option_map};
ghost use Rattle.std.proofs.Common.{lit<};
ghost use Rattle.fields.specs.Fields.{Shape};
ghost use Rattle.fields.specs.Forms.{all_filled, form, held, in_form, resource_fields, resource_shapes, task_fields, task_shapes};
ghost use Rattle.texts.specs.Lines.{pieces};

use crate::fields::{Field, is_filled, name_or_hyphen};
use std::alloc::{AllocError, Global};

// The fields of a line that declares a resource.
#[derive(Clone, Copy, Debug)]
pub struct ResourceLine<'a> {
    pub word: Field<'a>,
    pub name: Field<'a>,
}

// The fields of a line that declares a task.
#[derive(Clone, Copy, Debug)]
pub struct TaskLine<'a> {
    pub word: Field<'a>,
    pub name: Field<'a>,
    pub before: Field<'a>,
    pub critical: Field<'a>,
    pub after: Field<'a>,
    pub period: Field<'a>,
    pub resource: Field<'a>,
}

// A kind of line: how many fields it has, the word that it begins with, and what its pieces are.
pub trait LineForm<'a> {
    ghost count: { ℕ };

    ghost keyword: { List ℕ };

    // the shapes of a line's fields, in their order
    ghost shapes: { Self → List Shape };

    // what the pieces of a line are
    ghost fields: { List (List ℕ) → List Shape };

    // How many fields a line has. A function, since the check states no constant of a trait where an impl has a lifetime.
    fn count() -> usize
        ensures { result ≡ count };

    // The word that a line begins with; a function for the same reason.
    fn keyword() -> &'static [u8]
        ensures { result.now ≡ keyword };

    // The line that the pieces make, if there are that many.
    fn of_pieces(pieces: &[&'a [u8]]) -> Option<Self>
    where
        Self: Sized,
        ensures { option_map shapes result ≡ (if nat_eq (length (held pieces.now)) count then Some (fields (held pieces.now)) else None) };

    // a line has a first field
    ghost some: { 0 < count };

    // and one more than its fields can be counted
    ghost few: { count < 100 };

    // The fields of a line in this form; none where the line is not in form. It reads no further than it takes to tell.
    final fn split(heap: Global, line: &'a [u8]) -> Result<Option<Self>, AllocError>
    where
        Self: Sized,
        ensures { IfOk result (λ o. option_map shapes o ≡ form count keyword fields line.now) }
    {
        let pieces = split_fields(heap, line, Self::count())?;
        if !in_form(&pieces, Self::count(), Self::keyword()) {
            return Ok(None);
        }
        Ok(Self::of_pieces(&pieces))
    }
}

const RESOURCE_FIELDS: usize = 2;

const TASK_FIELDS: usize = 7;

// A line in the form `resource NAME`.
impl<'a> LineForm<'a> for ResourceLine<'a> {
    ghost count = { 2 };

    ghost keyword = { codes "resource" };

    ghost shapes = { resource_shapes };

    ghost fields = { resource_fields };

    fn count() -> usize
        ensures { result ≡ 2 }
    {
        RESOURCE_FIELDS
    }

    fn keyword() -> &'static [u8]
        ensures { result.now ≡ codes "resource" }
    {
        b"resource"
    }

    fn of_pieces(pieces: &[&'a [u8]]) -> Option<ResourceLine<'a>>
        ensures { option_map resource_shapes result ≡ (if nat_eq (length (held pieces.now)) 2 then Some (resource_fields (held pieces.now)) else None) }
    {
        match pieces {
            [word, name] => Some(ResourceLine {
                word: Field::Word(word),
                name: Field::Name(name),
            }),
            _ => None,
        }
    }

    ghost some = { lit< tt };

    ghost few = { lit< tt };
}

// A line in the form `task NAME BEFORE CRITICAL AFTER PERIOD RESOURCE`.
impl<'a> LineForm<'a> for TaskLine<'a> {
    ghost count = { 7 };

    ghost keyword = { codes "task" };

    ghost shapes = { task_shapes };

    ghost fields = { task_fields };

    fn count() -> usize
        ensures { result ≡ 7 }
    {
        TASK_FIELDS
    }

    fn keyword() -> &'static [u8]
        ensures { result.now ≡ codes "task" }
    {
        b"task"
    }

    fn of_pieces(pieces: &[&'a [u8]]) -> Option<TaskLine<'a>>
        ensures { option_map task_shapes result ≡ (if nat_eq (length (held pieces.now)) 7 then Some (task_fields (held pieces.now)) else None) }
    {
        match pieces {
            [word, name, before, critical, after, period, resource] => Some(TaskLine {
                word: Field::Word(word),
                name: Field::Name(name),
                before: Field::Figure(before),
                critical: Field::Figure(critical),
                after: Field::Figure(after),
                period: Field::Figure(period),
                resource: name_or_hyphen(resource),
            }),
            _ => None,
        }
    }

    ghost some = { lit< tt };

    ghost few = { lit< tt };
}

// The pieces of a line between single spaces, `most` at the most. Of a line that has more, the last is all that stands after
// the others: it holds a space, so it is no field. It reads no further than the others, and takes memory once.
fn split_fields(heap: Global, line: &[u8], most: usize) -> Result<Vec<&[u8]>, AllocError>
    requires { 0 < most }
    ensures few { IfOk result (λ v. length (pieces line.now) ≤ most → held v.items ≡ pieces line.now) }
    ensures many { IfOk result (λ v. most < length (pieces line.now) → all_filled (held v.items) ≡ false) }
{
    let mut out = Vec::with_capacity(heap, most)?;
    out.extend(line.splitn(most, |b| *b == b' '))?;
    Ok(out)
}

// Whether each piece of a line is a field.
fn all_filled(pieces: &[&[u8]]) -> bool
    ensures { result ≡ all_filled (held pieces.now) }
{
    pieces.iter().all(|piece| is_filled(piece))
}

// Whether the pieces are so many fields, of which the first is the keyword.
fn in_form(pieces: &[&[u8]], count: usize, keyword: &[u8]) -> bool
    requires { 0 < count }
    ensures { result ≡ in_form count keyword.now (held pieces.now) }
{
    pieces.len() == count && all_filled(pieces) && keyword == pieces[0]
}
