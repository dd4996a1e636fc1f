ghost use Rattle.std.specs.Prelude.{◌≡◌, ◌<◌, [], ◌∷◌, length, MatchOption, slice_get, slice_index_or};
ghost use Rattle.std.specs.Iterator.{YieldsFirst, item_count};
ghost use Rattle.texts.specs.Lines.{after_line, first_line, StandsFrom, line_address, line_parts, line_start, lines};

use crate::cutting::cut;

// The first line of a text that has one, and the text after it.
fn first_line(text: &[u8]) -> (&[u8], &[u8])
    requires { 0 < length text.now }
    ensures first { result.0.now ≡ first_line text.now }
    ensures rest { result.1.now ≡ after_line text.now }
    ensures cuts { lines text.now ≡ result.0.now ∷ lines result.1.now }
    ensures parts { line_parts text.entry ≡ result.0 ∷ line_parts result.1 }
    ensures less { length result.1.now < length text.now }
{
    let (line, after) = cut(text, b'\n');
    (line, after.unwrap_or(&[]))
}

// The first line of a text, without its LF, and the text after it; none where the text is empty. It reads no further
// than that line.
pub fn next_line(text: &[u8]) -> Option<(&[u8], &[u8])>
    ensures value { MatchOption result (text.now ≡ []) (λ u. (u.0.now ≡ first_line text.now) × (u.1.now ≡ after_line text.now)) }
    ensures cuts { MatchOption result (lines text.now ≡ []) (λ u. (lines text.now ≡ u.0.now ∷ lines u.1.now) × (length u.1.now < length text.now)) }
    ensures parts { MatchOption result (line_parts text.entry ≡ []) (λ u. line_parts text.entry ≡ u.0 ∷ line_parts u.1) }
{
    match text {
        [] => None,
        _ => Some(first_line(text)),
    }
}

// The lines of a text, without their LF, each as a part of it.
#[derive(Clone, Debug, Drop)]
pub struct Lines<'a> {
    rest: &'a [u8],
}

impl<'a> Lines<'a> {
    pub fn new(text: &'a [u8]) -> Lines<'a>
        ensures { result.rest ≡ text.entry }
    {
        Lines { rest: text }
    }
}

impl<'a> Iterator for Lines<'a> {
    type Item = &'a [u8];

    ghost next_gives = { YieldsFirst (λ s. line_parts s.rest) };

    ghost remaining = { item_count (λ s. line_parts s.rest) };

    fn next(&mut self) -> Option<&'a [u8]> {
        let (line, rest) = next_line(self.rest)?;
        self.rest = rest;
        Some(line)
    }
}

// The line that comes after so many others, as a part of its text.
fn nth_line(text: &[u8], before: usize) -> Option<&[u8]>
    ensures { result ≡ slice_get (line_parts text.entry) before }
{
    Lines::new(text).nth(before)
}

// The line of that number, counted from 1, as a part of its text; the empty `nowhere` where the text has no such line.
pub(crate) fn numbered_line<'a>(text: &'a [u8], number: usize, nowhere: &'a [u8]) -> &'a [u8]
    requires { nowhere.now ≡ [] }
    ensures value { result.now ≡ slice_index_or ([] ∷ lines text.now) number [] }
    ensures part { result.ref_ptr ≡ line_address text.entry number nowhere.entry.ref_ptr }
    ensures stands { StandsFrom (line_start number text.now) text.now result.now }
{
    number
        .checked_sub(1)
        .and_then(|before| nth_line(text, before))
        .unwrap_or(nowhere)
}
