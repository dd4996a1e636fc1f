ghost use Rattle.std.specs.Prelude.{◌≡◌};
ghost use Rattle.names.specs.Names.{decoded};
ghost use Rattle.names.specs.Spelled.{spelling};
ghost use Rattle.fields.specs.Fields.{all_visible, filled, name_or_hyphen, piece_of, shape};
ghost use Rattle.fields.specs.Figures.{at_most, figure_of};

use crate::figures::{LONGEST, Ticks, within};
use names::{Name, NameBuffer, NameFault};

// A field of a line: what it is by the line's form. It borrows the text until it is converted.
#[derive(Clone, Copy, Debug)]
pub enum Field<'a> {
    Word(&'a [u8]),
    Figure(&'a [u8]),
    Name(&'a [u8]),
    Hyphen,
}

impl<'a> Field<'a> {
    // The bytes of the field as they stand in the text.
    pub(crate) fn bytes(self) -> &'a [u8]
        ensures { result.now ≡ piece_of (shape self.entry) }
    {
        match self {
            Field::Word(bytes) | Field::Figure(bytes) | Field::Name(bytes) => bytes,
            Field::Hyphen => b"-",
        }
    }

    // The figure that the field writes, if it is one from `low` to the longest time.
    pub fn figure(self, low: Ticks) -> Option<Ticks>
        ensures { result ≡ at_most low 10000000 (figure_of (piece_of (shape self.entry))) }
    {
        within(self.bytes(), low, LONGEST)
    }

    // The name that the field stands for, or the first fault of the field.
    pub fn name(self, buffer: NameBuffer) -> Result<Name, NameFault>
        ensures { spelling result ≡ decoded (piece_of (shape self.entry)) }
    {
        buffer.decode(self.bytes())
    }
}

// Whether each byte of a piece may stand in a field.
fn all_visible(piece: &[u8]) -> bool
    ensures { result ≡ all_visible piece.now }
{
    piece.iter().all(|b| b.is_ascii_graphic())
}

// Whether a piece of a line is a field: one or more visible bytes.
pub(crate) fn is_filled(piece: &[u8]) -> bool
    ensures { result ≡ filled piece.now }
{
    !piece.is_empty() && all_visible(piece)
}

// A lone hyphen stands for no name.
pub(crate) fn name_or_hyphen<'a>(piece: &'a [u8]) -> Field<'a>
    ensures { shape result ≡ name_or_hyphen piece.now }
{
    match piece {
        b"-" => Field::Hyphen,
        _ => Field::Name(piece),
    }
}
