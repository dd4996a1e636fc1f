ghost use Rattle.std.specs.Prelude.{◌≡◌, ℕ, List, [], ◌∷◌, ◌++◌, decimal, OnOk};
ghost use Rattle.names.specs.Names.{encoded};
ghost use Rattle.names.specs.Spelled.{spelled};
ghost use Rattle.writing.specs.Lines.{or_dash};
ghost use Rattle.writing.specs.Naming.{text_name};

use crate::naming::text_name;
use names::Name;
use std::alloc::AllocError;
use texts::Text;

// What can be written as a field of a line.
pub trait Writable: Copy {
    // The bytes that are written of it.
    ghost written: { Self → List ℕ };

    // Writes it at the end of what is written.
    fn write(self, out: &mut Vec<u8>) -> Result<(), AllocError>
        ensures { OnOk result (out.new.items ≡ out.old.items ++ written self) };
}

// Bytes are written as they are.
impl Writable for &[u8] {
    ghost written = { λ bytes. bytes.now };

    fn write(self, out: &mut Vec<u8>) -> Result<(), AllocError> {
        out.extend_from_slice(self)
    }
}

impl<const N: usize> Writable for &[u8; N] {
    ghost written = { λ bytes. bytes.now };

    fn write(self, out: &mut Vec<u8>) -> Result<(), AllocError> {
        self.as_slice().write(out)
    }
}

impl Writable for &Vec<u8> {
    ghost written = { λ bytes. bytes.now.items };

    fn write(self, out: &mut Vec<u8>) -> Result<(), AllocError> {
        out.extend_from_slice(self.as_slice())
    }
}

// A number is written in decimal.
impl Writable for u64 {
    ghost written = { decimal };

    fn write(self, out: &mut Vec<u8>) -> Result<(), AllocError> {
        let digits = self.to_string(*out.allocator())?;
        out.extend_from_slice(digits.as_bytes())
    }
}

// Each kind of number has an impl of its own: no macro of this repository may write one.
impl Writable for u8 {
    ghost written = { decimal };

    fn write(self, out: &mut Vec<u8>) -> Result<(), AllocError> {
        u32::from(self).write(out)
    }
}

impl Writable for u32 {
    ghost written = { decimal };

    fn write(self, out: &mut Vec<u8>) -> Result<(), AllocError> {
        u64::from(self).write(out)
    }
}

impl Writable for usize {
    ghost written = { decimal };

    fn write(self, out: &mut Vec<u8>) -> Result<(), AllocError> {
        // There is no `From`, though nothing is lost.
        (self as u64).write(out)
    }
}

// A name is written with its entities.
impl Writable for &Name {
    ghost written = { λ name. encoded (spelled name.now) };

    fn write(self, out: &mut Vec<u8>) -> Result<(), AllocError> {
        let written = self.written(*out.allocator())?;
        out.extend_from_slice(written.as_slice())
    }
}

// A text is written as it is named.
impl Writable for Text {
    ghost written = { text_name };

    fn write(self, out: &mut Vec<u8>) -> Result<(), AllocError> {
        out.extend_from_slice(text_name(self))
    }
}

// What is there is written as ever; a hyphen stands for none.
impl<T: Writable> Writable for Option<T> {
    ghost written = { or_dash T.written };

    fn write(self, out: &mut Vec<u8>) -> Result<(), AllocError> {
        match self {
            Some(value) => value.write(out),
            None => out.extend_from_slice(b"-"),
        }
    }
}

// Writes a space and then the field. What writes says by one equation what stands there afterwards; a word for it would be no
// shorter.
pub fn push_field<T: Writable>(out: &mut Vec<u8>, field: T) -> Result<(), AllocError>
    ensures { OnOk result (out.new.items ≡ out.old.items ++ 32 ∷ T.written field) }
{
    out.push(b' ')?;
    field.write(out)
}

// Ends a line with its LF.
pub fn end_line(out: &mut Vec<u8>) -> Result<(), AllocError>
    ensures { OnOk result (out.new.items ≡ out.old.items ++ 10 ∷ []) }
{
    out.extend_from_slice(b"\n")
}
