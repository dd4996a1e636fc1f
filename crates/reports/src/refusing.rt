ghost use Rattle.std.specs.Prelude.{◌≡◌, ◌++◌, IfOk, OnOk};
ghost use Rattle.reports.specs.Reports.{head_text, quoted, refusal_text, bad_name_text};

use std::alloc::{AllocError, Global};
use tables::Notice;
use texts::Texts;
use writing::{end_line, push_field};

// Writes a refusal's number, and where it is.
fn push_head(out: &mut Vec<u8>, notice: Notice) -> Result<(), AllocError>
    ensures { OnOk result (out.new.items ≡ out.old.items ++ head_text notice) }
{
    out.extend_from_slice(b"refused")?;
    push_field(out, notice.number)?;
    push_field(out, notice.place.text)?;
    push_field(out, notice.place.line)?;
    end_line(out)
}

// Writes a line as it stands, after two spaces.
fn push_quoted(out: &mut Vec<u8>, line: &[u8]) -> Result<(), AllocError>
    ensures { OnOk result (out.new.items ≡ out.old.items ++ quoted line.now) }
{
    out.extend_from_slice(b"  ")?;
    out.extend_from_slice(line)?;
    end_line(out)
}

// Writes the field and the byte where the refusal tells a byte, as that of a bad name does.
fn push_bad_name(out: &mut Vec<u8>, notice: Notice) -> Result<(), AllocError>
    ensures { OnOk result (out.new.items ≡ out.old.items ++ bad_name_text notice) }
{
    if notice.place.byte > 0 {
        out.extend_from_slice(b"  field")?;
        push_field(out, notice.place.field)?;
        out.extend_from_slice(b" byte")?;
        push_field(out, notice.place.byte)?;
        end_line(out)?;
    }
    Ok(())
}

// The lines of a refusal: its number and its place, the line as it stands, and of a bad name the field and the byte.
pub fn refusal_text(heap: Global, notice: Notice, texts: Texts<'_>) -> Result<Vec<u8>, AllocError>
    ensures { IfOk result (λ text. text.items ≡ refusal_text notice texts.entry.resources.now texts.entry.tasks.now) }
{
    let mut out = Vec::new(heap);
    push_head(&mut out, notice)?;
    push_quoted(&mut out, texts.line(notice.place))?;
    push_bad_name(&mut out, notice)?;
    Ok(out)
}
