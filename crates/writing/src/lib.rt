// Lines of text: the fields that a line is written of.
#![tactic(auto)]

mod fields;
mod naming;

pub use fields::{Writable, end_line, push_field};
pub use naming::text_name;

#[cfg(test)]
mod tests {
    use super::*;
    use names::NameBuffer;
    use std::test::Fail;
    use texts::Text;

    #[test]
    fn a_line_has_fields_of_every_kind(rt: HostRuntime) -> Result<(), Fail> {
        let book = NameBuffer::new(rt.alloc())?.decode(b"P&amp;L").ok();
        let mut out = Vec::new(rt.alloc());
        push_field(&mut out, b"run")?;
        push_field(&mut out, book.as_ref())?;
        push_field(&mut out, Text::Tasks)?;
        push_field(&mut out, 16u8)?;
        push_field(&mut out, 10_000_000u32)?;
        push_field(&mut out, 300usize)?;
        push_field(&mut out, Some(10_000_000_000u64))?;
        push_field(&mut out, None::<u64>)?;
        end_line(&mut out)?;
        assert_eq!(rt;
            out.as_slice(),
            b" run P&amp;L tasks 16 10000000 300 10000000000 -\n" as &[u8]
        );
        Ok(())
    }

    #[test]
    fn a_vector_is_written_as_its_bytes(rt: HostRuntime) -> Result<(), Fail> {
        let word = Vec::from_slice(rt.alloc(), b"surface")?;
        let mut out = Vec::new(rt.alloc());
        push_field(&mut out, &word)?;
        assert_eq!(rt; out.as_slice(), b" surface" as &[u8]);
        Ok(())
    }
}
