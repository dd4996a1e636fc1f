// The fields of a line, and the figures and names that they write.
#![tactic(auto)]

mod fields;
mod figures;
mod forms;

pub use fields::Field;
pub use figures::{Ticks, within};
pub use forms::{LineForm, ResourceLine, TaskLine};

#[cfg(test)]
mod tests {
    use super::*;
    use std::test::Fail;

    #[test]
    fn a_line_in_form_is_split(rt: HostRuntime) -> Result<(), Fail> {
        let resource = ResourceLine::split(rt.alloc(), b"resource P&amp;L")?;
        assert!(rt; resource.is_some());
        let task = TaskLine::split(rt.alloc(), b"task log 12 0 0 50 -")?;
        let period = task.and_then(|line| line.period.figure(1));
        assert_eq!(rt; period, Some(50));
        assert!(rt; TaskLine::split(rt.alloc(), b"task log 12 0 0 50")?.is_none());
        Ok(())
    }
}
