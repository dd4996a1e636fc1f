// Worked examples in text and numbers: what the definitions of this repository answer for them. The table stands in specs/.
#![tactic(auto)]

ghost use Rattle.worked_examples.specs.Table.{Examples-hold};

// The worked examples hold of the definitions. It does nothing.
pub fn examples_hold()
    ensures { Examples-hold }
{}

#[cfg(test)]
mod tests {
    use analysis::{Lateness, PartKind, Seating, WeighFault};
    use disciplines::Ceiling;
    use listings::{ListingFault, listing};
    use plans::{Plan, weigh};
    use std::alloc::{AllocError, Global};
    use std::test::Fail;
    use tables::{Table, read};
    use texts::Texts;
    use trials::{TrialFault, trial};

    const RESOURCES: &[u8] = b"resource surface\nresource P&amp;L\n";

    const TASKS: &[u8] =
        b"task quote 2 1 2 10 surface\ntask hedge 3 2 1 20 P&amp;L\ntask book 4 3 2 40 P&amp;L\ntask log 12 0 0 50 -\n";

    const CROWDED: &[u8] =
        b"task quote 2 1 2 10 surface\ntask hedge 3 2 1 17 P&amp;L\ntask book 4 3 2 40 P&amp;L\ntask log 12 0 0 50 -\n";

    const LINES: &[u8] =
        b"plan 3 1\nat surface 2\nat P&amp;L 2\nrun quote 0 2 1 2 5\nrun hedge 0 7 6 5 18\nrun book 0 16 6 10 32\nrun log 1 12 0 0 12\n";

    fn table(heap: Global, tasks: &[u8]) -> Result<Table, Fail> {
        let texts = Texts {
            resources: RESOURCES,
            tasks,
        };
        Ok(read(heap, texts)?)
    }

    // Both resources on processor 2, and all tasks but log on processor 0.
    fn seating(heap: Global) -> Result<Seating, AllocError> {
        Ok(Seating {
            syncs: 1,
            resources: vec![in heap; 2, 2]?,
            tasks: vec![in heap; 0, 0, 0, 1]?,
        })
    }

    fn plan(heap: Global) -> Result<Plan, Fail> {
        Ok(weigh(heap, 3, &table(heap, TASKS)?, &seating(heap)?, &Ceiling)?)
    }

    #[test]
    fn log_is_tried_on_either_processor(rt: HostRuntime) -> Result<(), Fail> {
        let table = table(rt.alloc(), TASKS)?;
        let mut seats = seating(rt.alloc())?;
        let there = trial(rt.alloc(), 3, &table, &mut seats, &Ceiling, 3, 1);
        assert!(rt; matches!(there, Ok(12)));
        let here = trial(rt.alloc(), 3, &table, &mut seats, &Ceiling, 3, 0);
        assert!(rt;
            matches!(
                here,
                Err(TrialFault::Weigh(WeighFault::Late(3, Lateness::NoBound(PartKind::Before))))
            )
        );
        assert_eq!(rt; seats.tasks.as_slice(), &[0u8, 0, 0, 1] as &[u8]);
        Ok(())
    }

    #[test]
    fn hedge_is_late_as_a_whole(rt: HostRuntime) -> Result<(), Fail> {
        let table = table(rt.alloc(), CROWDED)?;
        let weighed = weigh(rt.alloc(), 3, &table, &seating(rt.alloc())?, &Ceiling);
        assert!(rt; matches!(weighed, Err(WeighFault::Late(1, Lateness::Whole))));
        Ok(())
    }

    #[test]
    fn a_plan_is_listed_into_a_row(rt: HostRuntime) -> Result<(), Fail> {
        let plan = plan(rt.alloc())?;
        let mut row = vec![in rt.alloc(); b'x'; LINES.len() + 1]?;
        let size = listing(rt.alloc(), Ok(&plan), row.as_mut_slice())?;
        assert_eq!(rt; size, LINES.len());
        assert_eq!(rt; &row.as_slice()[..size], LINES);
        assert_eq!(rt; row[size], b'x');
        Ok(())
    }

    #[test]
    fn a_short_row_stays_as_it_was(rt: HostRuntime) -> Result<(), Fail> {
        let plan = plan(rt.alloc())?;
        let mut row = [b'x'; 4];
        let refused = listing(rt.alloc(), Ok(&plan), &mut row);
        assert!(rt; matches!(refused, Err(ListingFault::ShortRow)));
        assert_eq!(rt; &row as &[u8], b"xxxx" as &[u8]);
        let mut figures = [7; 15];
        assert!(rt; plan.bounds(&mut figures).is_err());
        assert_eq!(rt; figures[14], 7);
        Ok(())
    }
}
