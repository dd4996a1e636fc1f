// From a box line and two texts to what is printed: the plan that is found, or why there is none.
#![tactic(auto)]

ghost use Rattle.std.specs.Prelude.{◌≡◌, IfOk};
ghost use Rattle.tables.specs.Listed.{listed};
ghost use Rattle.planning.specs.Planning.{placed_text, planner_text, ruled_text};

use boxes::{BoxLine, Rule, parse_box};
use disciplines::{Ceiling, Discipline, Whole};
use listings::{Denial, denied, text};
use placement::place;
use std::alloc::{AllocError, Global};
use tables::{ReadFault, Table, read};
use texts::Texts;

// The plan that is found for a table under a discipline, or why there is none, as text.
fn placed_text<D: Discipline>(
    heap: Global,
    processors: u8,
    table: &Table,
    discipline: &D,
) -> Result<Vec<u8>, AllocError>
    ensures { IfOk result (λ lines. lines.items ≡ placed_text (D.may discipline.now) processors (listed table.now)) }
{
    match place(heap, processors, table, discipline) {
        Ok(plan) => text(heap, Ok(&plan)),
        Err(fault) => {
            let denial = denied(table, fault).ok_or(AllocError)?;
            text(heap, Err(denial))
        }
    }
}

// The same under the discipline that a box line names. An arm for each type, so that each call is bound by its type.
fn ruled_text(heap: Global, declared: BoxLine, table: &Table) -> Result<Vec<u8>, AllocError>
    ensures { IfOk result (λ lines. lines.items ≡ ruled_text declared (listed table.now)) }
{
    match declared.rule {
        Rule::Ceiling => placed_text(heap, declared.processors, table, &Ceiling),
        Rule::Whole => placed_text(heap, declared.processors, table, &Whole),
    }
}

// What the program `planner` prints for an input and two texts.
pub fn plan(heap: Global, input: &[u8], texts: Texts<'_>) -> Result<Vec<u8>, AllocError>
    ensures { IfOk result (λ lines. lines.items ≡ planner_text input.now texts.entry.resources.now texts.entry.tasks.now) }
{
    let Some(declared) = parse_box(input) else {
        return text(heap, Err(Denial::Box));
    };
    match read(heap, texts) {
        Ok(table) => ruled_text(heap, declared, &table),
        Err(ReadFault::Refused(refusal)) => text(heap, Err(Denial::Unread(refusal.notice()))),
        Err(ReadFault::Memory) => Err(AllocError),
    }
}

#[cfg(test)]
mod tests {
    use super::*;
    use analysis::{PartKind, Seated};
    use std::test::Fail;

    const TASKS: &[u8] = b"task quote 2 1 2 10 surface\ntask log 12 0 0 50 -\n";

    const TEXTS: Texts<'static> = Texts {
        resources: b"resource surface\n",
        tasks: TASKS,
    };

    #[test]
    fn a_plan_is_printed(rt: HostRuntime) -> Result<(), Fail> {
        let lines = plan(rt.alloc(), b"3 whole\n", TEXTS)?;
        assert_eq!(rt;
            lines.as_slice(),
            b"plan 3 1\nat surface 2\nrun quote 0 2 1 2 5\nrun log 0 20 0 0 20\n" as &[u8]
        );
        Ok(())
    }

    #[test]
    fn a_task_is_judged_where_it_sits(rt: HostRuntime) -> Result<(), Fail> {
        let table = read(rt.alloc(), TEXTS).ok();
        let Some(table) = &table else {
            return Err(Fail::from(AllocError));
        };
        let seated = Seated {
            table,
            sites: &[2],
            homes: &[0, 1],
        };
        let before = seated.part_bound(rt.alloc(), 0, PartKind::Before, 1)?;
        assert_eq!(rt; before, Some(12));
        let judged = seated.judge(rt.alloc(), 0, 0)?.map(|bounds| bounds.total());
        assert_eq!(rt; judged.ok(), Some(5));
        let judged = seated
            .judge_with(rt.alloc(), Some(0), 1)?
            .map(|bounds| bounds.total());
        assert_eq!(rt; judged.ok(), Some(12));
        Ok(())
    }
}
