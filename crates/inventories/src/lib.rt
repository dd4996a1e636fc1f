// What is understood of two texts, as text: the table that they declare, or why it is refused.
#![tactic(auto)]

ghost use Rattle.std.specs.Prelude.{◌≡◌, IfOk};
ghost use Rattle.tables.specs.Listed.{listed};
ghost use Rattle.tables.specs.Reading.{read_of};
ghost use Rattle.tables.specs.Told.{Told};
ghost use Rattle.inventories.specs.Inventories.{TasksReadBack, inventory_text};

use reports::{refusal_text, table_text};
use std::alloc::{AllocError, Global};
use tables::{ReadFault, Table, read};
use texts::Texts;

// What was read, as text.
fn render(
    heap: Global,
    answer: Result<Table, ReadFault>,
    texts: Texts<'_>,
) -> Result<Vec<u8>, AllocError>
    requires { Told answer listed (read_of texts.resources.now texts.tasks.now) }
    ensures value { IfOk result (λ text. text.items ≡ inventory_text texts.entry.resources.now texts.entry.tasks.now) }
    ensures reads_back { IfOk result (λ text. TasksReadBack texts.entry.resources.now texts.entry.tasks.now text.items) }
{
    match answer {
        Ok(table) => table_text(heap, &table),
        Err(ReadFault::Refused(refusal)) => refusal_text(heap, refusal.notice(), texts),
        Err(ReadFault::Memory) => Err(AllocError),
    }
}

// The inventory of two texts, as the program `inventory` prints it.
pub fn inventory(heap: Global, texts: Texts<'_>) -> Result<Vec<u8>, AllocError>
    ensures value { IfOk result (λ text. text.items ≡ inventory_text texts.entry.resources.now texts.entry.tasks.now) }
    ensures reads_back { IfOk result (λ text. TasksReadBack texts.entry.resources.now texts.entry.tasks.now text.items) }
{
    render(heap, read(heap, texts), texts)
}

#[cfg(test)]
mod tests {
    use super::*;
    use std::test::Fail;

    const TASKS: &[u8] =
        b"task book 4 3 2 40 P&amp;L\ntask hedge 3 2 1 20 P&amp;L\ntask log 12 0 0 50 -";

    #[test]
    fn the_book_is_one_resource_with_two_users(rt: HostRuntime) -> Result<(), Fail> {
        let texts = Texts {
            resources: b"resource P&amp;L\n",
            tasks: TASKS,
        };
        let text = inventory(rt.alloc(), texts)?;
        assert_eq!(rt;
            text.as_slice(),
            b"resource P&amp;L 0 2 175000\ntask hedge 3 2 1 20 P&amp;L\ntask book 4 3 2 40 P&amp;L\ntask log 12 0 0 50 -\n" as &[u8]
        );
        Ok(())
    }

    #[test]
    fn a_bare_ampersand_is_refused_where_it_stands(rt: HostRuntime) -> Result<(), Fail> {
        let texts = Texts {
            resources: b"resource P&L\n",
            tasks: TASKS,
        };
        let text = inventory(rt.alloc(), texts)?;
        assert_eq!(rt;
            text.as_slice(),
            b"refused 4 resources 1\n  resource P&L\n  field 2 byte 2\n" as &[u8]
        );
        Ok(())
    }

    #[test]
    fn empty_texts_are_an_empty_table(rt: HostRuntime) -> Result<(), Fail> {
        let texts = Texts {
            resources: b"",
            tasks: b"",
        };
        assert!(rt; inventory(rt.alloc(), texts)?.is_empty());
        Ok(())
    }

    #[test]
    fn a_long_text_is_refused_as_a_whole(rt: HostRuntime) -> Result<(), Fail> {
        let long = vec![in rt.alloc(); b'a'; 32_769]?;
        let texts = Texts {
            resources: b"",
            tasks: long.as_slice(),
        };
        let text = inventory(rt.alloc(), texts)?;
        assert_eq!(rt; text.as_slice(), b"refused 1 tasks 0\n  \n" as &[u8]);
        Ok(())
    }
}
