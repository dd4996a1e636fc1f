ghost use Rattle.std.specs.Prelude.{◌≡◌};
ghost use Rattle.texts.specs.Lines.{lines};
ghost use Rattle.tables.specs.Listed.{listed};
ghost use Rattle.tables.specs.Reading.{read_lines, read_of, within_limit};
ghost use Rattle.tables.specs.Told.{Told};

use crate::fault::{LinePlace, ReadFault, Refusal};
use crate::table::Table;
use entries::At;
use std::alloc::Global;
use texts::{Lines, Text, Texts};

const LONGEST_TEXT: usize = 32_768;

fn check_length(text: Text, bytes: &[u8]) -> Result<(), Refusal>
    ensures { result ≡ within_limit text bytes.now }
{
    if bytes.len() > LONGEST_TEXT {
        return Err(Refusal::Long(text));
    }
    Ok(())
}

impl Table {
    // The table with what the lines of a text declare.
    fn read_lines(&mut self, heap: Global, text: Text, bytes: &[u8]) -> Result<(), ReadFault>
        ensures { Told result (λ _. listed self.new) (read_lines text 1 (listed self.old) (lines bytes.now)) }
    {
        for (before, line) in Lines::new(bytes).enumerate() {
            let place = LinePlace {
                text,
                line: before + 1,
            };
            self.read_line(heap, text, line)
                .map_err(|fault| At { place, fault })?;
        }
        Ok(())
    }
}

// The table that a resource text and a task text declare, or the first fault.
pub fn read(heap: Global, texts: Texts<'_>) -> Result<Table, ReadFault>
    ensures { Told result listed (read_of texts.entry.resources.now texts.entry.tasks.now) }
{
    check_length(Text::Resources, texts.resources)?;
    check_length(Text::Tasks, texts.tasks)?;
    let mut table = Table::empty(heap);
    table.read_lines(heap, Text::Resources, texts.resources)?;
    table.read_lines(heap, Text::Tasks, texts.tasks)?;
    Ok(table)
}
