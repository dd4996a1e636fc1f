// Reads the two texts of the current folder as often as its argument says, for a benchmark.
#![tactic(auto)]

use anyhow::anyhow;
use std::alloc::Global;
use std::{env, fs};
use tables::{ReadFault, read};
use texts::Texts;

// How many rows were read, or the number of the refusal.
fn rows(heap: Global, texts: Texts) -> anyhow::Result<usize> {
    match read(heap, texts) {
        Ok(table) => Ok(table.resources().len().saturating_add(table.tasks().len())),
        Err(ReadFault::Refused(refusal)) => Ok(usize::from(refusal.number())),
        Err(ReadFault::Memory) => Err(anyhow!("memory was wanting")),
    }
}

fn main(rt: HostRuntime) -> anyhow::Result<()> {
    let resources = fs::read(&rt, "resources.txt")?;
    let tasks = fs::read(&rt, "tasks.txt")?;
    let texts = Texts {
        resources: resources.as_slice(),
        tasks: tasks.as_slice(),
    };
    let count: u64 = env::args(&rt)?
        .skip(1)
        .try_fold(1, |_, argument| argument.as_str().parse())?;
    let mut total: usize = 0;
    for _ in 0..count {
        total = total.saturating_add(rows(rt.alloc(), texts)?);
    }
    println!(rt; "reads {count} rows {total}")?;
    Ok(())
}
