// Seeks seats for the two texts of the current folder, in a box of 16 processors under ceilings, as often as its argument
// says, for a benchmark.
#![tactic(auto)]

use analysis::WeighFault;
use anyhow::anyhow;
use disciplines::Ceiling;
use placement::place;
use std::alloc::Global;
use std::{env, fs};
use tables::{Table, read};
use texts::Texts;

// The sum of all bounds of the plan that is found, or the rank of the late task: three arms, of which one alone is an error.
fn outcome(heap: Global, table: &Table) -> anyhow::Result<u64> {
    match place(heap, 16, table, &Ceiling) {
        Ok(plan) => {
            let totals = plan.weights().iter().map(|weight| weight.bounds.total());
            Ok(totals.fold(0, u64::saturating_add))
        }
        Err(WeighFault::Late(rank, _)) => Ok(rank as u64),
        Err(_) => Err(anyhow!("memory was wanting")),
    }
}

fn main(rt: HostRuntime) -> anyhow::Result<()> {
    let resources = fs::read(&rt, "resources.txt")?;
    let tasks = fs::read(&rt, "tasks.txt")?;
    let texts = Texts {
        resources: resources.as_slice(),
        tasks: tasks.as_slice(),
    };
    let table = read(rt.alloc(), texts).map_err(|_| anyhow!("the texts declare no table"))?;
    let count: u64 = env::args(&rt)?
        .skip(1)
        .try_fold(1, |_, argument| argument.as_str().parse())?;
    let mut total: u64 = 0;
    for _ in 0..count {
        total = total.saturating_add(outcome(rt.alloc(), &table)?);
    }
    println!(rt; "places {count} outcome {total}")?;
    Ok(())
}
