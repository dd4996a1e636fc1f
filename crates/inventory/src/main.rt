// Prints what was understood of the two texts in the current folder.
#![tactic(auto)]

use files::or_empty;
use inventories::inventory;
use std::io::Write;
use std::{fs, io};
use texts::Texts;

fn main(rt: HostRuntime) -> io::Result<()> {
    // Read by each program itself: of what a file gives no contract can speak, but of `or_empty` it can.
    let resources = or_empty(rt.alloc(), fs::read(&rt, "resources.txt"))?;
    let tasks = or_empty(rt.alloc(), fs::read(&rt, "tasks.txt"))?;
    let texts = Texts {
        resources: resources.as_slice(),
        tasks: tasks.as_slice(),
    };
    let report = inventory(rt.alloc(), texts)?;
    rt.stdout().write_all(report.as_slice())
}
