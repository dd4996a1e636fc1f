// Prints the plan that is found for the two texts in the current folder and the box that the first line of standard
// input declares, or why there is none.
#![tactic(auto)]

use files::or_empty;
use planning::plan;
use std::io::{BufRead, BufReader, Write};
use std::{fs, io};
use texts::Texts;

fn main(rt: HostRuntime) -> io::Result<()> {
    let mut input = Vec::new(rt.alloc());
    BufReader::new(rt.alloc(), rt.stdin())?.read_until(b'\n', &mut input)?;
    // Read by each program itself: of what a file gives no contract can speak, but of `or_empty` it can.
    let resources = or_empty(rt.alloc(), fs::read(&rt, "resources.txt"))?;
    let tasks = or_empty(rt.alloc(), fs::read(&rt, "tasks.txt"))?;
    let texts = Texts {
        resources: resources.as_slice(),
        tasks: tasks.as_slice(),
    };
    let lines = plan(rt.alloc(), input.as_slice(), texts)?;
    rt.stdout().write_all(lines.as_slice())
}
