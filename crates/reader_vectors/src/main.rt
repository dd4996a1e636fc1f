// Prints the inventory of each of many tables, to be compared with what another reader says of them.
#![tactic(auto)]

use inventories::inventory;
use std::io::{ErrorKind, Write};
use std::{fs, io};
use texts::Texts;

// The number that the digits at the front of the bytes write, and what follows the byte after them.
fn number(bytes: &[u8]) -> Option<(usize, &[u8])> {
    let end = bytes.iter().position(|byte| !byte.is_ascii_digit())?;
    let number = bytes[..end]
        .iter()
        .try_fold(0, |number: usize, digit| match digit {
            b'0'..=b'9' => number
                .checked_mul(10)?
                .checked_add(usize::from(*digit - b'0')),
            _ => None,
        })?;
    Some((number, &bytes[end + 1..]))
}

// A case is `case RLEN TLEN` and LF, then so many bytes of a resource text, so many of a task text, and LF. It answers the
// two texts and what follows the case.
fn case(bytes: &[u8]) -> Option<(Texts<'_>, &[u8])> {
    let (_, rest) = bytes.split_at_checked(5)?;
    let (resource_len, rest) = number(rest)?;
    let (task_len, rest) = number(rest)?;
    let (resources, rest) = rest.split_at_checked(resource_len)?;
    let (tasks, rest) = rest.split_at_checked(task_len)?;
    let (_, rest) = rest.split_at_checked(1)?;
    Some((Texts { resources, tasks }, rest))
}

fn main(rt: HostRuntime) -> io::Result<()> {
    let cases = fs::read(&rt, "cases.bin")?;
    let mut rest = cases.as_slice();
    let mut out = Vec::new(rt.alloc());
    // A case is at least a byte long, so there are no more cases than bytes.
    for i in 1..=cases.len() {
        if rest.is_empty() {
            break;
        }
        let (texts, after) = case(rest).ok_or(ErrorKind::InvalidData)?;
        writeln!(out, "case {i}")?;
        out.extend_from_slice(inventory(rt.alloc(), texts)?.as_slice())?;
        rest = after;
    }
    rt.stdout().write_all(out.as_slice())
}
