// What is worked out of a table for a resource, told by its place among the table's: its ceiling, its users, its load.
#![tactic(auto)]

ghost use Rattle.std.specs.Prelude.{◌≡◌, ◌*◌, ◌≤◌, length};
ghost use Rattle.tables.specs.Listed.{listed};
ghost use Rattle.tables.specs.Rowed.{row_of, rows};
ghost use Rattle.usage.specs.Usage.{ceiling, load, share, users, uses};

use tables::{Table, Task};

// Whether the task uses the resource at that place.
fn is_user(task: &Task, resource: usize) -> bool
    ensures { result ≡ uses resource (row_of task.now) }
{
    task.resource == Some(resource)
}

// A task's critical length in millionths of its period, rounded up.
fn share_of(task: &Task) -> u64
    ensures value { result ≡ share (row_of task.now) }
    ensures bound { result ≤ 10000000000001 }
{
    (1_000_000 * u64::from(task.critical)).div_ceil(u64::from(task.period))
}

// The searches of the three calls below stand apart from them, so that a wrong call is refused for its own contract.
fn first_user(tasks: &[Task], resource: usize) -> Option<usize>
    ensures { result ≡ ceiling resource (rows tasks.now) }
{
    tasks.iter().position(|task| is_user(task, resource))
}

fn count_users(tasks: &[Task], resource: usize) -> usize
    ensures { result ≡ users resource (rows tasks.now) }
{
    tasks.iter().filter(|task| is_user(task, resource)).count()
}

fn sum_shares(tasks: &[Task], resource: usize) -> u64
    requires { length tasks.now ≤ 64 }
    ensures { result ≡ load resource (rows tasks.now) }
{
    tasks
        .iter()
        .filter(|task| is_user(task, resource))
        .map(share_of)
        .sum()
}

// The best rank among the users of the resource at that place; none without users.
pub fn ceiling(table: &Table, resource: usize) -> Option<usize>
    ensures { result ≡ ceiling resource (listed table.now).tasks }
{
    first_user(table.tasks(), resource)
}

// How many tasks use the resource at that place.
pub fn users(table: &Table, resource: usize) -> usize
    ensures { result ≡ users resource (listed table.now).tasks }
{
    count_users(table.tasks(), resource)
}

// How much of a processor the users of the resource at that place take in their critical sections, in millionths.
pub fn load(table: &Table, resource: usize) -> u64
    ensures { result ≡ load resource (listed table.now).tasks }
{
    sum_shares(table.tasks(), resource)
}
