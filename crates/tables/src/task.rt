ghost use Rattle.std.specs.Prelude.{◌≡◌, ◌+◌, ◌≤◌, is_some, nat_lt};

use fields::Ticks;
use names::Name;

pub(crate) mod copying;

// A task of a table. Its lengths add up to at least 1 and at most its period, and it has a resource, told by its
// place among the table's, exactly if it has a critical section.
#[derive(Debug, Drop)]
pub struct Task {
    pub name: Name,
    pub before: Ticks,
    pub critical: Ticks,
    pub after: Ticks,
    pub period: Ticks,
    pub resource: Option<usize>,
    ghost spaced: { (1 ≤ period) × (period ≤ 10000000) },
    ghost filled: { (1 ≤ before + critical + after) × (before + critical + after ≤ period) },
    ghost guarded: { is_some resource ≡ nat_lt 0 critical },
}
