ghost use Rattle.std.specs.Prelude.{◌≤◌};

use fields::Ticks;
use names::Name;

// What a task line says, its names decoded. Whether that fits a table is not yet known, so it is no task: a line in form may
// break what every task keeps.
#[derive(Debug, Drop)]
pub struct Entry {
    pub name: Name,
    pub before: Ticks,
    pub critical: Ticks,
    pub after: Ticks,
    pub period: Ticks,
    pub resource: Option<Name>,
    ghost spaced: { (1 ≤ period) × (period ≤ 10000000) },
}
