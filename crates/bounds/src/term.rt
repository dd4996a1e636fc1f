ghost use Rattle.std.specs.Prelude.{◌<◌, ◌≤◌};
ghost use Rattle.bounds.specs.Least.{longest};

// A task that goes before a part: in each of its periods it takes its length.
#[derive(Clone, Copy)]
pub struct Term {
    pub period: u64,
    pub length: u64,
    ghost some: { 0 < period },
    ghost fits: { length ≤ period },
    ghost counted: { period ≤ longest },
}
