ghost use Rattle.std.specs.Prelude.{◌≡◌};
ghost use Rattle.analysis.specs.Parts.{total};

use fields::Ticks;

// The three parts of a job, in their order.
#[derive(Clone, Copy, Debug)]
pub enum PartKind {
    Before,
    Critical,
    After,
}

// A number of ticks for each part of a task.
#[derive(Clone, Copy, Debug, Default)]
pub struct Bounds {
    pub before: Ticks,
    pub critical: Ticks,
    pub after: Ticks,
}

impl Bounds {
    // The sum of the three.
    pub fn total(&self) -> u64
        ensures { result ≡ total self.now }
    {
        u64::from(self.before) + u64::from(self.critical) + u64::from(self.after)
    }
}
