ghost use Rattle.std.specs.Prelude.{◌<◌};

// A critical section as a discipline sees it: the rank of its task, its resource, and that resource's ceiling, a rank
// too. Ranks count from 0, and a smaller one is better.
#[derive(Clone, Copy, Debug)]
pub struct Section {
    pub rank: u8,
    pub resource: u8,
    pub ceiling: u8,
    ghost small: { (rank < 64) × (resource < 32) × (ceiling < 64) },
}

// A section that is open; it is started once it was served.
#[derive(Clone, Copy, Debug)]
pub struct OpenSection {
    pub section: Section,
    pub started: bool,
}
