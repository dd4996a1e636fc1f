use analysis::Bounds;
use fields::Ticks;

// What weighing finds of a task: the blocking term of its critical section, and the bounds of its parts.
#[derive(Clone, Copy, Debug)]
pub struct Weight {
    pub blocking: Ticks,
    pub bounds: Bounds,
}
