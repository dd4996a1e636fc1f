ghost use Rattle.std.specs.Prelude.{◌≡◌};
ghost use Rattle.analysis.specs.Told.{seats_of};

use crate::seating::Seating;
use std::alloc::AllocError;

// A copy has the same seats. A derived copy says so seat by seat, and those who copy speak of the seats as a whole.
impl Clone for Seating {
    ghost is_clone = { λ s t. (t.syncs ≡ s.syncs) × (seats_of t ≡ seats_of s) };

    fn clone(&self) -> Result<Seating, AllocError> {
        Ok(Seating {
            syncs: self.syncs,
            resources: self.resources.clone()?,
            tasks: self.tasks.clone()?,
        })
    }
}
