ghost use Rattle.std.specs.Prelude.{◌≡◌};
ghost use Rattle.tables.specs.Rowed.{row_of};

use crate::task::Task;
use std::alloc::AllocError;

// A copy has the row of its task. It names every field: a struct with ghost fields takes neither a derive nor a `..`.
impl Clone for Task {
    ghost is_clone = { λ t u. row_of u ≡ row_of t };

    fn clone(&self) -> Result<Task, AllocError> {
        Ok(Task {
            name: self.name.clone()?,
            before: self.before,
            critical: self.critical,
            after: self.after,
            period: self.period,
            resource: self.resource,
        })
    }
}
