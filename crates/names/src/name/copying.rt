ghost use Rattle.std.specs.Prelude.{◌≡◌};
ghost use Rattle.names.specs.Spelled.{spelled};

use crate::name::Name;
use std::alloc::AllocError;

// A copy is spelled as its name. No derive writes it for a struct with a ghost field.
impl Clone for Name {
    ghost is_clone = { λ n m. spelled m ≡ spelled n };

    fn clone(&self) -> Result<Name, AllocError> {
        Ok(Name {
            bytes: self.bytes.clone()?,
        })
    }
}
