ghost use Rattle.std.specs.Prelude.{◌≡◌, IfOk, Ok};
ghost use Rattle.names.specs.Names.{Lawful, decoded, encoded};
ghost use Rattle.names.specs.Spelled.{spelled};

use crate::name::Name;
use entities::entity;
use std::alloc::{AllocError, Global};

// The bytes with each special character as its entity.
fn encode(heap: Global, name: &[u8]) -> Result<Vec<u8>, AllocError>
    ensures value { IfOk result (λ s. s.items ≡ encoded name.now) }
    ensures reads_back { IfOk result (λ s. Lawful name.now → decoded s.items ≡ Ok name.now) }
{
    let mut out = Vec::new(heap);
    for byte in name {
        match entity(char::from(*byte)) {
            Some(written) => out.extend_from_slice(written.as_bytes())?,
            None => out.push(*byte)?,
        }
    }
    Ok(out)
}

impl Name {
    pub fn as_bytes(&self) -> &[u8]
        ensures { result.now ≡ spelled self.now }
    {
        self.bytes.as_slice()
    }

    // The name as a text writes it; read again, it is this name.
    pub fn written(&self, heap: Global) -> Result<Vec<u8>, AllocError>
        ensures value { IfOk result (λ s. s.items ≡ encoded (spelled self.now)) }
        ensures reads_back { IfOk result (λ s. decoded s.items ≡ Ok (spelled self.now)) }
    {
        encode(heap, self.as_bytes())
    }
}
