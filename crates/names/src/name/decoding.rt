ghost use Rattle.std.specs.Prelude.{◌≡◌, ◌≤◌, [], length, IfOk, Ok, Err, vec_capacity, MatchResult};
ghost use Rattle.entities.specs.Entities.{five};
ghost use Rattle.names.specs.Names.{admitted, decoded, decoded_from};
ghost use Rattle.names.specs.Spelled.{spelling};

use crate::fault::NameFault;
use crate::name::{Name, NameBuffer};
use entities::unit;
use std::alloc::{AllocError, Global};

const MOST_BYTES: usize = 32;

// The name that a field stands for, into memory that has room for it. Byte by byte, since a fault tells where in the field it
// is, and a fold over what is left would carry that place along.
fn decode_into(field: &[u8], name: &mut Vec<u8>) -> Result<(), NameFault>
    requires { (name.old.items ≡ []) × (32 ≤ vec_capacity name.old) }
    ensures { MatchResult result (λ _. (decoded_from five 0 1 [] field.now ≡ Ok name.new.items) × (length name.new.items ≤ 32)) (λ e. decoded_from five 0 1 [] field.now ≡ Err e) }
{
    let mut rest = field;
    while !rest.is_empty() {
        let at = field.len() - rest.len() + 1;
        let decoded = unit(rest).ok_or(NameFault::BadEntity(at))?;
        if name.len() >= MOST_BYTES {
            return Err(NameFault::TooLong(at));
        }
        name.push_reserved(decoded.byte);
        rest = decoded.rest;
    }
    Ok(())
}

// The bytes as a name, unless they are none or a lone hyphen.
fn admit(bytes: Vec<u8>) -> Result<Name, NameFault>
    requires { length bytes.items ≤ 32 }
    ensures { spelling result ≡ admitted (Ok bytes.items) }
{
    match bytes.as_slice() {
        [] => Err(NameFault::Empty),
        [b'-'] => Err(NameFault::LoneHyphen),
        _ => Ok(Name { bytes }),
    }
}

impl NameBuffer {
    pub fn new(heap: Global) -> Result<NameBuffer, AllocError>
        ensures { IfOk result (λ b. b.bytes.items ≡ []) }
    {
        let bytes = Vec::with_capacity(heap, MOST_BYTES)?;
        Ok(NameBuffer { bytes })
    }

    // The name that a field stands for, or the first fault of the field.
    pub fn decode(self, field: &[u8]) -> Result<Name, NameFault>
        ensures { spelling result ≡ decoded field.now }
    {
        let mut bytes = self.bytes;
        decode_into(field, &mut bytes)?;
        admit(bytes)
    }
}
