ghost use Rattle.std.specs.Prelude.{◌≡◌, ◌≤◌, [], vec_capacity};
ghost use Rattle.names.specs.Names.{Lawful};

pub(crate) mod copying;
mod decoding;
mod writing;

// A decoded name: 1 to 32 bytes, and not a lone hyphen.
#[derive(Debug, PartialEq, Eq, Drop)]
pub struct Name {
    bytes: Vec<u8>,
    ghost lawful: { Lawful bytes.items },
}

// Room for one name. It is got before a field is decoded, so that decoding itself cannot fail for want of memory.
#[derive(Drop)]
pub struct NameBuffer {
    bytes: Vec<u8>,
    ghost blank: { bytes.items ≡ [] },
    ghost room: { 32 ≤ vec_capacity bytes },
}
