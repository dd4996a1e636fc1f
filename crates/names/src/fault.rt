ghost use Rattle.std.specs.Prelude.{◌≡◌};
ghost use Rattle.names.specs.Faults.{fault_byte};

// What is wrong with the field of a name. Bytes are counted from 1 within the field.
#[derive(Clone, Copy, Debug, PartialEq, Eq)]
pub enum NameFault {
    // The field has no byte.
    Empty,
    // The `&` at this byte begins none of the entities.
    BadEntity(usize),
    // What begins at this byte stands for a 33rd byte.
    TooLong(usize),
    // The field stands for a hyphen and nothing else.
    LoneHyphen,
}

impl NameFault {
    // Where in the field the fault begins.
    pub fn byte(&self) -> usize
        ensures { result ≡ fault_byte self.now }
    {
        match self {
            NameFault::BadEntity(at) | NameFault::TooLong(at) => *at,
            NameFault::Empty | NameFault::LoneHyphen => 1,
        }
    }
}
