// One of the two texts of a table.
#[derive(Clone, Copy, Debug, PartialEq, Eq)]
pub enum Text {
    Resources,
    Tasks,
}

// Where something stands: in which text, line, field and byte, each counted from 1; 0 where it does not apply, which is what
// the formats tell there.
#[derive(Clone, Copy, Debug, PartialEq, Eq)]
pub struct Place {
    pub text: Text,
    pub line: usize,
    pub field: usize,
    pub byte: usize,
}
