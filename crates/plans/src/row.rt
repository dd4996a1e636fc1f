// A row that the caller lent is too short.
#[derive(Clone, Copy, Debug)]
pub struct ShortRow;
