use tables::Table;

// A table with the processors of its resources and of its tasks. Where such a row ends too early, a seat past its end counts
// as processor 0. What asks about a part takes its kind and its rank apart, as the definitions do.
#[derive(Clone, Copy)]
pub struct Seated<'a> {
    pub table: &'a Table,
    pub sites: &'a [u8],
    pub homes: &'a [u8],
}
