// The type by which an entry of a log refers to other entries.
/// A prefix of a list in a log: the list's index, and how many of its entries belong to the prefix.
#[derive(Clone, Copy, Debug, Drop, PartialEq, Eq)]
pub struct ListPrefix {
    pub list: usize,
    pub first: usize,
}
