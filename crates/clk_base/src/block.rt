//! Blocks of consecutive numbers.
/// Consecutive numbers: the `count` numbers from `first` on, as a thread draws its tickets.
#[derive(Clone, Copy, PartialEq, Eq, Debug)]
pub struct Block {
    pub first: u64,
    pub count: u64,
}
