//! Where in a machine file a value stands.

/// A place in a machine file: the number of its key's [`crate::Row`], the entry's number plus 1 in an array of tables
/// and the item's number plus 1 in a script or a list of jumps. 0 stands where no entry or item is at fault. An unknown
/// key has the row of its table plus 100.
#[derive(Clone, Copy, PartialEq, Eq, Debug)]
pub struct Place {
    pub row: u32,
    pub entry: u32,
    pub item: u32,
}
