//! Why no cell was made.

/// Why no cell was made.
#[derive(Clone, Copy, Debug, PartialEq, Eq)]
pub enum ArenaFault {
    /// The process with this number, from 0, has made as many cells as a row has.
    RowFull(u64),
    /// Memory was refused.
    Memory,
}
