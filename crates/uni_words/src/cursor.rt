//! Where a call is in its course.

/// A call in its course: its process, its cell, and the head that the process has reached, with the
/// head's number.
#[derive(Clone, Copy, Drop)]
pub(crate) struct Cursor {
    pub(crate) process: u64,
    pub(crate) cell: u64,
    pub(crate) head: u64,
    pub(crate) number: u64,
}
