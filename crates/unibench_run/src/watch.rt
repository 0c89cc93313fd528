//! Who is told how far a run of threads is.

use std::rt::HostRuntime;

/// Is told how far a run of threads is.
pub trait Watch {
    /// So many calls are to be made in all.
    fn begins(&self, _calls: u64) {}

    /// A thread has made one of them.
    fn made(&self) {}
}

/// Lets it go.
impl Watch for HostRuntime {}
