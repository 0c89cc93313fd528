//! Refusals.

use thiserror::Error;
use uni_core::OpenFault;

/// Why there is no graph.
#[derive(Clone, Copy, Debug, PartialEq, Eq, Error)]
pub enum ExploreFault {
    /// The world can't be opened.
    #[error("the world can't be opened: {0}")]
    Opening(OpenFault),
    /// There are more worlds than the limit.
    #[error("there are more worlds than the limit")]
    Limit,
    /// Memory was refused.
    #[error("out of memory")]
    Memory,
}
