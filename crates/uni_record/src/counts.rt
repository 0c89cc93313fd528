//! What calls took.

/// How many own steps and turns a call took that returned.
#[derive(Clone, Copy, Debug, PartialEq, Eq)]
pub struct Counts {
    /// Its own steps.
    pub steps: u64,
    /// Its turns.
    pub turns: u64,
}
