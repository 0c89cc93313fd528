//! How runs open.

use run_replay::Start;

/// How a run opened.
#[derive(Drop)]
pub struct Opened<'a> {
    /// The word of its object.
    pub object: &'a str,
    /// How many processes there were first.
    pub processes: u64,
    /// How many calls a process can make in an era.
    pub row: u64,
    /// The number of the first anchor.
    pub number: u64,
    /// The text of the object's first state.
    pub state: Vec<u8>,
    /// Where the events begin that are told; `None` where the first of them is the run's.
    pub start: Option<Start>,
}
