//! The page to play: all schedules of a script's calls, as one file for a browser, which needs no network.
//!
//! What a page is stands in `specs/Play.antt`: `IsPlayed`. It is the graph of `run_graph` with what each event does
//! (`run_replay`), between the fixed texts of `run_tell`, which have the program that walks it. docs/play.md tells what
//! a reader sees.
#![tactic(auto)]

mod edges;
mod fault;
mod page;
mod plan;
mod program;

pub use fault::PlayFault;
pub use page::{MOST_WORLDS, page_of};
pub use program::run;
