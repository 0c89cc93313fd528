//! The wait-free universal construction on the words of an `atomic_table`.
#![tactic(auto)]

mod apply;
mod compare;
mod cursor;
mod laws;
mod log;
mod object;
mod objects;
mod read;
mod rule;
mod seat;
mod view;
mod words;

pub use apply::{Answer, RowFull};
pub use compare::differs;
pub use laws::{
    ask_keeps, every_call_is_wait_free, every_execution_is_linearizable, join_keeps, load_ends,
    load_keeps, opening_shows, own_calls_rise, returned_is_there, split_keeps, store_begins,
    store_ends, word_step_moves,
};
pub use log::{WordLog, WordOpenFault};
pub use object::WordObject;
pub use objects::{WordSticky, WordTally};
pub use read::{WordEntry, read_log};
pub use seat::WordSeat;
pub use words::Words;
