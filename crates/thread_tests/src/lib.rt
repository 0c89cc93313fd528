//! Tests of the two forms that threads share without a lock, over words and over copies, and an object of one's own to
//! copy.
#![tactic(auto)]

mod account;
mod apart;

pub use account::{Account, AccountObject};
pub use apart::{
    small_calls_apart_are_answered_in_turn, stale_read_is_not_in_turn,
    word_calls_apart_are_answered_in_turn,
};

#[cfg(test)]
mod follows;
#[cfg(test)]
mod left;
#[cfg(test)]
mod machines;
#[cfg(test)]
mod reads;
#[cfg(test)]
mod replays;
#[cfg(test)]
mod scripts;
#[cfg(test)]
mod small;
#[cfg(test)]
mod threads;
#[cfg(test)]
mod words;
