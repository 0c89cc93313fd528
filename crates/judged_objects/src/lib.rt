//! Objects that recorded histories are judged by, and the words of their calls and replies.
#![tactic(auto)]

mod counter;
mod entries;
mod items;
mod map;
mod queue;
mod queue_order;
mod register;
mod set;
mod sorted;
mod stack;
mod worded;

pub use counter::{Counter, CounterInv, CounterResp};
pub use entries::{Entries, Entry};
pub use items::{Items, Numbers};
pub use map::{Map, MapInv, MapResp};
pub use queue::{Queue, QueueInv, QueueResp};
pub use register::{Register, RegisterInv, RegisterResp};
pub use set::{Set, SetInv, SetResp};
pub use stack::{Stack, StackInv, StackResp};
pub use worded::Worded;
