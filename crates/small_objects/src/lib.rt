//! Objects of several words, for threads to share without a lock; and the order of all calls on one of them: an object
//! whose replies tell it, and the replay of calls in it, one after another.
#![tactic(auto)]

mod amount;
mod book;
mod counter;
mod counters;
mod encoded;
mod map;
mod order;
mod placed;
mod queue;
mod register;
mod ring;
mod row;
mod script_queue;
mod stack;
mod sticky;
mod typed;
mod words;

pub use book::{SmallBook, small_book_follows_plain};
pub use counter::SmallCounter;
pub use counters::{CountersCall, SmallCounters};
pub use encoded::{Encoded, StoredObject, encoded_follows_plain};
pub use map::{MapCall, MapReply, SmallMap};
pub use order::replay;
pub use placed::Placed;
pub use queue::{SmallQueue, ring_answers_as_the_queue};
pub use register::{RegisterCall, SmallRegister};
pub use script_queue::{SmallScriptQueue, small_queue_follows_plain};
pub use stack::SmallStack;
pub use typed::{Told, TypedSeat};
pub use words::Words;
