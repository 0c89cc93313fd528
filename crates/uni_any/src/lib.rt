//! Any object that threads share without a lock: its rule, its seats, and each step on words and buffers.
#![tactic(auto)]

mod apply;
mod attempt;
mod close;
mod draft;
pub mod laws;
mod looking;
mod news;
mod open;
mod reading;
mod rule;
mod seat;
mod steps;
mod view;
mod writing;

pub use apply::MAX_CALLS;
pub use close::{LastVersion, LastVersionOf};
pub use news::{Block, News, Row};
pub use open::AnyOpenFault;
pub use rule::{ObjectBuffers, ObjectParty, Setup};
pub use seat::{AnyAnswer, AnyFault, AnyResumeFault, AnySeat, AnyShared, CallPending};
pub use view::{Image, Known, Local, Returned, Stage, Told, Version, View};
