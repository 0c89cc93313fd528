//! The order of all calls on an object, which their replies tell: an object that tells it, and calls that are made
//! again in it, one after another.
#![tactic(auto)]

mod counted;
mod in_place;
mod order;
mod plain;

pub use counted::{Counted, CountedState};
pub use in_place::InPlace;
pub use order::{ReplayFault, Replaying, make_in_order};
pub use plain::state_in_order;
