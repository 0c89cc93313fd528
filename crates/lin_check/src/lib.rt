//! Whether a recorded history is linearizable: a search, with a witness or a refutation.
#![tactic(auto)]

mod checkable;
mod checking;
mod child;
mod cut;
mod event;
mod failed;
mod node;
mod order;
mod ordered;
mod part;
mod passing;
mod prefixes;
mod replies;
mod search;
mod swap_register;
mod worked;

pub use checkable::Checkable;
pub use checking::check;
pub use event::Event;
pub use order::by_return;
pub use ordered::{OrderVerdict, check_order};
pub use part::is_part_by_part;
pub use prefixes::good_prefix;
pub use search::Verdict;
pub use worked::worked_histories;
