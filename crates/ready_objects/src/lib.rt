//! Ready sequential objects, and the words in which they are spoken of.
#![tactic(auto)]

mod account;
mod book;
mod directory;
mod name;
mod number;
mod place;
mod queue;
mod spoken;
mod sticky;

pub use account::Account;
pub use book::{BookInv, BookObject, BookResp, BookState, book_is_conserved};
pub use directory::{DirectoryInv, DirectoryObject, DirectoryResp, DirectoryState};
pub use name::Name;
pub use number::{Amount, push_number};
pub use place::Place;
pub use queue::{QueueInv, QueueObject, QueueResp, QueueState};
pub use spoken::{Spoken, is_text};
pub use sticky::{StickyInv, StickyObject, StickyResp, StickyState, proposals_agree};
