//! The wait-free objects for C: one opaque handle, and the calls on it.
#![tactic(auto)]

mod close;
mod compare;
mod handle;
mod held;
mod loose;
mod object;
mod open;
mod program_open;
mod small_close;
mod small_kind;
mod small_left;
mod small_open;
mod small_read;
mod small_turn;
mod status;
mod turn;

/// A call's reply, and how many turns it took.
#[repr(C)]
#[derive(Clone, Copy, Drop)]
pub struct Reply {
    /// What the object answered.
    pub reply: u32,
    /// How many turns of the construction's loop the call took.
    pub turns: u32,
}

/// A call as it was made, with what it was answered.
#[repr(C)]
#[derive(Clone, Copy, Drop)]
pub struct Call {
    /// What was invoked.
    pub inv: u64,
    /// What the object answered; its turns aren't looked at.
    pub answer: Reply,
}

/// A call that took effect.
#[repr(C)]
#[derive(Clone, Copy, Drop)]
pub struct Entry {
    /// Its number in the log, from 2 on.
    pub seq: u64,
    /// Whose call it was.
    pub process: u64,
    /// The how many-th call of the process it was, from 0 on.
    pub nth: u64,
    /// What was invoked.
    pub inv: u64,
    /// What was answered; 0 where nothing was.
    pub reply: u32,
    /// 0 only in a last entry whose call never returned, and 1 else.
    pub is_replied: u32,
}
