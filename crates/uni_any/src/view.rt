//! What a process knows. No value of these types is made.
use crate::news::Row;
use std::alloc::Global;
use std::collections::LinkedList;

/// What a version of the object holds.
pub struct Image<S, R> {
    /// The state.
    pub state: S,
    /// Of each process, how many of its calls are in, and the last reply.
    pub rows: LinkedList<Row<R>, Global>,
}

/// A version of the object.
pub struct Version<S, R> {
    /// How many versions came before it.
    pub number: u64,
    /// What it holds.
    pub image: Image<S, R>,
}

/// What a process has told: `News`, as plain data.
pub struct Told<I, S, R> {
    /// The number of its last call, from 1 on; 0 where it has made none.
    pub call: u64,
    /// The invocation of that call.
    pub inv: Option<I>,
    /// The version that it brought in last.
    pub last: Version<S, R>,
    /// The version that it may bring in next.
    pub next: Version<S, R>,
}

/// Where a process stands.
pub enum Stage<I, S, R> {
    /// No call is pending.
    Idle,
    /// The next call is written for so many processes, one at least.
    Posting(I, u64),
    /// The call is announced, and so many attempts have failed.
    Ready(I, u64),
    /// An attempt after so many failed ones has looked into so many buffers.
    Reading(I, u64, u64),
    /// The block that such an attempt made is written for so many processes, one at least.
    Writing(I, u64, Image<S, R>, u64),
}

/// A call that has returned.
pub struct Returned<I, R> {
    /// What it asked for.
    pub inv: I,
    /// Its reply.
    pub reply: R,
    /// It comes after all calls that are in this version.
    pub after: u64,
    /// It is one of the calls that are in this version.
    pub version: u64,
}

/// What one process knows.
pub struct Local<I, S, R> {
    /// Where it stands.
    pub stage: Stage<I, S, R>,
    /// The version that its next calls come after.
    pub after: u64,
    /// Its calls that have returned, in order.
    pub own: LinkedList<Returned<I, R>, Global>,
    /// The word S, as it was loaded last.
    pub word: u64,
    /// The version that it brought in last.
    pub last: Version<S, R>,
    /// What it wrote last for all.
    pub written: Told<I, S, R>,
    /// What it took last of each process.
    pub seen: LinkedList<Told<I, S, R>, Global>,
}

/// A seat has some processes in a row, and what it knows of each of them.
pub struct Known<I, S, R> {
    /// How many processes share the object.
    pub processes: u64,
    /// The first process of the seat.
    pub first: u64,
    /// How many processes the seat has.
    pub count: u64,
    /// What it knows of each.
    pub local: Local<I, S, R>,
}

/// What a seat knows, and the object.
pub struct View<O, I, S, R> {
    /// The object.
    pub object: O,
    /// The seat's processes, and what it knows.
    pub known: Known<I, S, R>,
}
