//! The rule of the table, and what its steps tell.
ghost use Rattle.uni_words.specs.Ran.{ShowsRun};
ghost use Rattle.uni_words.specs.Seats.{EndsCall, HasAsked, HasBegun, Moved, TellsInv, TellsReply, TellsState};
ghost use Rattle.uni_words.specs.Seats.{first_alone, first_view, nobody, others, took_in};

use crate::object::WordObject;
use crate::view::View;
use atomic_table::{Join, Play, Split, Table, TableRule};
use std::alloc::Global;
use std::marker::PhantomData;

/// What the table is told once: the object, how many processes there are, and how many calls each can make.
#[derive(Drop)]
pub struct Setup<O: WordObject> {
    pub object: O,
    pub n: u64,
    pub k: u64,
}

/// The rule of the table: its words and the views of its seats show a world of the construction, to
/// which an execution of these steps leads from the opening.
pub struct Universal<O> {
    object: PhantomData<O>,
}

impl<O: WordObject> TableRule<u8, View, Setup<O>> for Universal<O> {
    ghost holds = { λ key. ShowsRun (O.sequential key.object) key.n key.k };

    ghost first = { λ key. first_view key.n key.k };
}

/// A step that is an event of the world.
pub struct Moves;

impl Play<u8, View> for Moves {
    ghost then = { Moved };
}

/// A step that begins a call.
pub struct Begins;

impl Play<u8, View> for Begins {
    ghost then = { HasBegun };
}

/// A read of an invocation.
pub struct LooksInv;

impl Play<u8, View> for LooksInv {
    ghost then = { TellsInv };
}

/// A read of a settled state.
pub struct LooksNew;

impl Play<u8, View> for LooksNew {
    ghost then = { TellsState };
}

/// A read of the reply, which is the last step of a call where the head stays.
pub struct LooksReply;

impl Play<u8, View> for LooksReply {
    ghost then = { TellsReply };
}

/// A store of the head that is the last step of a call.
pub struct Ends;

impl Play<u8, View> for Ends {
    ghost then = { EndsCall };
}

/// A load of the number of a call that a seat asks about.
pub struct Asks;

impl Play<u8, View> for Asks {
    ghost then = { HasAsked };
}

/// The first process apart from the others.
pub struct First;

impl Split<View> for First {
    ghost left = { others };

    ghost right = { first_alone };
}

/// A seat that takes in another one, of one process, with what that knows.
pub struct TakesIn;

impl Join<View> for TakesIn {
    ghost both = { took_in };

    ghost spent = { nobody };
}

/// The table of a log: it has no slots.
pub type WordTable<O> = Table<u8, View, Setup<O>, Universal<O>, Global>;
