//! The rule of words and buffers, and what steps tell.
use crate::news::{Block, News};
use crate::view::View;
use seq_object::SeqObject;
use std::alloc::Global;
use std::marker::PhantomData;
use std::sync::Arc;
use triple_buffers::{BufferRule, Buffers, Party, TakePlay, WordPlay, WritePlay};

/// What the rule is told once: the object, and for how many processes.
#[derive(Drop)]
pub struct Setup<O: SeqObject> {
    /// The object.
    pub object: O,
    /// How many processes share it, from 1 to 64.
    pub processes: u64,
}

/// What lies in a buffer of an object.
pub type NewsOf<O> = Arc<
    News<<O as SeqObject>::Inv, Block<<O as SeqObject>::State, <O as SeqObject>::Resp>>,
    Global,
>;

/// What a seat of an object knows.
pub type ViewOf<O> = View<
    O,
    <O as SeqObject>::Inv,
    <O as SeqObject>::State,
    <O as SeqObject>::Resp,
>;

/// The rule: words, buffers and views show a board.
pub struct Boards<O> {
    object: PhantomData<O>,
}

impl<O: SeqObject> BufferRule<NewsOf<O>, ViewOf<O>, Setup<O>> for Boards<O> {
    ghost use Rattle.uni_any.specs.Ran.{ShowsBoard};
    ghost use Rattle.uni_any.specs.Plays.{first_view};

    ghost holds = { λ key. ShowsBoard O.sequential key.object key.processes };

    ghost first = { λ key. first_view O.sequential key.object key.processes };
}

/// The write of an invocation.
pub struct Posts;

impl<O: SeqObject> WritePlay<NewsOf<O>, ViewOf<O>> for Posts {
    ghost use Rattle.uni_any.specs.Plays.{HasPosted};

    ghost then = { HasPosted };
}

/// The load of S with which an attempt begins.
pub struct Starts;

impl<O: SeqObject> WordPlay<ViewOf<O>> for Starts {
    ghost use Rattle.uni_any.specs.Plays.{HasStarted};

    ghost then = { λ first second. HasStarted };
}

/// The take of what a process has told.
pub struct Learns;

impl<O: SeqObject> TakePlay<NewsOf<O>, ViewOf<O>> for Learns {
    ghost use Rattle.uni_any.specs.Plays.{HasLearned};

    ghost then = { HasLearned O.sequential };
}

/// The write of a block.
pub struct Lays;

impl<O: SeqObject> WritePlay<NewsOf<O>, ViewOf<O>> for Lays {
    ghost use Rattle.uni_any.specs.Plays.{HasLaid};

    ghost then = { HasLaid O.sequential };
}

/// The exchange of S.
pub struct Brings;

impl<O: SeqObject> WordPlay<ViewOf<O>> for Brings {
    ghost use Rattle.uni_any.specs.Plays.{HasBrought};

    ghost then = { λ first second. HasBrought };
}

/// The load of S between calls.
pub struct Views;

impl<O: SeqObject> WordPlay<ViewOf<O>> for Views {
    ghost use Rattle.uni_any.specs.Plays.{HasViewed};

    ghost then = { λ first second. HasViewed };
}

/// The take, between calls, of what the process that S named has told.
pub struct Sees;

impl<O: SeqObject> TakePlay<NewsOf<O>, ViewOf<O>> for Sees {
    ghost use Rattle.uni_any.specs.Plays.{HasSeen};

    ghost then = { HasSeen O.sequential };
}

/// The words and buffers of an object.
pub type ObjectBuffers<O> = Buffers<NewsOf<O>, ViewOf<O>, Setup<O>, Boards<O>>;

/// A process's place at them.
pub type ObjectParty<O> = Party<NewsOf<O>, ViewOf<O>>;
