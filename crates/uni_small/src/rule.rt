//! The rule of the table, and what its steps tell.
use crate::object::SmallObject;
use crate::seat::Seen;
use crate::sizes::Sizes;
use crate::view::View;
use atomic_table::{Join, Play, Split, Table, TableRule};
use std::alloc::Global;
use std::marker::PhantomData;

/// What the table is told once: the object, and its sizes.
#[derive(Drop)]
pub struct Setup<O: SmallObject> {
    pub object: O,
    pub sizes: Sizes,
}

/// The rule of the table: its words and the views of its seats show a board.
pub struct Boards<O> {
    object: PhantomData<O>,
}

impl<O: SmallObject> TableRule<Seen, View<O>, Setup<O>> for Boards<O> {
    ghost use Rattle.uni_small.specs.Shown.{ShowsBoard};
    ghost use Rattle.uni_small.specs.Plays.{first_view};

    ghost holds = { λ key. ShowsBoard O.meaning key.object key.sizes };

    ghost first = { λ key. first_view O.meaning key.object key.sizes };
}

/// The store of a word of an invocation.
pub struct Stores;

impl<O> Play<Seen, View<O>> for Stores {
    ghost use Rattle.uni_small.specs.Plays.{HasStored};

    ghost then = { HasStored };
}

/// The store of an announcement.
pub struct Announces;

impl<O> Play<Seen, View<O>> for Announces {
    ghost use Rattle.uni_small.specs.Plays.{HasAnnounced};

    ghost then = { HasAnnounced };
}

/// The load of S with which an attempt begins.
pub struct Starts;

impl<O> Play<Seen, View<O>> for Starts {
    ghost use Rattle.uni_small.specs.Plays.{HasStarted};

    ghost then = { HasStarted };
}

/// The load of S with which a direct attempt begins.
pub struct Begins;

impl<O> Play<Seen, View<O>> for Begins {
    ghost use Rattle.uni_small.specs.Plays.{HasBegun};

    ghost then = { HasBegun };
}

/// The load of a word of the current buffer.
pub struct Copies;

impl<O> Play<Seen, View<O>> for Copies {
    ghost use Rattle.uni_small.specs.Plays.{HasCopied};

    ghost then = { HasCopied };
}

/// The load of an announcement.
pub struct Looks;

impl<O> Play<Seen, View<O>> for Looks {
    ghost use Rattle.uni_small.specs.Plays.{HasLooked};

    ghost then = { HasLooked };
}

/// The load of a word of an invocation.
pub struct Asks;

impl<O> Play<Seen, View<O>> for Asks {
    ghost use Rattle.uni_small.specs.Plays.{HasAsked};

    ghost then = { HasAsked };
}

/// The store of a word of the spare buffer.
pub struct Writes;

impl<O> Play<Seen, View<O>> for Writes {
    ghost use Rattle.uni_small.specs.Plays.{HasWritten};

    ghost then = { HasWritten };
}

/// The exchange of S.
pub struct Brings;

impl<O> Play<Seen, View<O>> for Brings {
    ghost use Rattle.uni_small.specs.Plays.{HasBrought};

    ghost then = { HasBrought };
}

/// The load of S after two failed attempts.
pub struct Turns;

impl<O> Play<Seen, View<O>> for Turns {
    ghost use Rattle.uni_small.specs.Plays.{HasTurned};

    ghost then = { HasTurned };
}

/// The load of a word of the reply, of which more are to come.
pub struct Loads;

impl<O> Play<Seen, View<O>> for Loads {
    ghost use Rattle.uni_small.specs.Plays.{HasLoaded};

    ghost then = { HasLoaded };
}

/// The load of the last word of the reply.
pub struct Replies;

impl<O> Play<Seen, View<O>> for Replies {
    ghost use Rattle.uni_small.specs.Plays.{HasReplied};

    ghost then = { HasReplied };
}

/// The load of S between calls.
pub struct Follows;

impl<O> Play<Seen, View<O>> for Follows {
    ghost use Rattle.uni_small.specs.Plays.{HasFollowed};

    ghost then = { HasFollowed };
}

/// The load of S by which a process asks whether the version that it has read is still the present one.
pub struct Recalls;

impl<O: SmallObject> Play<Seen, View<O>> for Recalls {
    ghost use Rattle.std.specs.Prelude.{◌≡◌, Some};
    ghost use Rattle.uni_small.specs.Plays.{HasRecalled};

    ghost then = { λ step me found me'. (o : O) → me.0.object ≡ Some o
        → HasRecalled (O.meaning o) step me found me' };
}

/// The load of the process's own announcement, whatever it is at.
pub struct Recounts;

impl<O> Play<Seen, View<O>> for Recounts {
    ghost use Rattle.uni_small.specs.Plays.{HasRecounted};

    ghost then = { HasRecounted };
}

/// The load of a word of the process's own buffers, whatever it is at.
pub struct Rereads;

impl<O> Play<Seen, View<O>> for Rereads {
    ghost use Rattle.uni_small.specs.Plays.{HasReread};

    ghost then = { HasReread };
}

/// The load of S by which a process begins again, wherever it stood.
pub struct Restarts;

impl<O> Play<Seen, View<O>> for Restarts {
    ghost use Rattle.uni_small.specs.Plays.{HasRestarted};

    ghost then = { HasRestarted };
}

/// The load of S after which an attempt goes on or has failed.
pub struct Checks;

impl<O: SmallObject> Play<Seen, View<O>> for Checks {
    ghost use Rattle.std.specs.Prelude.{◌≡◌, Some};
    ghost use Rattle.uni_small.specs.Plays.{HasChecked};

    ghost then = { λ step me found me'. (o : O) → me.0.object ≡ Some o
        → HasChecked (O.meaning o) step me found me' };
}

/// The same in a direct attempt.
pub struct ChecksOwn;

impl<O: SmallObject> Play<Seen, View<O>> for ChecksOwn {
    ghost use Rattle.std.specs.Prelude.{◌≡◌, Some};
    ghost use Rattle.uni_small.specs.Plays.{HasCheckedOwn};

    ghost then = { λ step me found me'. (o : O) → me.0.object ≡ Some o
        → HasCheckedOwn (O.meaning o) step me found me' };
}

/// The load of S that ends a read, and gives the direct attempt up.
pub struct Confirms;

impl<O: SmallObject> Play<Seen, View<O>> for Confirms {
    ghost use Rattle.std.specs.Prelude.{◌≡◌, Some};
    ghost use Rattle.uni_small.specs.Plays.{HasConfirmed};

    ghost then = { λ step me found me'. (o : O) → me.0.object ≡ Some o
        → HasConfirmed (O.meaning o) step me found me' };
}

/// The exchange of S in a direct attempt, which is told the call.
pub struct BringsOwn;

impl<O> Play<Seen, View<O>> for BringsOwn {
    ghost use Rattle.uni_small.specs.Plays.{HasBroughtOwn};

    ghost then = { HasBroughtOwn };
}

/// The first process apart from the others.
pub struct First;

impl<O> Split<View<O>> for First {
    ghost use Rattle.uni_small.specs.Plays.{others, first_alone};

    ghost left = { others };

    ghost right = { first_alone };
}

/// A seat that takes in another one, of one process, with what that knows.
pub struct TakesIn;

impl<O> Join<View<O>> for TakesIn {
    ghost use Rattle.uni_small.specs.Plays.{nobody, took_in};

    ghost both = { took_in };

    ghost spent = { nobody };
}

/// The table of an object: it has no slots.
pub type SmallTable<O> = Table<Seen, View<O>, Setup<O>, Boards<O>, Global>;
