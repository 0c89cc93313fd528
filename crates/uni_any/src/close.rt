//! Closing an object.
ghost use Rattle.std.specs.Prelude.{◌≡◌, ◌<◌, ◌≤◌, ◌∷◌, [], length, map, slice_index_or};
ghost use Rattle.triple_buffers.specs.Closed.{layout_in, value_in};
ghost use Rattle.uni_any.specs.Closed.{HasRunTo, last_version};
ghost use Rattle.uni_any.specs.News.{told_by, version_as};
ghost use Rattle.uni_any.specs.Seats.{IsSeatOf, known_calls, object_of, processes_of, version_of};
ghost use Rattle.uni_any.specs.Shown.{known_then};

use crate::looking::SPAN;
use crate::news::{Block, News};
use crate::rule::NewsOf;
use crate::seat::{AnySeat, AnyShared};
use seq_object::SeqObject;
use std::alloc::Global;
use std::sync::Arc;
use triple_buffers::ClosedBuffers;

/// The last version of a closed object.
#[derive(Drop)]
pub struct LastVersion<I, S, R> {
    pub(crate) news: Arc<News<I, Block<S, R>>, Global>,
    pub(crate) number: u64,
}

/// The last version of an object that is closed.
pub type LastVersionOf<O> = LastVersion<
    <O as SeqObject>::Inv,
    <O as SeqObject>::State,
    <O as SeqObject>::Resp,
>;

impl<I, S, R> LastVersion<I, S, R> {
    /// The version: its number, its state, and of each process how many of its calls are in, and the last reply.
    pub fn block(&self) -> &Block<S, R>
        ensures { version_as result.now ≡ last_version self.now }
    {
        self.news.found(self.number)
    }
}

/// What a process told last: what lies in its buffer, or what was taken of it last.
fn told_last<O: SeqObject>(
    closed: ClosedBuffers<NewsOf<O>>,
    seen: Vec<NewsOf<O>>,
    process: u64,
) -> NewsOf<O>
    requires inside { (process < (layout_in closed).parties) × (process < length seen.items) }
    ensures { (first : _) → told_by result
        ≡ known_then (value_in closed process) (slice_index_or (map told_by seen.items) process first) }
{
    let mut seen = seen;
    match closed.take(process) {
        Some(news) => news,
        None => seen.swap_remove(process as usize),
    }
}

impl<O: SeqObject> AnyShared<O> {
    /// Closes the object with the seat of one of its processes, which is one of this object's: its last version. Other
    /// seats may be dropped. It takes no memory.
    ///
    /// The calls of the seat's process, with the replies that they were given, are those of a history that the atomic
    /// object accepts; where one is pending, it has begun, and may have taken effect. The version has the state after
    /// the calls of this history, in the order in which they took effect, and its number is that of a version which all
    /// of them are in. In that order each of them that has returned comes after all calls of the version that its seat
    /// had, and is among those of its own version. The number of the version is no less than that of the version that
    /// the seat has. The history is made by the steps of an execution.
    ///
    /// The rows say how many calls of each process have taken effect in that history. The history is chosen by the
    /// clause: that its other calls were made, and that the version is the last one, is in no clause. Tests see it.
    pub fn close_with(self, seat: AnySeat<O>) -> LastVersionOf<O>
        requires seat { IsSeatOf self seat }
        ensures told { HasRunTo (O.sequential (object_of self)) (processes_of self)
            (known_calls seat ∷ []) (last_version result) }
        ensures late { version_of seat ≤ (last_version result).number }
    {
        let AnyShared { buffers } = self;
        let AnySeat { party, seen, .. } = seat;
        let closed = buffers.close_with(party);
        let word = closed.word(0);
        let news = told_last::<O>(closed, seen, word % SPAN);
        let number = word / SPAN;
        LastVersion { news, number }
    }
}
