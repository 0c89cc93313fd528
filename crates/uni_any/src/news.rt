//! What a process tells the others.
ghost use Rattle.std.specs.Prelude.{◌≡◌};
ghost use Rattle.uni_any.specs.News.{found_in, told_as, version_as};

use std::alloc::Global;
use std::sync::Arc;

/// Of one process: how many of its calls are in, and the reply to the last of them.
#[derive(Clone, Copy, Debug)]
pub struct Row<R> {
    /// How many of its calls are in.
    pub applied: u64,
    /// The reply to the last of them; `None` where none is in.
    pub reply: Option<R>,
}

/// A version of the object, with its number. Once it is told, nobody changes it.
#[derive(Drop)]
pub struct Block<S, R> {
    /// How many versions came before it.
    pub number: u64,
    /// The state of the object.
    pub state: S,
    /// Of each process, how many of its calls are in, and the last reply.
    pub rows: Vec<Row<R>>,
}

/// What a process tells another one.
#[derive(Drop)]
pub struct News<I, B> {
    /// The number of its last call, from 1 on; 0 where it has made none.
    pub call: u64,
    /// The invocation of that call.
    pub inv: Option<Arc<I, Global>>,
    /// The version that it brought in last.
    pub last: Arc<B, Global>,
    /// The version that it may bring in next; while a call is only announced, the last one once more.
    pub next: Arc<B, Global>,
}

impl<I, S, R> News<I, Block<S, R>> {
    /// The block that the writer has brought in, of those that it tells, where it is known to have brought in the
    /// version of this number: the one that it brought in last where that is no older, and else the next one.
    pub(crate) fn found(&self, number: u64) -> &Block<S, R>
        ensures { version_as result.now ≡ found_in (told_as self.now) number }
    {
        if self.last.number < number {
            &self.next
        } else {
            &self.last
        }
    }
}
