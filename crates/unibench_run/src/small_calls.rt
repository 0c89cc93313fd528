//! Objects of several words whose calls are drawn.

ghost use Rattle.std.specs.Prelude.{◌≡◌, ℕ};
ghost use Rattle.ready_objects.specs.Book.{book_language};
ghost use Rattle.ready_objects.specs.Queue.{queue_language};
ghost use Rattle.ready_objects.specs.Sticky.{sticky_language};
ghost use Rattle.unibench_run.specs.Draws.{below_1000};
ghost use Rattle.unibench_run.specs.SmallDraws.{counters_call, map_call, register_call, zero_or_value};

use ready_objects::{
    BookInv, BookObject, BookResp, QueueInv, QueueObject, QueueResp, Spoken, StickyInv,
    StickyObject, StickyResp,
};
use small_objects::{
    CountersCall, Encoded, MapCall, MapReply, RegisterCall, SmallBook, SmallCounter, SmallCounters,
    SmallMap, SmallRegister, SmallScriptQueue, SmallStack, Words,
};
use uni_small::SmallObject;

/// An object of several words whose calls are drawn.
pub(crate) trait DrawnCalls: SmallObject {
    /// A call.
    type Call: Words + Copy;

    /// A reply.
    type Reply: Words + Copy;

    /// The call that a word stands for.
    ghost call_of_word: { ℕ → Self.Call };

    /// The call that a word stands for.
    fn drawn_call(word: u64) -> Self::Call
        ensures { result ≡ call_of_word word };
}

/// The number that is added is below 1000.
impl DrawnCalls for SmallCounter {
    type Call = u64;

    type Reply = u64;

    ghost call_of_word = { below_1000 };

    fn drawn_call(word: u64) -> u64 {
        word % 1000
    }
}

impl DrawnCalls for SmallCounters {
    type Call = CountersCall;

    type Reply = u64;

    ghost call_of_word = { counters_call };

    fn drawn_call(word: u64) -> CountersCall {
        CountersCall {
            counter: word % 17,
            operand: word / 17 % 1000,
        }
    }
}

impl DrawnCalls for SmallRegister {
    type Call = RegisterCall;

    type Reply = u64;

    ghost call_of_word = { register_call };

    fn drawn_call(word: u64) -> RegisterCall {
        let (one, other) = (word / 3 % 8, word / 24 % 8);
        match word % 3 {
            0 => RegisterCall::Read,
            1 => RegisterCall::Write(one),
            _ => RegisterCall::CompareExchange(one, other),
        }
    }
}

impl DrawnCalls for SmallStack {
    type Call = u64;

    type Reply = u64;

    ghost call_of_word = { zero_or_value };

    fn drawn_call(word: u64) -> u64 {
        word % 2 * (1 + word / 2 % 999)
    }
}

impl DrawnCalls for SmallMap {
    type Call = MapCall;

    type Reply = MapReply;

    ghost call_of_word = { map_call };

    fn drawn_call(word: u64) -> MapCall {
        let (key, value) = (word / 4 % 100, word / 400 % 1000);
        match word % 4 {
            0 => MapCall::Get(key),
            1 => MapCall::Remove(key),
            _ => MapCall::Insert(key, value),
        }
    }
}

/// The calls of a queue of scripts.
impl DrawnCalls for SmallScriptQueue {
    type Call = QueueInv;

    type Reply = QueueResp;

    ghost call_of_word = { queue_language.inv_of_word };

    fn drawn_call(word: u64) -> QueueInv {
        QueueObject::drawn(word)
    }
}

/// The calls of a book of scripts.
impl DrawnCalls for SmallBook {
    type Call = BookInv;

    type Reply = BookResp;

    ghost call_of_word = { book_language.inv_of_word };

    fn drawn_call(word: u64) -> BookInv {
        BookObject::drawn(word)
    }
}

/// The calls of a sticky register of scripts.
impl DrawnCalls for Encoded<StickyObject> {
    type Call = StickyInv;

    type Reply = StickyResp;

    ghost call_of_word = { sticky_language.inv_of_word };

    fn drawn_call(word: u64) -> StickyInv {
        StickyObject::drawn(word)
    }
}
