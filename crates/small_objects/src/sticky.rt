//! The sticky register of scripts.
ghost use Rattle.small_objects.specs.Amount.{amount_in, amount_long, amount_words};
ghost use Rattle.ready_objects.specs.Sticky.{sticky};
ghost use Rattle.small_objects.specs.Sticky.{IsCall, IsReply, call_fits, call_in, call_words, proposed_by};
ghost use Rattle.small_objects.specs.Sticky.{reply_fits, reply_in, reply_words, sticky_fits, told_by};

use crate::encoded::StoredObject;
use crate::words::Words;
use ready_objects::{Amount, StickyInv, StickyObject, StickyResp};

impl Words for StickyInv {
    ghost words = { 2 };

    ghost encode = { call_words };

    ghost decode = { call_in };

    ghost valid = { IsCall };

    fn count() -> u64 {
        2
    }

    fn store(&self, to: &mut [u64]) {
        let proposed = match *self {
            StickyInv::Stick(value) => Some(value),
            StickyInv::Read => None,
        };
        proposed.store(to);
    }

    fn load(from: &[u64]) -> StickyInv {
        match Option::<Amount>::load(from) {
            Some(value) => StickyInv::Stick(value),
            None => StickyInv::Read,
        }
    }

    ghost long = { λ call. amount_long (proposed_by call) };

    ghost fits = { call_fits };
}

impl Words for StickyResp {
    ghost words = { 2 };

    ghost encode = { reply_words };

    ghost decode = { reply_in };

    ghost valid = { IsReply };

    fn count() -> u64 {
        2
    }

    fn store(&self, to: &mut [u64]) {
        let told = match *self {
            StickyResp::Settled(value) => Some(value),
            StickyResp::Unset => None,
        };
        told.store(to);
    }

    fn load(from: &[u64]) -> StickyResp {
        match Option::<Amount>::load(from) {
            Some(value) => StickyResp::Settled(value),
            None => StickyResp::Unset,
        }
    }

    ghost long = { λ reply. amount_long (told_by reply) };

    ghost fits = { reply_fits };
}

/// The register as words: `Encoded { object: StickyObject }` is the small object. Its state is whether a value is
/// settled, and the value.
impl StoredObject for StickyObject {
    type State = Option<Amount>;

    type Call = StickyInv;

    type Reply = StickyResp;

    ghost sequential = { λ _. sticky };

    ghost encode = { λ _. amount_words };

    ghost decode = { λ _. amount_in };

    fn width(&self) -> u64 {
        2
    }

    fn start(&self) -> Option<Amount> {
        None
    }

    fn load(&self, words: &[u64]) -> Option<Amount> {
        Option::<Amount>::load(words)
    }

    fn store(&self, state: &Option<Amount>, words: &mut [u64]) {
        state.store(words);
    }

    fn apply(&self, state: &mut Option<Amount>, call: &StickyInv) -> StickyResp {
        if let (None, StickyInv::Stick(proposed)) = (*state, *call) {
            *state = Some(proposed);
        }
        match *state {
            Some(value) => StickyResp::Settled(value),
            None => StickyResp::Unset,
        }
    }

    ghost steady = { λ _ state. amount_long state };

    ghost fits = { λ _. sticky_fits };
}
