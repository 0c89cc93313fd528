//! Seats that are called with calls, and give replies.
ghost use Rattle.std.specs.Prelude.{List, [], IfOk, IsErr, IsErrOf, ℕ, ◌+◌, ◌++◌, ◌<◌, ◌≡◌, ◌≢◌, ◌≤◌, ◌⊎◌, ◌↔◌, ◌∷◌};
ghost use Rattle.std.specs.Prelude.{IfSome, None, OnErr, OnOk};
ghost use Rattle.uni_small.specs.Invariant.{most_calls};
ghost use Rattle.uni_small.specs.Belongs.{IsSeatOf, calls_made, calls_of, invocation_width_of, known_calls, object_of};
ghost use Rattle.uni_small.specs.Belongs.{own_calls, process_of, processes_of, reply_width_of, sizes_of, version_of};
ghost use Rattle.uni_small.specs.Belongs.{word_steps_of};
ghost use Rattle.uni_small.specs.Final.{IsAnswerAt};
ghost use Rattle.uni_small.specs.Standing.{call_steps, read_steps};
ghost use Rattle.small_objects.specs.Typed.{IsTypedSeatOf, seat_of};

use crate::words::Words;
use std::alloc::{AllocError, Global};
use std::marker::PhantomData;
use uni_small::{CallsSpent, SmallObject, SmallSeat, SmallShared};

/// What a call is told: its reply, and a version in which the call is.
#[derive(Debug, Clone, Copy, PartialEq, Eq, Drop)]
pub struct Told<R> {
    pub reply: R,
    pub version: u64,
}

/// A seat that is called with calls of type `C`, and gives replies of type `R`. It has room for their words.
#[derive(Drop)]
pub struct TypedSeat<O, C, R> {
    pub(crate) seat: SmallSeat<O>,
    pub(crate) invocation: Vec<u64>,
    pub(crate) reply: Vec<u64>,
    marker: PhantomData<(C, R)>,
}

impl<O: SmallObject, C: Words, R: Words> TypedSeat<O, C, R> {
    /// A seat of this object for calls and replies of these types, which have as many words as the object's
    /// invocations and replies.
    pub fn new(
        alloc: Global,
        shared: &SmallShared<O>,
        seat: SmallSeat<O>,
    ) -> Result<TypedSeat<O, C, R>, AllocError>
        requires seat { IsSeatOf shared.now seat }
        requires call { invocation_width_of shared.now ≡ C.words }
        requires reply { reply_width_of shared.now ≡ R.words }
        ensures own { IfOk result (λ typed. IsTypedSeatOf C.words R.words shared.now typed) }
        ensures same { IfOk result (λ typed. seat_of typed ≡ seat) }
    {
        Ok(TypedSeat {
            seat,
            invocation: vec![in alloc; 0u64; C::count() as usize]?,
            reply: vec![in alloc; 0u64; R::count() as usize]?,
            marker: PhantomData,
        })
    }

    /// Makes a call, and gives its reply, with a version in which the call is: as `apply` of the seat, of
    /// which the call's words are the invocation. The reply is what the words are that the seat was given.
    pub fn call(&mut self, shared: &SmallShared<O>, call: &C) -> Result<Told<R>, CallsSpent>
        requires { IsTypedSeatOf C.words R.words shared.now self.old }
        ensures kept { IsTypedSeatOf C.words R.words shared.now self.new }
        ensures spent { IsErr result ↔ (calls_made (seat_of self.old) ≡ most_calls) }
        ensures unchanged { OnErr result (seat_of self.new ≡ seat_of self.old) }
        ensures process { process_of (seat_of self.new) ≡ process_of (seat_of self.old) }
        ensures own { IfOk result (λ told. (words : List ℕ) × (told.reply ≡ R.decode words)
            × (own_calls (seat_of self.new) ≡ own_calls (seat_of self.old) ++ record {
              inv = C.encode call.now;
              reply = words;
              after = version_of (seat_of self.old);
              version = told.version;
            } ∷ [])) }
        ensures made { OnOk result (calls_made (seat_of self.new) ≡ calls_made (seat_of self.old) + 1) }
        ensures later { IfOk result (λ told. version_of (seat_of self.old) < told.version) }
        ensures version { IfOk result (λ told. version_of (seat_of self.new) ≡ told.version) }
        ensures few_steps { OnOk result (word_steps_of (seat_of self.new)
            ≤ word_steps_of (seat_of self.old) + call_steps (sizes_of shared.now)) }
    {
        call.store(&mut self.invocation);
        let version = self.seat.apply(shared, &self.invocation, &mut self.reply)?;
        Ok(Told {
            reply: R::load(&self.reply),
            version,
        })
    }

    /// What this call would be answered at the present state, without making it, with the version that has the state:
    /// as `read` of the seat, of which the call's words are the invocation. The answer is `None` where another version
    /// came meanwhile.
    pub fn read(&mut self, shared: &SmallShared<O>, call: &C) -> Result<Option<Told<R>>, CallsSpent>
        requires { IsTypedSeatOf C.words R.words shared.now self.old }
        ensures kept { IsTypedSeatOf C.words R.words shared.now self.new }
        ensures spent { IsErr result ↔ (calls_made (seat_of self.old) ≡ most_calls) }
        ensures unchanged { OnErr result (seat_of self.new ≡ seat_of self.old) }
        ensures calls { known_calls (seat_of self.new) ≡ known_calls (seat_of self.old) }
        ensures told { IfOk result (λ found. IfSome found (λ told. (words : List ℕ) × (told.reply ≡ R.decode words)
            × IsAnswerAt (O.meaning (object_of shared.now)).object (processes_of shared.now)
            (calls_of (seat_of self.new) ∷ []) told.version (C.encode call.now) words)) }
        ensures version { IfOk result (λ found. IfSome found (λ told.
            version_of (seat_of self.new) ≡ told.version)) }
        ensures later { version_of (seat_of self.old) ≤ version_of (seat_of self.new) }
        ensures none { IfOk result (λ found. found ≡ None
            → version_of (seat_of self.new) ≡ version_of (seat_of self.old)) }
        ensures few_steps { OnOk result (word_steps_of (seat_of self.new)
            ≤ word_steps_of (seat_of self.old) + read_steps (sizes_of shared.now)) }
    {
        call.store(&mut self.invocation);
        match self.seat.read(shared, &self.invocation, &mut self.reply)? {
            Some(version) => Ok(Some(Told {
                reply: R::load(&self.reply),
                version,
            })),
            None => Ok(None),
        }
    }

    /// The seat, to be followed, taken in or closed with.
    pub fn into_seat(self) -> SmallSeat<O>
        ensures { result ≡ seat_of self }
    {
        let TypedSeat { seat, .. } = self;
        seat
    }
}
