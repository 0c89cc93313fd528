//! The replay of calls in the order that their replies tell.

ghost use Rattle.std.specs.Prelude.{◌≡◌, ◌≢◌, ◌<◌, ◌^◌, ◌↔◌, ℕ, List};
ghost use Rattle.std.specs.Prelude.{IfOk, IsErrOf, IsTrue, OnOk, length, map, vec_len};
ghost use Rattle.std.specs.List.{sum_by};
ghost use Rattle.uni_small.specs.Image.{IsReached};
ghost use Rattle.told_order.specs.Replay.{IsFirstDifference, IsReplayed};
ghost use Rattle.small_objects.specs.Rooms.{HasRoom};

use crate::words::Words;
use seq_object::CallId;
use std::alloc::{AllocError, Global};
use std::marker::PhantomData;
use told_order::{InPlace, ReplayFault, Replaying, make_in_order};
use uni_small::SmallObject;

/// Room for a state, and for the words of an invocation, of the object's reply to it and of the one that was told.
#[derive(Drop)]
struct Room {
    state: Vec<u64>,
    invocation: Vec<u64>,
    reply: Vec<u64>,
    told: Vec<u64>,
}

/// An object on which calls of type `C` are made again, to which replies have the type `R`.
#[derive(Drop)]
struct Remade<'a, O: SmallObject, C, R> {
    object: &'a O,
    room: Room,
    marker: PhantomData<(C, R)>,
}

/// Whether words are the same.
fn same(one: &[u64], other: &[u64]) -> bool
    ensures { IsTrue result ↔ (one.now ≡ other.now) }
{
    *one == *other
}

/// Makes a call on an object: whether the object's reply is the one that was told.
fn make_call<O: SmallObject, C: Words, R: Words>(
    object: &O,
    call: &C,
    reply: &R,
    room: &mut Room,
) -> bool
    requires words { (C.words ≡ (O.meaning object.now).invocation) × (R.words ≡ (O.meaning object.now).reply) }
    requires room { HasRoom (O.meaning object.now) room.old }
    requires reached { IsReached (O.meaning object.now).object room.old.state.items }
    ensures room { HasRoom (O.meaning object.now) room.new }
    ensures state { room.new.state.items
        ≡ (O.meaning object.now).object.next room.old.state.items (C.encode call.now) }
    ensures told { IsTrue result ↔ (R.encode reply.now
        ≡ (O.meaning object.now).object.answer room.old.state.items (C.encode call.now)) }
{
    call.store(&mut room.invocation);
    reply.store(&mut room.told);
    object.apply(&mut room.state, &room.invocation, &mut room.reply);
    same(&room.told, &room.reply)
}

impl<'a, O: SmallObject, C: Words, R: Words> Replaying for Remade<'a, O, C, R> {
    type Call = C;

    type Reply = R;

    ghost State = { List ℕ };

    ghost Inv = { List ℕ };

    ghost Resp = { List ℕ };

    ghost object = { λ remade. (O.meaning remade.object.now).object };

    ghost state = { λ remade. remade.room.state.items };

    ghost IsReady = { λ remade. HasRoom (O.meaning remade.object.now) remade.room
        × IsReached (O.meaning remade.object.now).object remade.room.state.items
        × (C.words ≡ (O.meaning remade.object.now).invocation) × (R.words ≡ (O.meaning remade.object.now).reply) };

    ghost asks = { C.encode };

    ghost tells = { R.encode };

    fn make(&mut self, call: &C, reply: &R) -> Result<bool, AllocError> {
        Ok(make_call(self.object, call, reply, &mut self.room))
    }
}

/// Room for a state, and for the words of a call.
fn make_room<O: SmallObject>(alloc: Global, object: &O) -> Result<Room, AllocError>
    ensures { IfOk result (HasRoom (O.meaning object.now)) }
{
    let reply = object.reply_width() as usize;
    Ok(Room {
        state: vec![in alloc; 0u64; object.width() as usize]?,
        invocation: vec![in alloc; 0u64; object.invocation_width() as usize]?,
        reply: vec![in alloc; 0u64; reply]?,
        told: vec![in alloc; 0u64; reply]?,
    })
}

/// Makes the calls of these lists one after another on an object, in the order that they were told, and compares the
/// replies, and the state after them with this last one. List p has the calls of process p, each with its place
/// and the reply that it was given.
///
/// Errors: `Differs` for the first call that wasn't told the object's reply, or where no call that comes next was
/// told the next place; `OtherState` where all replies are the object's, and the last state isn't; `Memory`.
#[tactic(auto, using(crate::proofs::Reached::reached_start))]
pub fn replay<O: SmallObject, C: Words, R: Words>(
    alloc: Global,
    object: &O,
    lists: &[Vec<(C, InPlace<R>)>],
    last: &[u64],
) -> Result<(), ReplayFault>
    requires words { (C.words ≡ (O.meaning object.now).invocation) × (R.words ≡ (O.meaning object.now).reply) }
    requires few { (length lists.now < 2 ^ 32) × (sum_by vec_len lists.now < 2 ^ 64) }
    ensures agrees { OnOk result (IsReplayed (O.meaning object.now).object C.encode R.encode
        (map (λ own. own.items) lists.now) last.now) }
    ensures differs { (call : CallId) → IsErrOf result (ReplayFault.Differs call)
        → IsFirstDifference (O.meaning object.now).object C.encode R.encode (map (λ own. own.items) lists.now) call }
    ensures other { IsErrOf result ReplayFault.OtherState → (reached : List ℕ) × (reached ≢ last.now)
        × IsReplayed (O.meaning object.now).object C.encode R.encode (map (λ own. own.items) lists.now) reached }
{
    let mut room = make_room(alloc, object)?;
    object.start(&mut room.state);
    let mut remade = Remade::<'_, O, C, R> {
        object,
        room,
        marker: PhantomData,
    };
    make_in_order(alloc, &mut remade, lists)?;
    if same(&remade.room.state, last) {
        Ok(())
    } else {
        Err(ReplayFault::OtherState)
    }
}
