//! An object whose replies tell the places of their calls.
ghost use Rattle.told_order.specs.Counted.{counted, exact_in_place};

use crate::in_place::InPlace;
use seq_object::SeqObject;
use std::alloc::{AllocError, Global};

/// A state of an object that counts its calls.
#[derive(Drop)]
pub struct CountedState<S> {
    /// How many calls were made, modulo 2^64.
    pub calls: u64,
    /// The object's state after them.
    pub state: S,
}

/// An object that counts its calls. A reply tells the place of its call in the order of all calls, from 0.
#[derive(Drop)]
pub struct Counted<O> {
    /// The object.
    pub object: O,
}

impl<O: SeqObject> SeqObject for Counted<O> {
    type State = CountedState<O::State>;

    type Inv = O::Inv;

    type Resp = InPlace<O::Resp>;

    ghost sequential = { λ o. counted (O.sequential o.object) };

    fn start(&self, alloc: Global) -> Result<CountedState<O::State>, AllocError> {
        let state = self.object.start(alloc)?;
        Ok(CountedState { calls: 0, state })
    }

    fn apply(
        &self,
        alloc: Global,
        state: &CountedState<O::State>,
        inv: &O::Inv,
    ) -> Result<(CountedState<O::State>, InPlace<O::Resp>), AllocError> {
        let place = state.calls;
        let (state, reply) = self.object.apply(alloc, &state.state, inv)?;
        let calls = place.wrapping_add(1);
        Ok((CountedState { calls, state }, InPlace { place, reply }))
    }

    fn copy_inv(alloc: Global, inv: &O::Inv) -> Result<O::Inv, AllocError> {
        O::copy_inv(alloc, inv)
    }

    ghost same_inv = { O.same_inv };

    ghost same_resp = { exact_in_place O.Resp.eq O.same_resp };
}
