//! What a sequential object is.

ghost use Rattle.std.specs.Prelude.{◌≡◌, ◌↔◌, true, IfOk, List};
ghost use Rattle.seq_object.specs.Sequential.{Sequential};
ghost use Rattle.seq_object.specs.History.{Call, IsLegal, IsLegalByPlaces};

use std::alloc::{AllocError, Global};

/// A deterministic sequential object: a start state, and for each state and invocation one next
/// state and one response (Herlihy 1991, section 2).
///
/// The record `sequential` is what the object means. Each call answers what it gives, or that memory
/// was refused, and changes nothing.
pub trait SeqObject: Drop {
    /// A state of the object.
    type State: Drop;

    /// An invocation: which operation, with which arguments.
    type Inv: Eq + Drop;

    /// A response.
    type Resp: Copy + Eq;

    /// What the object means: its start state, and for each state and invocation the next state and
    /// the response.
    ghost sequential: { Self → Sequential Self.State Self.Inv Self.Resp };

    /// Makes the start state.
    ///
    /// An `Err` says that memory was refused.
    fn start(&self, alloc: Global) -> Result<Self::State, AllocError>
        ensures { IfOk result (λ state. state ≡ (sequential self.now).initial) };

    /// Applies an invocation to a state: the next state, and the response. The state that is
    /// handed in stays as it is.
    ///
    /// An `Err` says that memory was refused.
    fn apply(
        &self,
        alloc: Global,
        state: &Self::State,
        inv: &Self::Inv,
    ) -> Result<(Self::State, Self::Resp), AllocError>
        ensures state { IfOk result (λ applied. applied.0 ≡ (sequential self.now).next state.now inv.now) }
        ensures response { IfOk result (λ applied. applied.1 ≡ (sequential self.now).answer state.now inv.now) };

    /// Copies an invocation.
    ///
    /// An `Err` says that memory was refused.
    fn copy_inv(alloc: Global, inv: &Self::Inv) -> Result<Self::Inv, AllocError>
        ensures { IfOk result (λ copy. copy ≡ inv.now) };

    /// `==` tells whether two invocations are the same.
    ghost same_inv: { (i j : Self.Inv) → (Self.Inv.eq i j ≡ true) ↔ (i ≡ j) };

    /// `==` tells whether two responses are the same.
    ghost same_resp: { (r s : Self.Resp) → (Self.Resp.eq r s ≡ true) ↔ (r ≡ s) };
}

/// A legal sequential history has, at each place, no response or the one at that place.
pub fn legal_by_places<O: SeqObject>()
    ensures { (object : O) (s : O.State) (calls : List (Call O.Inv O.Resp)) →
        IsLegal (O.sequential object) s calls ↔ IsLegalByPlaces (O.sequential object) s calls }
{}
