//! A register that keeps the first value that is proposed to it.

ghost use Rattle.std.specs.Prelude.{◌≡◌, ℕ, List, None, refl};
ghost use Rattle.std.specs.List.{All};
ghost use Rattle.seq_object.specs.History.{Call, IsLegal};
ghost use Rattle.ready_objects.specs.declared.sticky.StickyInv.{StickyInv};
ghost use Rattle.ready_objects.specs.declared.sticky.StickyInv.TheVariants.{Stick, Read};
ghost use Rattle.ready_objects.specs.declared.sticky.StickyResp.{StickyResp};
ghost use Rattle.ready_objects.specs.declared.sticky.StickyResp.TheVariants.{Settled, Unset};
ghost use Rattle.seq_object.proofs.Cases.{exact_by_cases, other, itself_one, only_one};
ghost use Rattle.ready_objects.specs.Sticky.{sticky, sticky_language, sticky_text, stick_replies};

use crate::number::{Amount, push_number, push_with_number};
use crate::spoken::{Spoken, is_text};
use seq_object::SeqObject;
use std::alloc::{AllocError, Global};
use std::marker::Model;

/// A register that keeps the first value that is proposed to it. It starts unset.
#[derive(Clone, Copy, Debug)]
pub struct StickyObject;

/// The value of the register, where it is settled.
#[derive(Clone, Copy, Debug)]
pub struct StickyState {
    value: Option<Amount>,
}

impl Model for StickyState {
    ghost use Rattle.std.specs.Prelude.{ℕ, Option};

    ghost Value = { Option ℕ };

    ghost view = { λ state. state.value };

    ghost inverse = { λ value. record { value = value } };
}

/// An invocation of the register.
#[derive(Clone, Copy, Debug, PartialEq, Eq)]
pub enum StickyInv {
    /// Proposes a value.
    Stick(Amount),
    /// Asks for the value.
    Read,
}

/// A response of the register.
#[derive(Clone, Copy, Debug, PartialEq, Eq)]
pub enum StickyResp {
    /// The value that is settled.
    Settled(Amount),
    /// No value is settled.
    Unset,
}

impl SeqObject for StickyObject {
    type State = StickyState;

    type Inv = StickyInv;

    type Resp = StickyResp;

    ghost sequential = { λ _. sticky };

    fn start(&self, _alloc: Global) -> Result<StickyState, AllocError> {
        Ok(StickyState { value: None })
    }

    fn apply(
        &self,
        _alloc: Global,
        state: &StickyState,
        inv: &StickyInv,
    ) -> Result<(StickyState, StickyResp), AllocError> {
        let (value, resp) = match (state.value, *inv) {
            (Some(settled), _) => (Some(settled), StickyResp::Settled(settled)),
            (None, StickyInv::Stick(proposed)) => (Some(proposed), StickyResp::Settled(proposed)),
            (None, StickyInv::Read) => (None, StickyResp::Unset),
        };
        Ok((StickyState { value }, resp))
    }

    fn copy_inv(_alloc: Global, inv: &StickyInv) -> Result<StickyInv, AllocError> {
        Ok(*inv)
    }

    ghost same_inv = { exact_by_cases _ (elim [
      | Stick a ↦ (itself_one a, elim [ Stick x ↦ only_one Stick a x | _ ↦ other ])
      | Read ↦ (refl, elim [ Read ↦ λ e. refl | _ ↦ other ])
    ]) };

    ghost same_resp = { exact_by_cases _ (elim [
      | Settled a ↦ (itself_one a, elim [ Settled x ↦ only_one Settled a x | _ ↦ other ])
      | Unset ↦ (refl, elim [ Unset ↦ λ e. refl | _ ↦ other ])
    ]) };
}

impl Spoken for StickyObject {
    ghost language = { sticky_language };

    ghost state_text = { sticky_text };

    fn read_inv(words: &[&[u8]]) -> Option<StickyInv> {
        match words {
            [name] if is_text(name, "read") => Some(StickyInv::Read),
            [name, value] if is_text(name, "stick") => Some(StickyInv::Stick(Amount::read(value)?)),
            _ => None,
        }
    }

    fn push_inv(text: &mut Vec<u8>, inv: &StickyInv) -> Result<(), AllocError> {
        match inv {
            StickyInv::Stick(value) => push_with_number(text, b"stick ", value.number()),
            StickyInv::Read => text.extend_from_slice(b"read"),
        }
    }

    fn push_resp(text: &mut Vec<u8>, resp: StickyResp) -> Result<(), AllocError> {
        match resp {
            StickyResp::Settled(value) => push_number(text, value.number()),
            StickyResp::Unset => text.extend_from_slice(b"unset"),
        }
    }

    fn push_state(text: &mut Vec<u8>, state: &StickyState) -> Result<(), AllocError> {
        match state.value {
            Some(value) => push_number(text, value.number()),
            None => text.extend_from_slice(b"none"),
        }
    }

    fn drawn(word: u64) -> StickyInv {
        match word % 2 {
            0 => StickyInv::Read,
            _ => StickyInv::Stick(Amount::below_thousand(word / 2)),
        }
    }

    fn reads_back(inv: &StickyInv) {
        if let StickyInv::Stick(value) = inv {
            let _ = value.number();
        }
    }
}

/// The replies to all proposals of a legal history from the start are one value. The call does
/// nothing: it tells what holds of each history.
pub fn proposals_agree()
    ensures { (calls : List (Call StickyInv StickyResp)) → IsLegal sticky None calls
        → (v : ℕ) × All (λ reply. reply ≡ Settled v) (stick_replies calls) }
{}
