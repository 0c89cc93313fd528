//! The lines of answers, and of what broke.

use crate::memory::{Call, Memory};
use ready_objects::push_number;
use seq_object::CallId;
use std::alloc::AllocError;
use std::io::Write;
use uni_script::Refusal;

/// Writes a text, the name of a call, and another text.
///
/// An `Err` says that memory was refused.
pub(crate) fn push_call(
    text: &mut Vec<u8>,
    prefix: &[u8],
    call: CallId,
    back: &[u8],
) -> Result<(), AllocError> {
    text.extend_from_slice(prefix)?;
    push_number(text, u64::from(call.process))?;
    text.extend_from_slice(b".")?;
    push_number(text, call.nth)?;
    text.extend_from_slice(back)
}

/// Writes a text, a number, and another text.
///
/// An `Err` says that memory was refused.
pub(crate) fn push_with_number(
    text: &mut Vec<u8>,
    prefix: &[u8],
    number: u64,
    back: &[u8],
) -> Result<(), AllocError> {
    text.extend_from_slice(prefix)?;
    push_number(text, number)?;
    text.extend_from_slice(back)
}

/// Writes how many steps and turns a call has taken, and the end of the line.
///
/// An `Err` says that memory was refused.
pub(crate) fn push_progress(text: &mut Vec<u8>, call: &Call) -> Result<(), AllocError> {
    push_with_number(text, b" steps ", call.steps, b" turns ")?;
    push_with_number(text, b"", call.turns, b"\n")
}

/// Writes that a call has taken more steps than the bound, where it has.
///
/// An `Err` says that memory was refused.
pub(crate) fn push_bound(text: &mut Vec<u8>, call: &Call) -> Result<(), AllocError> {
    if call.steps <= call.most {
        return Ok(());
    }
    push_call(text, b"call ", call.id, b" has taken ")?;
    push_with_number(text, b"", call.steps, b" steps\n")
}

/// Writes why a command is refused.
///
/// An `Err` says that memory was refused.
pub(crate) fn push_refusal(text: &mut Vec<u8>, refusal: Refusal) -> Result<(), AllocError> {
    writeln!(text, "{refusal}").map_err(|_| AllocError)
}

impl Memory {
    /// Writes the number of each head.
    ///
    /// An `Err` says that memory was refused.
    pub(crate) fn push_heads(&self, text: &mut Vec<u8>) -> Result<(), AllocError> {
        text.extend_from_slice(b"heads")?;
        for p in 0..self.count {
            if let Some(process) = self.process(p) {
                push_with_number(text, b" ", self.seq(process.head), b"")?;
            }
        }
        text.extend_from_slice(b"\n")
    }
}
