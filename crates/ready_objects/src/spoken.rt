//! Objects whose invocations and responses have words.

ghost use Rattle.std.specs.Prelude.{◌≡◌, ℕ, List, Option, Some, IfOk, OnOk, ◌++◌};
ghost use Rattle.std.specs.Str.{bytes_eq};
ghost use Rattle.ready_objects.specs.Spoken.{Language};
ghost use Rattle.ready_objects.specs.Words.{bytes_of, gap, text_of_words, words_of_text};

use seq_object::SeqObject;
use std::alloc::{AllocError, Global};

/// A sequential object whose invocations are read from words and written as text, whose responses
/// and states are written as text, and of which each drawn word stands for an invocation.
pub trait Spoken: SeqObject {
    /// The words of invocations and responses.
    ghost language: { Language Self.Inv Self.Resp };

    /// The text of a state, to be read by a human and by a program.
    ghost state_text: { Self.State → List ℕ };

    /// Reads an invocation from its words. `None` where the words are no invocation.
    fn read_inv(words: &[&[u8]]) -> Option<Self::Inv>
        ensures { result ≡ language.inv_of_words (bytes_of words.now) };

    /// Writes an invocation after a text: its words with one space between.
    ///
    /// An `Err` says that memory was refused.
    fn push_inv(text: &mut Vec<u8>, inv: &Self::Inv) -> Result<(), AllocError>
        ensures { OnOk result (text.new.items ≡ text.old.items ++ text_of_words (language.inv_words inv.now)) };

    /// Writes a response after a text.
    ///
    /// An `Err` says that memory was refused.
    fn push_resp(text: &mut Vec<u8>, resp: Self::Resp) -> Result<(), AllocError>
        ensures { OnOk result (text.new.items ≡ text.old.items ++ language.resp_text resp) };

    /// Writes a state after a text.
    ///
    /// An `Err` says that memory was refused.
    fn push_state(text: &mut Vec<u8>, state: &Self::State) -> Result<(), AllocError>
        ensures { OnOk result (text.new.items ≡ text.old.items ++ state_text state.now) };

    /// The text of an invocation: its words with one space between.
    ///
    /// An `Err` says that memory was refused.
    fn inv_text(alloc: Global, inv: &Self::Inv) -> Result<Vec<u8>, AllocError>
        ensures { IfOk result (λ text. text.items ≡ text_of_words (language.inv_words inv.now)) }
    {
        let mut text = Vec::new(alloc);
        Self::push_inv(&mut text, inv)?;
        Ok(text)
    }

    /// The text of a response.
    ///
    /// An `Err` says that memory was refused.
    fn resp_text(alloc: Global, resp: Self::Resp) -> Result<Vec<u8>, AllocError>
        ensures { IfOk result (λ text. text.items ≡ language.resp_text resp) }
    {
        let mut text = Vec::new(alloc);
        Self::push_resp(&mut text, resp)?;
        Ok(text)
    }

    /// The invocation that a drawn word stands for.
    fn drawn(word: u64) -> Self::Inv
        ensures { result ≡ language.inv_of_word word };

    /// What is written of an invocation is read back as it, and no other words are read as it. The
    /// call does nothing: it tells what holds of each invocation.
    fn reads_back(inv: &Self::Inv)
        // Its text is cut at the spaces into its words.
        ensures words { words_of_text (text_of_words (language.inv_words inv.now)) ≡ language.inv_words inv.now }
        ensures inv { language.inv_of_words (language.inv_words inv.now) ≡ Some inv.now }
        ensures only { (words : List (List ℕ)) → language.inv_of_words words ≡ Some inv.now
            → words ≡ language.inv_words inv.now };
}

/// Tells whether a word is this text.
pub fn is_text(word: &[u8], text: &str) -> bool
    ensures { result ≡ bytes_eq word.now text.now }
{
    word == text.as_bytes()
}

/// Writes what stands before a text at a place: a space, but for the first one.
///
/// An `Err` says that memory was refused.
pub(crate) fn push_gap(text: &mut Vec<u8>, place: usize) -> Result<(), AllocError>
    ensures { OnOk result (text.new.items ≡ text.old.items ++ gap place) }
{
    if place == 0 {
        return Ok(());
    }
    text.extend_from_slice(b" ")
}
