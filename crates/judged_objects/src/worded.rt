//! Objects whose calls and replies are written in words.

ghost use Rattle.std.specs.Prelude.{◌≡◌, ◌++◌, List, Option, OnOk, ℕ};
ghost use Rattle.std.specs.Fmt.{decimal};
ghost use Rattle.ready_objects.specs.Number.{number_of_word};
ghost use Rattle.ready_objects.specs.Words.{bytes_of};
ghost use Rattle.judged_objects.specs.Wording.{Wording};

use lin_check::Checkable;
use ready_objects::{Amount, push_number};
use std::alloc::AllocError;

/// An object that can be checked, and the words of its calls and replies.
pub trait Worded: Checkable {
    /// The calls that there are, in words.
    const CALLS: &'static str;

    /// The replies that there are, in words.
    const REPLIES: &'static str;

    /// The words of invocations and responses.
    ghost wording: { Wording Self.Inv Self.Resp };

    /// Reads an invocation from its words. `None` where the words are none.
    fn read_inv(words: &[&[u8]]) -> Option<Self::Inv>
        ensures { result ≡ wording.inv_of_words (bytes_of words.now) };

    /// Reads a response from its words. `None` where the words are none.
    fn read_resp(words: &[&[u8]]) -> Option<Self::Resp>
        ensures { result ≡ wording.resp_of_words (bytes_of words.now) };

    /// Writes an invocation after a text.
    ///
    /// An `Err` says that memory was refused.
    fn push_inv(text: &mut Vec<u8>, inv: &Self::Inv) -> Result<(), AllocError>
        ensures { OnOk result (text.new.items ≡ text.old.items ++ wording.inv_text inv.now) };

    /// Writes a response after a text.
    ///
    /// An `Err` says that memory was refused.
    fn push_resp(text: &mut Vec<u8>, resp: Self::Resp) -> Result<(), AllocError>
        ensures { OnOk result (text.new.items ≡ text.old.items ++ wording.resp_text resp) };
}

/// The number from 0 to 999,999,999,999 that a word writes in decimal, without leading zeros.
pub(crate) fn number(word: &[u8]) -> Option<u64>
    ensures { result ≡ number_of_word word.now }
{
    Some(Amount::read(word)?.number())
}

/// Writes a word and a number after a text.
pub(crate) fn push_words(text: &mut Vec<u8>, word: &str, number: u64) -> Result<(), AllocError>
    ensures { OnOk result (text.new.items ≡ text.old.items ++ (word.now ++ decimal number)) }
{
    text.extend_from_slice(word.as_bytes())?;
    push_number(text, number)
}
