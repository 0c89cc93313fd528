//! A reader that gives a text in pieces.

ghost use Rattle.std.specs.Prelude.{◌≡◌, false, Some};

use std::io::Read;
use uni_script::{Failed, TextIn};

/// A reader of a text that gives at most so many bytes of it at a time.
#[derive(Drop)]
pub struct Pieces<'a> {
    left: &'a [u8],
    most: usize,
}

impl Pieces<'_> {
    /// A reader of this text, which gives at most this many bytes of it at a time, and at least one.
    pub fn of(left: &[u8], most: usize) -> Pieces<'_>
        ensures text { result.left.now ≡ left.now }
        ensures most { result.most ≡ most }
    {
        Pieces { left, most }
    }
}

impl TextIn for Pieces<'_> {
    ghost remaining = { λ pieces. Some pieces.left.now };

    ghost has_failed = { λ _. false };

    fn read(&mut self, buffer: &mut [u8]) -> Result<usize, Failed> {
        let most = self.most.max(1);
        let count = self.left.len().min(most).min(buffer.len());
        buffer[..count].copy_from_slice(&self.left[..count]);
        self.left = &self.left[count..];
        Ok(count)
    }

    fn failed(&self) -> bool {
        false
    }
}
