//! Numbers for the processes of a history, in the order in which they are first told of.

use crate::fault::{ReadError, Reason, Spot};
use std::alloc::{AllocError, Global};

/// The names that have numbers, in the order of these.
#[derive(Drop)]
pub(crate) struct Names<'a> {
    names: Vec<&'a [u8]>,
}

impl<'a> Names<'a> {
    /// None.
    pub(crate) fn new(alloc: Global) -> Names<'a> {
        Names {
            names: Vec::new(alloc),
        }
    }

    /// The number of a name of this line, from 0.
    ///
    /// An `Err` says that 65,536 others have one, or that memory was refused.
    pub(crate) fn number_of(&mut self, name: &'a [u8], line: u64) -> Result<usize, ReadError> {
        if let Some(number) = self.names.iter().position(|other| *other == name) {
            return Ok(number);
        }
        let number = self.names.len();
        if number >= 65_536 {
            let reason = Reason::ManyProcesses;
            return Err(Spot { start: 0, reason }.on(line));
        }
        self.names.push(name).map_err(AllocError::from)?;
        Ok(number)
    }
}

/// Whether a word can name a process: it is 1 to 20 letters, digits, `_` and `-`.
pub(crate) fn is_name(word: &[u8]) -> bool {
    !word.is_empty()
        && word.len() <= 20
        && word.iter().all(|byte| byte.is_ascii_alphanumeric() || *byte == b'_' || *byte == b'-')
}
