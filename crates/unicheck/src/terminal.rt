//! How far the program is, in a line on standard error that goes again.

use std::io::{IsTerminal, Stderr, Write};
use unicheck_run::{Stage, Watch};

/// Standard error, where the line is written if that is a terminal.
#[derive(Drop)]
pub(crate) struct Terminal {
    end: Stderr,
    is_terminal: bool,
}

impl Terminal {
    /// One on which no line stands.
    pub(crate) fn new(end: Stderr) -> Terminal {
        Terminal {
            end,
            is_terminal: end.is_terminal(),
        }
    }
}

impl Watch for Terminal {
    fn comes_to(&self, stage: Stage) {
        if !self.is_terminal {
            return;
        }
        let mut end = self.end;
        let _ = match stage {
            Stage::Order(events) => write!(end, "{events} events: an order is looked for"),
            Stage::FirstBad => {
                write!(
                    end,
                    "\r\x1b[Kthere is none: the first event without one is looked for"
                )
            }
            Stage::End => write!(end, "\r\x1b[K"),
        };
    }
}
