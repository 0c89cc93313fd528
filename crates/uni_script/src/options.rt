//! What a run of a script can be told.

ghost use Rattle.std.specs.Prelude.{◌≡◌, ◌++◌, OnOk};
ghost use Rattle.uni_script.specs.Outcome.{echo_of};

use crate::grammar::Version;
use std::alloc::AllocError;

/// Whether each line of a script is written before its answers.
#[derive(Clone, Copy, Debug, PartialEq, Eq)]
pub enum Echo {
    /// Answers alone are written.
    Off,
    /// Each line without a fault is written before its answers, after `> `.
    On,
}

/// What a run of a script can be told.
#[derive(Clone, Copy, Debug, PartialEq, Eq)]
pub struct Options {
    /// How many events there can be, from 1 to 16,777,216.
    pub history: u64,
    /// Whether each line is written before its answers.
    pub echo: Echo,
}

impl Options {
    /// A history of so many events, from 1 to 16,777,216, and answers alone.
    pub fn with_history(history: u64) -> Options
        ensures history { result.history ≡ history }
        ensures echo { result.echo ≡ Echo.Off }
    {
        Options {
            history,
            echo: Echo::Off,
        }
    }
}

impl Default for Options {
    ghost use Rattle.std.specs.Prelude.{◌≡◌};
    ghost use Rattle.uni_script.specs.declared.options.Echo.TheVariants.{Off};

    ghost is_default = { λ options. options ≡ record { history = 1048576; echo = Off } };

    /// A history of 1,048,576 events, and answers alone.
    fn default() -> Options {
        Options::with_history(1_048_576)
    }
}

/// How the lines of a script are read and told: the version of its language, and whether its lines are written too.
#[derive(Clone, Copy)]
pub(crate) struct Dialect {
    /// The version.
    pub(crate) version: Version,
    /// Whether each line is written before its answers.
    pub(crate) echo: Echo,
}

/// Writes after a text what comes before the answers of a line.
///
/// An `Err` says that memory was refused.
pub(crate) fn push_echo(text: &mut Vec<u8>, echo: Echo, line: &[u8]) -> Result<(), AllocError>
    ensures { OnOk result (text.new.items ≡ text.old.items ++ echo_of echo line.now) }
{
    match echo {
        Echo::Off => Ok(()),
        Echo::On => {
            text.extend_from_slice(b"> ")?;
            text.extend_from_slice(line)?;
            text.extend_from_slice(b"\n")
        }
    }
}
