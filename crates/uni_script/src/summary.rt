//! How much a script has done.

ghost use Rattle.std.specs.Prelude.{◌≡◌};
ghost use Rattle.uni_script.specs.Meaning.{session_of};
ghost use Rattle.uni_script.specs.Summary.{summary_of};

use ready_objects::Spoken;
use uni_record::Recorded;

/// How much a script has done.
#[derive(Clone, Copy, Debug, PartialEq, Eq)]
pub struct Summary {
    /// How many lines it has, notes included.
    pub lines: u64,
    /// How many calls were begun.
    pub calls: u64,
    /// How many of them have returned.
    pub returns: u64,
}

/// The summary of a script of so many lines that has left this record.
pub fn summary_of<O: Spoken>(session: &Recorded<O>, lines: u64) -> Summary
    ensures { result ≡ summary_of (record { object = O.sequential session.now.world.object; language = O.language })
        lines (session_of session.now) }
{
    session.promise();
    Summary {
        lines,
        calls: session.events().calls(),
        returns: session.returns().len() as u64,
    }
}
