//! What is wrong with a line.

ghost use Rattle.history_text.specs.Refused.{IsOnLine};

use std::alloc::AllocError;
use std::error::Error;
use std::fmt;

/// Why a line is refused.
#[derive(Clone, Copy, Debug, PartialEq, Eq)]
pub enum Reason {
    /// The first line that says something is of no format.
    NoFormat,
    /// A byte isn't from 32 to 126.
    BadByte(u8),
    /// The line ends with a carriage return, as in a file of Windows.
    CarriageReturn,
    /// There is a tab.
    Tab,
    /// A space stands first.
    SpaceFirst,
    /// A space stands last.
    SpaceLast,
    /// Two spaces stand side by side.
    TwoSpaces,
    /// The line begins with none of `call`, `return` and `lost`.
    NoEvent,
    /// A word is missing; this is the form.
    Missing(&'static str),
    /// There is a word more than in this form.
    Extra(&'static str),
    /// A process is a number from 0 to 65,535.
    NoProcess,
    /// A process is 1 to 20 letters, digits, `_` and `-`.
    NoName,
    /// There are more than 65,536 processes.
    ManyProcesses,
    /// The object has no such call; it has these.
    NoCall(&'static str),
    /// The object has no such reply; it has these.
    NoReply(&'static str),
    /// The process begins a call, and its call before hasn't returned.
    Busy,
    /// The process returns, or fails, and has no call.
    Idle,
    /// The process was lost before.
    Lost,
    /// There is no `->` between a call and its reply.
    NoArrow,
    /// A time stamp is a number from 0 to 18,446,744,073,709,551,615.
    NoStamp,
    /// The call returns before it begins.
    Backwards,
    /// A map begins with `{`.
    NoMap,
    /// A bracket or a quotation mark isn't closed.
    Open,
    /// There is a word or a bracket after the map.
    AfterMap,
    /// The map has no such member.
    NoMember(&'static str),
    /// A type is none of invoke, ok, fail and info.
    NoType,
}

impl Reason {
    /// What is said of it, in two parts; between them stands the byte, where there is one.
    fn texts(&self) -> (&'static str, &'static str) {
        match self {
            Reason::NoFormat => ("no history begins so: see 'unicheck --help'", ""),
            Reason::BadByte(_) => ("byte ", " isn't from 32 to 126"),
            Reason::CarriageReturn => ("a carriage return: the file has Windows line ends", ""),
            Reason::Tab => ("a tab: between two words there is one space", ""),
            Reason::SpaceFirst => ("a space first: a line begins with its first word", ""),
            Reason::SpaceLast => ("a space last: a line ends with its last word", ""),
            Reason::TwoSpaces => ("two spaces: there is one between two words", ""),
            Reason::NoEvent => ("unknown event: there are call, return and lost", ""),
            Reason::Missing(form) => ("a word is missing: ", form),
            Reason::Extra(form) => ("a word too many: ", form),
            Reason::NoProcess => ("a process is a number from 0 to 65535", ""),
            Reason::NoName => ("a process is 1 to 20 letters, digits, _ and -", ""),
            Reason::ManyProcesses => ("there are more than 65536 processes", ""),
            Reason::NoCall(calls) => ("no such call: there are ", calls),
            Reason::NoReply(replies) => ("no such reply: there are ", replies),
            Reason::Busy => ("the process has a call that hasn't returned", ""),
            Reason::Idle => ("the process has no call", ""),
            Reason::Lost => ("the process was lost before", ""),
            Reason::NoArrow => ("no arrow: NAME CALL -> REPLY BEGIN END", ""),
            Reason::NoStamp => (
                "a time stamp is a number from 0 to 18446744073709551615",
                "",
            ),
            Reason::Backwards => ("the call ends before it begins", ""),
            Reason::NoMap => ("a map begins with an open brace", ""),
            Reason::Open => ("a bracket or a quotation mark is left open", ""),
            Reason::AfterMap => ("one map stands on a line", ""),
            Reason::NoMember(name) => ("the map has no ", name),
            Reason::NoType => ("a type is invoke, ok, fail or info", ""),
        }
    }
}

impl fmt::Display for Reason {
    fn fmt<W: fmt::Write>(&self, f: &mut fmt::Formatter<W>) -> fmt::Result {
        let (text, rest) = self.texts();
        match self {
            Reason::BadByte(byte) => write!(f, "{text}{byte}{rest}"),
            _ => write!(f, "{text}{rest}"),
        }
    }
}

/// A line that is refused.
#[derive(Clone, Copy, Debug, PartialEq, Eq)]
pub struct Fault {
    /// The number of the line, from 1.
    pub line: u64,
    /// The byte of the line, from 1; one more than the line has, where something is missing.
    pub column: u64,
    /// Why.
    pub reason: Reason,
}

impl fmt::Display for Fault {
    fn fmt<W: fmt::Write>(&self, f: &mut fmt::Formatter<W>) -> fmt::Result {
        write!(
            f,
            "line {}, column {}: {}",
            self.line, self.column, self.reason
        )
    }
}

impl Error for Fault {}

/// Why a text is no history.
#[derive(Clone, Copy, Debug, PartialEq, Eq)]
pub enum ReadError {
    /// A line is refused.
    Refused(Fault),
    /// Memory was refused.
    Memory,
}

impl From<AllocError> for ReadError {
    ghost use Rattle.std.specs.Prelude.{◌≡◌};
    ghost use Rattle.history_text.specs.declared.fault.ReadError.TheVariants.{Memory};

    ghost from_gives = { λ _ error. error ≡ Memory };

    fn from(_: AllocError) -> ReadError {
        ReadError::Memory
    }
}

/// What is wrong with a line, and at which byte of it, from 0.
#[derive(Clone, Copy)]
pub(crate) struct Spot {
    pub(crate) start: usize,
    pub(crate) reason: Reason,
}

impl Spot {
    /// The fault of this line.
    pub(crate) fn on(self, line: u64) -> ReadError
        ensures { IsOnLine line result }
    {
        ReadError::Refused(Fault {
            line,
            column: (self.start as u64).saturating_add(1),
            reason: self.reason,
        })
    }
}
