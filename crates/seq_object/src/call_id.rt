//! The names of calls.

ghost use Rattle.std.specs.Prelude.{◌++◌, Some, codes};
ghost use Rattle.std.specs.Fmt.{decimal};

use std::fmt;

/// The name of a call: it is the call number `nth`, from 0, of a process since the opening.
/// It is printed as the process, a full stop and the number, as `3.0`.
#[derive(Clone, Copy, Debug, PartialEq, Eq)]
pub struct CallId {
    /// The process that calls, from 0.
    pub process: u32,
    /// How many calls of that process came before, since the opening.
    pub nth: u64,
}

impl fmt::Display for CallId {
    ghost output = { λ call. Some (decimal call.process ++ codes "." ++ decimal call.nth) };

    fn fmt<W: fmt::Write>(&self, f: &mut fmt::Formatter<W>) -> fmt::Result {
        write!(f, "{}.{}", self.process, self.nth)
    }
}
