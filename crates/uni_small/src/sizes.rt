//! How many processes and words an object has.
ghost use Rattle.std.specs.Prelude.{IsTrue, ◌↔◌};
ghost use Rattle.uni_small.specs.TooWide.{IsTooWide};

/// How many processes there are, and how many words a state, an invocation and a reply has.
#[derive(Clone, Copy, Debug, PartialEq, Eq, Drop)]
pub struct Sizes {
    pub processes: u64,
    pub state: u64,
    pub invocation: u64,
    pub reply: u64,
}

/// The greatest number of words of a state, of an invocation and of a reply.
pub const MAX_WIDTH: u64 = 65_536;

impl Sizes {
    /// Whether a state, an invocation or a reply has too many words, or a reply has none.
    pub fn are_too_wide(&self) -> bool
        ensures { IsTrue result ↔ IsTooWide self.now.state self.now.invocation self.now.reply }
    {
        self.state > MAX_WIDTH
            || self.invocation > MAX_WIDTH
            || self.reply == 0
            || self.reply > MAX_WIDTH
    }
}
