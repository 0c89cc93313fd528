//! What is recorded.

ghost use Rattle.std.specs.Prelude.{◌≡◌};
ghost use Rattle.lin_check.specs.Histories.{process_of};

/// What a process was seen to do.
#[derive(Drop)]
pub enum Event<I: Drop, R: Drop> {
    /// The process begins a call.
    Call(usize, I),
    /// The pending call of the process returns, with this response.
    Return(usize, R),
}

impl<I: Drop, R: Drop> Event<I, R> {
    /// The process.
    pub fn process(&self) -> usize
        ensures { result ≡ process_of self.now }
    {
        match self {
            Event::Call(p, _) => *p,
            Event::Return(p, _) => *p,
        }
    }
}
