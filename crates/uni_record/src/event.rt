//! The events that a record stores.

ghost use Rattle.std.specs.Prelude.{◌≡◌};
ghost use Rattle.uni_record.specs.Event.{event_lent};

/// What has happened to a world that is recorded.
#[derive(Debug, Drop, PartialEq, Eq)]
pub enum Event<I> {
    /// This process has begun a call that asks for this.
    Call(u64, I),
    /// This process has taken the next step of its pending call.
    Step(u64),
    /// An era has ended, under as many processes as before.
    Trim,
    /// An era has ended, and there have been so many processes since.
    Reshape(u64),
}

impl<I> Event<I> {
    /// The event with what it asks for lent.
    pub fn as_ref(&self) -> Event<&I>
        ensures { event_lent result ≡ self.now }
    {
        match self {
            Event::Call(p, inv) => Event::Call(*p, inv),
            Event::Step(p) => Event::Step(*p),
            Event::Trim => Event::Trim,
            Event::Reshape(n) => Event::Reshape(*n),
        }
    }
}
