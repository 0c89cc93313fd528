//! Processes one after another.
ghost use Rattle.std.specs.Prelude.{◌≢◌, ◌*◌, ◌<◌, ◌≤◌, ℕ};
ghost use Rattle.uni_small.specs.Kept.{IsOutside};

/// The processes from one on that are before another one.
#[derive(Clone, Copy)]
pub(crate) struct Span {
    pub from: u64,
    pub to: u64,
}

impl Span {
    /// No process.
    pub const NONE: Span = Span { from: 0, to: 0 };

    /// These processes and those, and perhaps some between them. Each of them has a row of so many words.
    pub fn join(self, more: Span) -> Span
        requires ordered { (self.from ≤ self.to) × (more.from ≤ more.to) }
        ensures ordered { result.from ≤ result.to }
        ensures last { (most : ℕ) → self.to ≤ most → more.to ≤ most → result.to ≤ most }
        ensures beside { (wide i : ℕ) → IsOutside (result.from * wide) (result.to * wide) i
            → IsOutside (self.from * wide) (self.to * wide) i × IsOutside (more.from * wide) (more.to * wide) i }
    {
        if self.from == self.to {
            return more;
        }
        if more.from == more.to {
            return self;
        }
        Span {
            from: self.from.min(more.from),
            to: self.to.max(more.to),
        }
    }

    /// These processes, and process r.
    pub fn with(self, r: u64) -> Span
        requires ordered { self.from ≤ self.to }
        requires few { r < 64 }
        ensures ordered { result.from ≤ result.to }
        ensures last { (most : ℕ) → self.to ≤ most → r < most → result.to ≤ most }
        ensures beside { (q : ℕ) → IsOutside result.from result.to q → IsOutside self.from self.to q × (q ≢ r) }
    {
        self.join(Span { from: r, to: r + 1 })
    }
}
