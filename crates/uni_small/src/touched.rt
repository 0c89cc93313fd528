//! Which words of a state a call may change.
ghost use Rattle.std.specs.Prelude.{◌≡◌, ◌≤◌, ◌<◌, ◌⊎◌, ℕ, length, slice_index};
ghost use Rattle.uni_small.specs.Touched.{IsUntouched, all_changes};

use crate::span::Span;

/// Words of a state: those below `head`, and those from `from` up to, but not including, `to`.
#[derive(Clone, Copy, Debug, PartialEq, Eq)]
pub struct Touched {
    /// How many words there are at the head of the state.
    pub head: u64,
    /// The first of the other words.
    pub from: u64,
    /// The word after the last of them.
    pub to: u64,
}

/// Copies the words from the word `first` on that are before the word `end` of one state to another one.
fn copy_between(from: &[u64], to: &mut [u64], first: u64, end: u64)
    requires { length from.now ≡ length to.old }
    ensures long { length to.new ≡ length to.old }
    ensures between { (i : ℕ) → i < length to.old → first ≤ i → i < end
        → slice_index to.new i ≡ slice_index from.now i }
    ensures beside { (i : ℕ) → (i < first) ⊎ (end ≤ i) → slice_index to.new i ≡ slice_index to.old i }
{
    let last = end.min(from.len() as u64);
    for i in first..last {
        to[i as usize] = from[i as usize];
    }
}

impl Touched {
    /// No word.
    pub(crate) const NONE: Touched = Touched {
        head: 0,
        from: 0,
        to: 0,
    };

    /// All words.
    pub(crate) const ALL: Touched = Touched {
        head: u64::MAX,
        from: 0,
        to: 0,
    };

    /// These words and those, and perhaps some between them.
    pub(crate) fn with(self, more: Touched) -> Touched
        ensures { (i : ℕ) → IsUntouched result i → IsUntouched self i × IsUntouched more i }
    {
        let head = self.head.max(more.head);
        if self.from >= self.to {
            return Touched { head, ..more };
        }
        if more.from >= more.to {
            return Touched { head, ..self };
        }
        Touched {
            head,
            from: self.from.min(more.from),
            to: self.to.max(more.to),
        }
    }

    /// The first of these words from this one on, or a word that no state has.
    fn next(self, i: u64) -> u64
        ensures later { i ≤ result }
        ensures between { (j : ℕ) → i ≤ j → j < result → IsUntouched self j }
    {
        if i < self.head {
            return i;
        }
        if self.from >= self.to || self.to <= i {
            return u64::MAX;
        }
        self.from.max(i)
    }

    /// Copies these words of one state to another one.
    pub(crate) fn copy(self, from: &[u64], to: &mut [u64])
        requires { length from.now ≡ length to.old }
        ensures long { length to.new ≡ length to.old }
        ensures kept { (i : ℕ) → IsUntouched self i → slice_index to.new i ≡ slice_index to.old i }
        ensures copied { (i : ℕ) → i < length to.old
            → IsUntouched self i ⊎ (slice_index to.new i ≡ slice_index from.now i) }
    {
        copy_between(from, to, 0, self.head);
        copy_between(from, to, self.from, self.to);
    }

    /// The first of these words or those from this one on, or a word that no state has.
    pub(crate) fn next_of(self, other: Touched, i: u64) -> u64
        ensures later { i ≤ result }
        ensures between { (j : ℕ) → i ≤ j → j < result → IsUntouched self j × IsUntouched other j }
    {
        let (first, second) = (self.next(i), other.next(i));
        if first < second { first } else { second }
    }
}

/// What a batch of calls changes of a buffer at most: the rows of these processes, and these words of the state.
#[derive(Clone, Copy)]
pub(crate) struct Changes {
    pub calls: Span,
    pub state: Touched,
}

impl Changes {
    /// All of it, where there are so many processes.
    pub fn all(processes: u64) -> Changes
        ensures { result ≡ all_changes processes }
    {
        Changes {
            calls: Span {
                from: 0,
                to: processes,
            },
            state: Touched::ALL,
        }
    }
}
