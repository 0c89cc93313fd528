//! Where the words and the slots of the buffers lie.
ghost use Rattle.std.specs.Prelude.{◌≡◌, ◌+◌, ◌*◌, ◌<◌};
ghost use Rattle.triple_buffers.specs.Buffer.{IsSmall, slot_at, word_at};

/// How many words there are, beside those of the buffers, and how many parties.
#[derive(Clone, Copy, Debug, PartialEq, Eq, Drop)]
pub struct Layout {
    pub words: u64,
    pub parties: u64,
}

impl Layout {
    /// The word of the buffer of one party for another.
    pub(crate) fn word(&self, from: u64, to: u64) -> usize
        requires small { IsSmall self.now }
        requires inside { (from < self.now.parties) × (to < self.now.parties) }
        ensures { result ≡ word_at self.now from to }
    {
        (self.words + to * self.parties + from) as usize
    }

    /// A slot of that buffer.
    pub(crate) fn slot(&self, from: u64, to: u64, place: u64) -> usize
        requires small { IsSmall self.now }
        requires inside { (from < self.now.parties) × (to < self.now.parties) × (place < 3) }
        ensures { result ≡ slot_at self.now from to place }
    {
        (3 * (to * self.parties + from) + place) as usize
    }
}
