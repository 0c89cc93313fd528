//! Values that are stored in words.
ghost use Rattle.std.specs.Prelude.{List, [], ℕ, ◌≡◌, ◌∷◌, length, refl};
ghost use Rattle.small_objects.specs.Encoding.{first_word, one_word};

/// A type whose values are stored in words, each in as many: the calls of an object, and its replies.
pub trait Words: Drop {
    /// How many words a value has.
    ghost words: { ℕ };

    /// The words of a value.
    ghost encode: { Self → List ℕ };

    /// The value that words are.
    ghost decode: { List ℕ → Self };

    /// What is so of each value.
    ghost valid: { Self → Type 0 } = { λ _. Unit {0} };

    /// How many words a value has.
    fn count() -> u64
        ensures { result ≡ words };

    /// Stores the value in words.
    fn store(&self, to: &mut [u64])
        requires { length to.old ≡ words }
        ensures { to.new ≡ encode self.now };

    /// Loads the value that words are.
    fn load(from: &[u64]) -> Self
        requires { length from.now ≡ words }
        ensures { result ≡ decode from.now };

    /// All values have as many words.
    ghost long: { (x : Self) → length (encode x) ≡ words };

    /// A value that was stored is loaded as it was.
    ghost fits: { (x : Self) → valid x → decode (encode x) ≡ x };
}

#[tactic(auto, using(crate::proofs::Short::one_set))]
impl Words for u64 {
    ghost words = { 1 };

    ghost encode = { one_word };

    ghost decode = { first_word };

    fn count() -> u64 {
        1
    }

    fn store(&self, to: &mut [u64]) {
        to[0] = *self;
    }

    fn load(from: &[u64]) -> u64 {
        from[0]
    }

    ghost long = { λ x. refl };

    ghost fits = { λ x valid. refl };
}
