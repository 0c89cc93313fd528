//! What an object of words is.
ghost use Rattle.std.specs.Prelude.{ℕ, ◌≡◌, ◌<◌, ◌^◌};
ghost use Rattle.seq_object.specs.Sequential.{Sequential};

/// A sequential object whose states, invocations and replies are numbers.
///
/// The record `sequential` is what the object means. States and replies are below 2^31, whatever the
/// invocation is, as long as the states that are handed in are.
pub trait WordObject: Drop {
    /// What the object means: its start state, and for each state and invocation the next state and
    /// the reply.
    ghost sequential: { Self → Sequential ℕ ℕ ℕ };

    /// The start state.
    fn start(&self) -> u32
        ensures value { result ≡ (sequential self.now).initial }
        ensures fits { result < 2 ^ 31 };

    /// The state after an invocation, in a state below 2^31.
    fn next(&self, state: u32, inv: u64) -> u32
        requires { state < 2 ^ 31 }
        ensures value { result ≡ (sequential self.now).next state inv }
        ensures fits { result < 2 ^ 31 };

    /// The reply to an invocation, in a state below 2^31.
    fn answer(&self, state: u32, inv: u64) -> u32
        requires { state < 2 ^ 31 }
        ensures value { result ≡ (sequential self.now).answer state inv }
        ensures fits { result < 2 ^ 31 };
}
