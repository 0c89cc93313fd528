//! What an object of several words is.
ghost use Rattle.std.specs.Prelude.{◌≡◌, length};
ghost use Rattle.uni_small.specs.Image.{IsReached, IsSteady, Meaning};
ghost use Rattle.uni_small.specs.Touched.{AreSameOutside};

use crate::touched::Touched;

/// A sequential object whose states, invocations and replies are words, of each so many as the object says.
///
/// The record `meaning` is what the object means.
pub trait SmallObject: Drop {
    /// What the object means: its start state, for each state and invocation the next state and the reply,
    /// and how many words an invocation and a reply have.
    ghost meaning: { Self → Meaning };

    /// How many words a state has.
    fn width(&self) -> u64
        ensures { result ≡ length (meaning self.now).object.initial };

    /// How many words an invocation has.
    fn invocation_width(&self) -> u64
        ensures { result ≡ (meaning self.now).invocation };

    /// How many words a reply has: one at least.
    fn reply_width(&self) -> u64
        ensures { result ≡ (meaning self.now).reply };

    /// Writes the start state.
    fn start(&self, state: &mut [u64])
        requires { length state.old ≡ length (meaning self.now).object.initial }
        ensures { state.new ≡ (meaning self.now).object.initial };

    /// Applies an invocation to a state that calls lead to, and writes the reply.
    fn apply(&self, state: &mut [u64], invocation: &[u64], reply: &mut [u64])
        requires wide { length state.old ≡ length (meaning self.now).object.initial }
        requires invocation { length invocation.now ≡ (meaning self.now).invocation }
        requires reply { length reply.old ≡ (meaning self.now).reply }
        requires reached { IsReached (meaning self.now).object state.old }
        ensures state { state.new ≡ (meaning self.now).object.next state.old invocation.now }
        ensures reply { reply.new ≡ (meaning self.now).object.answer state.old invocation.now };

    /// Which words of a state that calls lead to an invocation may change: all of them, where an object doesn't say.
    /// Where no other process brought in a version since its own last one, a call compares and stores no others.
    fn touches(&self, state: &[u64], invocation: &[u64]) -> Touched
        requires wide { length state.now ≡ length (meaning self.now).object.initial }
        requires invocation { length invocation.now ≡ (meaning self.now).invocation }
        requires reached { IsReached (meaning self.now).object state.now }
        ensures { AreSameOutside result state.now ((meaning self.now).object.next state.now invocation.now) }
    {
        Touched {
            head: self.width(),
            from: 0,
            to: 0,
        }
    }

    /// No invocation changes how many words a state has, and each is answered with a whole reply.
    ghost steady: { (o : Self) → IsSteady (meaning o).object (meaning o).reply };
}
