//! An object whose replies tell the places of their calls.
ghost use Rattle.std.specs.Prelude.{◌≡◌, ◌<◌, ◌^◌, length};
ghost use Rattle.small_objects.specs.Placed.{placed, placed_steady};

use uni_small::{SmallObject, Touched};

/// An object of several words that counts its calls, in a word before those of the object. A reply's first word is
/// the call's place in the order of all calls, from 0, and behind it is the object's reply.
#[derive(Drop)]
pub struct Placed<O: SmallObject> {
    /// The object.
    pub object: O,
    pub ghost narrow: { (length (O.meaning object).object.initial < 2 ^ 63) × ((O.meaning object).reply < 2 ^ 63) },
}

impl<O: SmallObject> Placed<O> {
    /// The object that tells the places of an object's calls.
    pub fn new(object: O) -> Placed<O>
        requires state { length (O.meaning object).object.initial < 2 ^ 63 }
        requires reply { (O.meaning object).reply < 2 ^ 63 }
        ensures { result.object ≡ object }
    {
        Placed { object }
    }
}

impl<O: SmallObject> SmallObject for Placed<O> {
    ghost meaning = { λ o. placed (O.meaning o.object) };

    fn width(&self) -> u64 {
        self.object.width() + 1
    }

    fn invocation_width(&self) -> u64 {
        self.object.invocation_width()
    }

    fn reply_width(&self) -> u64 {
        self.object.reply_width() + 1
    }

    fn start(&self, state: &mut [u64]) {
        state[0] = 0;
        self.object.start(&mut state[1..]);
    }

    fn apply(&self, state: &mut [u64], invocation: &[u64], reply: &mut [u64]) {
        let place = state[0];
        state[0] = place.wrapping_add(1);
        reply[0] = place;
        self.object
            .apply(&mut state[1..], invocation, &mut reply[1..]);
    }

    fn touches(&self, state: &[u64], invocation: &[u64]) -> Touched {
        let Touched { head, from, to } = self.object.touches(&state[1..], invocation);
        Touched {
            head: head.saturating_add(1),
            from: from.saturating_add(1),
            to: to.saturating_add(1),
        }
    }

    ghost steady = { λ o. placed_steady (O.meaning o.object) (O.steady o.object) };
}
