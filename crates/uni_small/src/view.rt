//! What a seat knows.
ghost use Rattle.std.specs.Borrow.{ftrue};
ghost use Rattle.std.specs.Prelude.{Option};
ghost use Rattle.uni_small.specs.View.{Known};

use std::marker::{Model, PhantomData};

/// What a seat knows, and the object. No value of it is made.
pub(crate) struct View<O> {
    marker: PhantomData<O>,
    pub ghost known: { Known },
    pub ghost object: { Option O },
}

impl<O> Model for View<O> {
    ghost also_owns = { λ _. ftrue };
}
