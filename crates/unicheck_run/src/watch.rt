//! How far a run is.

/// What a run comes to, and may take long with.
#[derive(Clone, Copy, Debug, PartialEq, Eq)]
pub enum Stage {
    /// A history of so many events was read, and an order of its calls is looked for.
    Order(usize),
    /// There is none. The first event with which there is none is looked for.
    FirstBad,
    /// Nothing more is looked for.
    End,
}

/// Who is told how far a run is.
pub trait Watch {
    /// The run comes to a stage.
    fn comes_to(&self, stage: Stage);
}
