//! The shapes that marks are to have, and where events and processes stand.

ghost use Rattle.std.specs.Prelude.{◌≡◌};
ghost use Rattle.signs.specs.Signs.{earliest_end, edge_at, high_of, latest_start, places_shown, span_at, wide_of};

/// What a shape tells by its looks.
#[derive(Clone, Copy, Debug, PartialEq, Eq)]
pub enum Look {
    /// A step.
    Step,
    /// A step that changed nothing.
    Pale,
    /// A call that has returned.
    Bar,
    /// An edge of one that hasn't.
    Edge,
    /// Where a call took effect.
    Dot,
    /// An arrow of help.
    Arrow,
    /// Its tip.
    Tip,
    /// The end of an era.
    End,
    /// A line of a cross, which a refusal has.
    Cross,
    /// A text.
    Text,
}

/// From one place to another.
#[derive(Clone, Copy)]
pub struct Span {
    /// Where it begins.
    pub from: u64,
    /// Where it ends.
    pub to: u64,
}

/// An edge of a column, from left to right.
#[derive(Clone, Copy)]
pub enum Edge {
    /// Where all begins.
    Start,
    /// Where the column of an event begins.
    Before(u64),
    /// Where it ends.
    After(u64),
    /// Where all ends.
    End,
}

/// Where events and processes stand.
#[derive(Drop)]
pub struct Layout {
    /// The column of each event, and one after them.
    pub columns: Vec<Span>,
    /// The lane of each process.
    pub lanes: Vec<Span>,
    /// How wide all is.
    pub width: u64,
    /// How high all is.
    pub height: u64,
}

/// One of some spans; where there is none nothing stands.
fn span_at(spans: &[Span], place: u64) -> Span
    ensures { result ≡ span_at spans.now place }
{
    match spans.get(place as usize) {
        Some(span) => *span,
        None => Span { from: 1, to: 0 },
    }
}

impl Layout {
    /// Where an edge stands.
    fn edge(&self, edge: Edge) -> u64
        ensures { result ≡ edge_at (places_shown self.now) edge }
    {
        match edge {
            Edge::Start => 0,
            Edge::Before(event) => span_at(&self.columns, event).from,
            Edge::After(event) => span_at(&self.columns, event).to,
            Edge::End => self.width,
        }
    }

    /// The furthest right that a bar begins whose left end is to be at an edge.
    pub fn latest_start(&self, edge: Edge) -> u64
        ensures { result ≡ latest_start (places_shown self.now) edge }
    {
        match edge {
            Edge::Before(event) => span_at(&self.columns, event).to,
            _ => self.width,
        }
    }

    /// The furthest left that a bar ends whose right end is to be at an edge.
    pub fn earliest_end(&self, edge: Edge) -> u64
        ensures { result ≡ earliest_end (places_shown self.now) edge }
    {
        match edge {
            Edge::After(event) => span_at(&self.columns, event).from,
            _ => 0,
        }
    }

    /// From one edge to another.
    pub fn wide(&self, columns: (Edge, Edge)) -> Span
        ensures { result ≡ wide_of (places_shown self.now) columns }
    {
        Span {
            from: self.edge(columns.0),
            to: self.edge(columns.1),
        }
    }

    /// From the lane of one process to that of another, or from the top of all to the bottom.
    pub fn high(&self, lanes: Option<(u64, u64)>) -> Span
        ensures { result ≡ high_of (places_shown self.now) lanes }
    {
        match lanes {
            Some((first, last)) => Span {
                from: span_at(&self.lanes, first).from,
                to: span_at(&self.lanes, last).to,
            },
            None => Span {
                from: 0,
                to: self.height,
            },
        }
    }
}

/// A shape that a mark is to have.
#[derive(Drop)]
pub struct Part {
    /// How it looks.
    pub look: Look,
    /// Between which edges it stands.
    pub columns: (Edge, Edge),
    /// In which lanes, the upper and the lower one; `None` where it stands above or across all.
    pub lanes: Option<(u64, u64)>,
    /// What it says.
    pub text: Vec<u8>,
}
