//! Where each event and each refusal stands from left to right, and each process from the top down: as far as numbers
//! go.

ghost use Rattle.std.specs.Prelude.{◌≡◌, ◌≤◌};
ghost use Rattle.run_layout.specs.Axis.{is_between, lanes_between, most_between};

use crate::refusals::{Told, told_of};
use crate::wording::{counts_of, label_of, line_of};
use run_replay::{Bar, Era, Marks};
use signs::{Edge, Layout, Span};
use std::alloc::{AllocError, Global};
use uni_script::PlacedRemark;

/// How many events a picture has at most.
pub const MOST_EVENTS: u64 = 2_000;

/// How many lanes a picture has at most: a script has no more processes.
pub const MOST_LANES: u64 = 64;

/// How many letters of a text have room at most. A line of a script has at most 200 bytes.
const MOST_LETTERS: usize = 1_000;

/// How wide things are, and how high lanes.
#[derive(Clone, Copy)]
pub struct Scale {
    /// Where the first column begins.
    pub start: u64,
    /// The column of a step.
    pub step: u64,
    /// A letter.
    pub letter: u64,
    /// What stands beside a word: the mark of a refusal, or the room round a label.
    pub mark: u64,
    /// What is right of the last column.
    pub margin: u64,
    /// Where the first lane begins.
    pub top: u64,
    /// A lane.
    pub lane: u64,
}

/// Which part of a column.
#[derive(Clone, Copy)]
pub enum Side {
    /// Its left.
    Left,
    /// Its middle.
    Middle,
}

/// Where an era stands.
#[derive(Clone, Copy)]
pub struct Stretch {
    /// Where it begins.
    pub from: u64,
    /// Where it ends.
    pub to: u64,
    /// How many lanes it has.
    pub lanes: u64,
}

impl Stretch {
    /// Whether it is there from a place on and before another.
    fn is_between(&self, from: u64, to: u64) -> bool
        ensures { result ≡ is_between from to self.now }
    {
        self.from < to && from < self.to
    }
}

/// The most lanes of an era that is there from a place on and before another.
fn most_between(stretches: &[Stretch], from: u64, to: u64) -> u64
    ensures { result ≡ most_between stretches.now from to }
{
    let there = stretches.iter().copied();
    there
        .filter(|stretch| stretch.is_between(from, to))
        .fold(0, |most: u64, stretch| stretch.lanes.max(most))
}

/// The most lanes of an era that is there from a place on and before another, 64 at most.
pub fn lanes_between(stretches: &[Stretch], from: u64, to: u64) -> u64
    ensures few { result ≤ 64 }
    ensures most { result ≡ lanes_between stretches.now from to }
{
    most_between(stretches, from, to).min(MOST_LANES)
}

/// The columns of a run.
#[derive(Drop)]
pub struct Axis {
    /// Where its events and its processes stand.
    pub layout: Layout,
    /// Where what is told beside them stands; a note takes no room, and has the place of what follows it.
    pub remarks: Vec<Span>,
}

impl Axis {
    /// Where what is told begins; the end of all of what isn't there.
    pub fn remark(&self, place: usize) -> u64 {
        let column = self.remarks.get(place);
        column.map_or(self.layout.width, |column| column.from)
    }

    /// Where an event ends an era: at the left of its column, or in its middle.
    fn end(&self, event: u64, side: Side) -> u64 {
        let Span { from, to } = self.layout.wide((Edge::Before(event), Edge::After(event)));
        match side {
            Side::Left => from,
            Side::Middle => from.saturating_add(to.saturating_sub(from) / 2),
        }
    }

    /// Where eras stand, from a place to the end of all: each ends with its last event. An `Err` says that memory was
    /// refused.
    pub fn stretches(
        &self,
        alloc: Global,
        eras: &[Era],
        from: u64,
        side: Side,
    ) -> Result<Vec<Stretch>, AllocError> {
        let mut stretches = Vec::new(alloc);
        let mut from = from;
        for (place, era) in eras.iter().enumerate() {
            let lanes = era.processes;
            let to = match eras[place + 1..].first() {
                Some(next) => self.end(next.from.saturating_sub(1), side),
                None => self.layout.width,
            };
            stretches.push(Stretch { from, to, lanes })?;
            from = to;
        }
        Ok(stretches)
    }
}

/// How many letters of a text have room.
pub fn letters(text: &[u8]) -> u64 {
    text.len().min(MOST_LETTERS) as u64
}

/// How wide a label is, with the room beside it.
fn label_room(text: &[u8], scale: Scale) -> u64 {
    letters(text).saturating_add(1).saturating_mul(scale.letter)
}

/// How wide what is told is: a refusal has its mark and its label, a note nothing.
fn told_room(told: &Told, scale: Scale) -> u64 {
    match &told.label {
        Some(label) => label_room(label, scale).saturating_add(scale.mark),
        None => 0,
    }
}

/// How wide the bar of a call is at least: it takes its label, and its counts where it has returned.
fn texts_room(alloc: Global, bar: &Bar, scale: Scale) -> Result<u64, AllocError> {
    let label = label_room(&label_of(alloc, bar)?, scale);
    match &bar.end {
        Some(end) => Ok(label_room(&counts_of(alloc, end)?, scale).max(label)),
        None => Ok(label),
    }
}

/// How wide the column of a call is: its bar takes its texts, and each further event of it has the room of a step.
fn bar_room(alloc: Global, bar: &Bar, events: u64, scale: Scale) -> Result<u64, AllocError> {
    let rest = bar.last(events).min(events).saturating_sub(bar.from);
    let texts = texts_room(alloc, bar, scale)?;
    Ok(texts.saturating_sub(rest.saturating_mul(scale.step)))
}

/// How wide the column of an event is: that of a step, but so wide that it takes the label of each bar that
/// begins with it, or of the end of an era.
fn width_of(alloc: Global, marks: &Marks, event: u64, scale: Scale) -> Result<u64, AllocError> {
    let mut width = scale.step;
    for line in &marks.lines {
        if line.event == event {
            width = label_room(&line_of(alloc, line)?, scale).max(width);
        }
    }
    for bar in &marks.bars {
        if bar.from == event {
            width = bar_room(alloc, bar, marks.events, scale)?.max(width);
        }
    }
    Ok(width)
}

/// Adds a column of a width, from a place on; the answer is where it ends.
fn push_column(columns: &mut Vec<Span>, from: u64, width: u64) -> Result<u64, AllocError> {
    let to = from.saturating_add(width);
    columns.push(Span { from, to })?;
    Ok(to)
}

/// Adds what is told before an event and isn't there yet, from a place on; the answer is where it ends.
fn push_told(
    told: &[Told],
    event: u64,
    from: u64,
    scale: Scale,
    columns: &mut Vec<Span>,
) -> Result<u64, AllocError> {
    let mut end = from;
    for one in told.iter().skip(columns.len()) {
        if one.before > event {
            return Ok(end);
        }
        end = push_column(columns, end, told_room(one, scale))?;
    }
    Ok(end)
}

/// Where each event and each remark stands: a remark before the event that it was told before. An `Err` says that
/// memory was refused.
pub fn axis_of(
    alloc: Global,
    marks: &Marks,
    remarks: &[PlacedRemark],
    scale: Scale,
) -> Result<Axis, AllocError> {
    let told = told_of(alloc, remarks)?;
    let mut columns = Vec::new(alloc);
    let mut remarks = Vec::new(alloc);
    let mut end = scale.start;
    for event in 0..marks.events {
        end = push_told(&told, event, end, scale, &mut remarks)?;
        end = push_column(&mut columns, end, width_of(alloc, marks, event, scale)?)?;
    }
    end = push_told(&told, u64::MAX, end, scale, &mut remarks)?;
    let width = push_column(&mut columns, end, scale.margin)?;
    let mut lanes = Vec::new(alloc);
    let mut height = scale.top;
    for _ in 0..marks.lanes().min(MOST_LANES) {
        height = push_column(&mut lanes, height, scale.lane)?;
    }
    let layout = Layout {
        columns,
        lanes,
        width,
        height,
    };
    Ok(Axis { layout, remarks })
}
