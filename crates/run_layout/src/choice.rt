//! Some events of a run, and what is drawn of it where these are chosen.

ghost use Rattle.std.specs.Prelude.{◌≡◌, ◌≤◌, ◌&&◌, ◌-◌, ◌==◌, not, IfOk, List, length, map};
ghost use Rattle.run_layout.specs.Vocabulary.{filter, list_any, bar_shown, cell_shown, era_shown, marks_shown};
ghost use Rattle.run_layout.specs.Vocabulary.{Placed, RunMarks};
ghost use Rattle.run_layout.specs.Choice.{is_by, is_in, meets, all_events, count_in, bar_in, is_bar_in, links_outside};
ghost use Rattle.run_layout.specs.Choice.{era_in, chosen, is_told_in, chosen_remarks, range_fault};

use crate::axis::MOST_EVENTS;
use run_replay::{Bar, BarEnd, CellBox, Dot, Era, EraLine, Marks, StepMark};
use std::alloc::{AllocError, Global};
use uni_script::{PlacedRemark, Remark};

/// Some events of a run, by their numbers from 0.
#[derive(Clone, Copy, Debug, PartialEq, Eq)]
pub struct Range {
    /// The first one.
    pub from: u64,
    /// The last one; `None` where it is the run's.
    pub to: Option<u64>,
}

/// Why some events can't be chosen of a run.
#[derive(Clone, Copy, Debug, PartialEq, Eq)]
pub enum RangeFault {
    /// They begin after the last event of the run.
    PastEnd,
    /// They are more than 2,000.
    TooManyEvents,
}

/// Whether an event isn't after the last one, if there is a last.
fn is_by(event: u64, last: Option<u64>) -> bool
    ensures { result ≡ is_by event last }
{
    match last {
        Some(last) => event <= last,
        None => true,
    }
}

impl Range {
    /// All events: a run is drawn whole.
    pub fn all() -> Range
        ensures range { result ≡ all_events }
        ensures marks { (marks : RunMarks) → chosen result marks ≡ marks }
        ensures remarks { (remarks : List Placed) → chosen_remarks result remarks ≡ remarks }
    {
        Range { from: 0, to: None }
    }

    /// Whether it has an event.
    fn has(self, event: u64) -> bool
        ensures { result ≡ is_in self event }
    {
        self.from <= event && is_by(event, self.to)
    }

    /// Whether it has one of the events from one on to the last one.
    fn meets(self, from: u64, last: Option<u64>) -> bool
        ensures { result ≡ meets self from last }
    {
        is_by(self.from.max(from), self.to) && is_by(self.from, last)
    }

    /// How many of so many events it has.
    pub fn count(self, events: u64) -> u64
        ensures small { result ≤ events }
        ensures count { result ≡ count_in self events }
    {
        let end = match self.to {
            Some(to) => to.saturating_add(1).min(events),
            None => events,
        };
        end.saturating_sub(self.from)
    }

    /// Why it can't be chosen of a run of so many events, if it can't.
    #[tactic(auto, unfolding(crate::specs::Choice::range_fault))]
    pub fn fault(self, events: u64) -> Option<RangeFault>
        ensures { result ≡ range_fault self events }
    {
        if 0 < self.from && events <= self.from {
            return Some(RangeFault::PastEnd);
        }
        if MOST_EVENTS < self.count(events) {
            return Some(RangeFault::TooManyEvents);
        }
        None
    }

    /// Whether a remark is told where these events are chosen: a heading is, and what stands before one of them.
    pub fn tells(self, one: &PlacedRemark) -> bool
        ensures { result ≡ is_told_in self one.now }
    {
        match one.remark {
            Remark::Heading(_) => true,
            Remark::Note(_) | Remark::Refused { .. } => self.has(one.before),
        }
    }

    /// The number of an event from the first one on.
    fn shifted(self, event: u64) -> u64
        ensures { result ≡ event - self.from }
    {
        event.saturating_sub(self.from)
    }
}

/// A call that began before begins with the first event, and one that ends later has no end.
fn bar_in(range: Range, bar: Bar) -> Bar
    ensures { bar_shown result ≡ bar_in range (bar_shown bar) }
{
    let end = bar.end.filter(|end| range.has(end.event));
    Bar {
        call: bar.call,
        from: range.shifted(bar.from),
        words: bar.words,
        end: end.map(|end| BarEnd {
            event: range.shifted(end.event),
            ..end
        }),
    }
}

/// The bars that go over an event which is chosen, in a run of so many.
fn bars_in(alloc: Global, range: Range, events: u64, bars: Vec<Bar>) -> Result<Vec<Bar>, AllocError>
    ensures { IfOk result (λ part. map bar_shown part.items
        ≡ map (bar_in range) (filter (is_bar_in range events) (map bar_shown bars.items))) }
{
    let mut part = Vec::new(alloc);
    for bar in bars {
        if range.meets(bar.from, Some(bar.last(events))) {
            part.push(bar_in(range, bar))?;
        }
    }
    Ok(part)
}

/// Whether a cell was linked by an event that isn't chosen.
fn is_linked_outside(range: Range, dots: &[Dot], cell: &CellBox) -> bool
    ensures { result ≡ list_any (links_outside range (cell_shown cell.now)) dots.now }
{
    dots.iter().any(|dot| {
        !range.has(dot.event)
            && dot.call.process == cell.call.process
            && dot.call.nth == cell.call.nth
    })
}

/// The cells of a run with these dots that weren't linked outside.
fn cells_in(
    alloc: Global,
    range: Range,
    dots: &[Dot],
    cells: Vec<CellBox>,
) -> Result<Vec<CellBox>, AllocError>
    ensures { IfOk result (λ part. map cell_shown part.items
        ≡ filter (λ cell. not (list_any (links_outside range cell) dots.now)) (map cell_shown cells.items)) }
{
    let mut part = Vec::new(alloc);
    for cell in cells {
        if !is_linked_outside(range, dots, &cell) {
            part.push(cell)?;
        }
    }
    Ok(part)
}

/// An era of a run with these dots, without the cells that were linked outside.
fn era_in(alloc: Global, range: Range, dots: &[Dot], era: Era) -> Result<Era, AllocError>
    ensures { IfOk result (λ part. era_shown part ≡ era_in range dots.now (era_shown era)) }
{
    let last = era.last.filter(|last| range.has(*last));
    Ok(Era {
        from: range.shifted(era.from),
        last: last.map(|last| range.shifted(last)),
        processes: era.processes,
        anchor: era.anchor,
        cells: cells_in(alloc, range, dots, era.cells)?,
    })
}

/// The eras of a run with these dots that have an event which is chosen.
fn eras_in(
    alloc: Global,
    range: Range,
    dots: &[Dot],
    eras: Vec<Era>,
) -> Result<Vec<Era>, AllocError>
    ensures { IfOk result (λ part. map era_shown part.items
        ≡ map (era_in range dots.now) (filter (λ era. meets range era.from era.last) (map era_shown eras.items))) }
{
    let mut part = Vec::new(alloc);
    for era in eras {
        if range.meets(era.from, era.last) {
            part.push(era_in(alloc, range, dots, era)?)?;
        }
    }
    Ok(part)
}

/// The marks of a run, where these events are chosen.
pub(crate) fn chosen(alloc: Global, range: Range, marks: Marks) -> Result<Marks, AllocError>
    ensures fewer { IfOk result (λ part. part.events ≤ marks.events) }
    ensures chosen { IfOk result (λ part. marks_shown part ≡ chosen range (marks_shown marks)) }
{
    let eras = marks.eras;
    let eras = eras_in(alloc, range, &marks.dots, eras)?;
    let steps = marks.steps.into_iter().filter(|step| range.has(step.event));
    let dots = marks.dots.into_iter().filter(|dot| range.has(dot.event));
    let lines = marks.lines.into_iter().filter(|line| range.has(line.event));
    Ok(Marks {
        object: marks.object,
        events: range.count(marks.events),
        steps: steps
            .map(|step| StepMark {
                event: range.shifted(step.event),
                ..step
            })
            .collect(alloc)?,
        bars: bars_in(alloc, range, marks.events, marks.bars)?,
        dots: dots
            .map(|dot| Dot {
                event: range.shifted(dot.event),
                ..dot
            })
            .collect(alloc)?,
        lines: lines
            .map(|line| EraLine {
                event: range.shifted(line.event),
                ..line
            })
            .collect(alloc)?,
        eras,
    })
}

/// What is told beside a run, where these events are chosen.
pub(crate) fn chosen_remarks(
    alloc: Global,
    range: Range,
    remarks: Vec<PlacedRemark>,
) -> Result<Vec<PlacedRemark>, AllocError>
    ensures fewer { IfOk result (λ part. length part.items ≤ length remarks.items) }
    ensures chosen { IfOk result (λ part. part.items ≡ chosen_remarks range remarks.items) }
{
    remarks
        .into_iter()
        .filter(|one| range.tells(one))
        .map(|one| PlacedRemark {
            line: one.line,
            before: range.shifted(one.before),
            remark: one.remark,
        })
        .collect(alloc)
}
