//! What a drawing has to show of a run, mark by mark, whatever it is drawn with.

ghost use Rattle.std.specs.Prelude.{◌≡◌, ◌-◌, ◌∷◌, [], IfOk, OnOk, map};
ghost use Rattle.run_layout.specs.Vocabulary.{meaning, bar_shown, era_shown, marks_shown};
ghost use Rattle.run_layout.specs.Wording.{told_shown};
ghost use Rattle.run_layout.specs.Marked.{Adds, after_events, arrow_signs, at, bar_sign, line_sign, names_from, part};
ghost use Rattle.run_layout.specs.Marked.{new_names, part_in, refusal_signs, sign_of, sign_shown, signs_of, step_sign};
ghost use Rattle.run_layout.specs.Marked.{text_signs};

use crate::axis::MOST_LANES;
use crate::refusals::{Told, told_of};
use crate::wording::{counts_of, label_of, line_of, name_of, step_title};
use run_replay::{Bar, Dot, Era, EraLine, Marks, StepMark};
use signs::{Edge, Look, Part};
use std::alloc::{AllocError, Global};
use uni_core::StepKind;
use uni_script::PlacedRemark;

/// What is to be shown.
#[derive(Clone, Copy, Debug, PartialEq, Eq)]
pub enum Mark {
    /// The name of a lane.
    Name,
    /// The end of an era.
    End,
    /// A call that has returned.
    Bar,
    /// One that hasn't.
    Open,
    /// An arrow of help from the upper lane to the lower one.
    Down,
    /// One from the lower lane to the upper one.
    Up,
    /// A step of a kind, and whether it changed what its place contains.
    Step(StepKind, bool),
    /// Where a call took effect.
    Dot,
    /// The label of a call.
    Label,
    /// The own steps and the turns of a call.
    Counts,
    /// A refusal.
    Refusal,
}

/// A mark that is to be shown.
#[derive(Drop)]
pub struct Sign {
    /// The mark.
    pub mark: Mark,
    /// Between which edges it stands.
    pub columns: (Edge, Edge),
    /// In which lanes, the upper and the lower one; `None` where it stands above or across all.
    pub lanes: Option<(u64, u64)>,
    /// What it says.
    pub text: Vec<u8>,
}

/// The signs of a run, as they are added.
type Signs = Vec<Sign>;

/// Adds a sign.
fn push_sign(
    signs: &mut Signs,
    mark: Mark,
    columns: (Edge, Edge),
    lanes: Option<(u64, u64)>,
    text: Vec<u8>,
) -> Result<(), AllocError>
    ensures { OnOk result (Adds sign_shown signs.old signs.new (sign_of mark columns lanes text.items ∷ [])) }
{
    signs.push(Sign {
        mark,
        columns,
        lanes,
        text,
    })?;
    Ok(())
}

/// Adds a mark in the column of an event and the lane of a process.
fn push_at(
    signs: &mut Signs,
    mark: Mark,
    event: u64,
    process: u64,
    text: Vec<u8>,
) -> Result<(), AllocError>
    ensures { OnOk result (Adds sign_shown signs.old signs.new (at mark event process text.items ∷ [])) }
{
    let columns = (Edge::Before(event), Edge::After(event));
    push_sign(signs, mark, columns, Some((process, process)), text)
}

/// Adds the names of the processes from one on and before another.
fn push_names(
    alloc: Global,
    event: u64,
    from: u64,
    to: u64,
    signs: &mut Signs,
) -> Result<(), AllocError>
    ensures { OnOk result (Adds sign_shown signs.old signs.new (names_from event from (to - from))) }
{
    for process in from..to {
        push_at(signs, Mark::Name, event, process, name_of(alloc, process)?)?;
    }
    Ok(())
}

/// Adds the names of the lanes that an era has and the one before it hasn't.
fn push_new_names(alloc: Global, eras: &[Era], signs: &mut Signs) -> Result<(), AllocError>
    ensures { OnOk result (Adds sign_shown signs.old signs.new (new_names 64 (map era_shown eras.now))) }
{
    let mut named = MOST_LANES;
    for era in eras {
        let event = era.from.saturating_sub(1);
        push_names(alloc, event, named, era.processes, signs)?;
        named = era.processes;
    }
    Ok(())
}

/// Adds the end of an era.
fn push_line(alloc: Global, line: &EraLine, signs: &mut Signs) -> Result<(), AllocError>
    ensures { OnOk result (Adds sign_shown signs.old signs.new (line_sign line.now ∷ [])) }
{
    let columns = (Edge::Before(line.event), Edge::After(line.event));
    push_sign(signs, Mark::End, columns, None, line_of(alloc, line)?)
}

/// Adds a call.
fn push_bar(alloc: Global, events: u64, bar: &Bar, signs: &mut Signs) -> Result<(), AllocError>
    ensures { OnOk result (Adds sign_shown signs.old signs.new (bar_sign events (bar_shown bar.now) ∷ [])) }
{
    let (mark, last) = match &bar.end {
        Some(end) => (Mark::Bar, end.event),
        None => (Mark::Open, events),
    };
    let columns = (Edge::Before(bar.from), Edge::After(last));
    let process = u64::from(bar.call.process);
    let text = Vec::new(alloc);
    push_sign(signs, mark, columns, Some((process, process)), text)
}

/// Adds the arrow of help, where another process linked the cell of a call: from its lane to that of the call.
fn push_arrow(alloc: Global, dot: Dot, signs: &mut Signs) -> Result<(), AllocError>
    ensures { OnOk result (Adds sign_shown signs.old signs.new (arrow_signs dot)) }
{
    let columns = (Edge::Before(dot.event), Edge::After(dot.event));
    let (by, process) = (dot.by, u64::from(dot.call.process));
    let text = Vec::new(alloc);
    if by < process {
        push_sign(signs, Mark::Down, columns, Some((by, process)), text)
    } else if process < by {
        push_sign(signs, Mark::Up, columns, Some((process, by)), text)
    } else {
        Ok(())
    }
}

/// Adds a step.
fn push_step(alloc: Global, step: StepMark, signs: &mut Signs) -> Result<(), AllocError>
    ensures { OnOk result (Adds sign_shown signs.old signs.new (step_sign step ∷ [])) }
{
    let mark = Mark::Step(step.kind, step.changed);
    let title = step_title(alloc, step)?;
    push_at(signs, mark, step.event, step.process, title)
}

/// Adds the label of a call, and where it has returned its counts.
fn push_texts(alloc: Global, bar: &Bar, signs: &mut Signs) -> Result<(), AllocError>
    ensures { OnOk result (Adds sign_shown signs.old signs.new (text_signs (bar_shown bar.now))) }
{
    let process = u64::from(bar.call.process);
    push_at(signs, Mark::Label, bar.from, process, label_of(alloc, bar)?)?;
    if let Some(end) = &bar.end {
        let columns = (Edge::Start, Edge::After(end.event));
        let text = counts_of(alloc, end)?;
        push_sign(signs, Mark::Counts, columns, Some((process, process)), text)?;
    }
    Ok(())
}

/// Adds a shape of a sign, in its lanes. An `Err` says that memory was refused.
pub fn push_part(
    alloc: Global,
    sign: &Sign,
    look: Look,
    text: &[u8],
    parts: &mut Vec<Part>,
) -> Result<(), AllocError>
    ensures { OnOk result (Adds meaning parts.old parts.new (part look (sign_shown sign.now) text.now ∷ [])) }
{
    push_part_in(alloc, sign, sign.lanes, look, text, parts)
}

/// Adds a shape of a sign, in some lanes. An `Err` says that memory was refused.
pub fn push_part_in(
    alloc: Global,
    sign: &Sign,
    lanes: Option<(u64, u64)>,
    look: Look,
    text: &[u8],
    parts: &mut Vec<Part>,
) -> Result<(), AllocError>
    ensures { OnOk result (Adds meaning parts.old parts.new (part_in lanes look (sign_shown sign.now) text.now ∷ [])) }
{
    parts.push(Part {
        look,
        columns: sign.columns,
        lanes,
        text: text.to_vec(alloc)?,
    })?;
    Ok(())
}

/// Where so many events are over.
pub fn after_events(count: u64) -> Edge
    ensures { result ≡ after_events count }
{
    if count == 0 {
        Edge::Start
    } else {
        Edge::After(count - 1)
    }
}

/// Adds what is told, where it has a label.
fn push_refusal(alloc: Global, told: &Told, signs: &mut Signs) -> Result<(), AllocError>
    ensures { OnOk result (Adds sign_shown signs.old signs.new (refusal_signs (told_shown told.now))) }
{
    if let Some(label) = &told.label {
        let columns = (after_events(told.before), Edge::Before(told.before));
        let text = label.as_slice().to_vec(alloc)?;
        push_sign(signs, Mark::Refusal, columns, None, text)?;
    }
    Ok(())
}

/// What a drawing has to show of the marks of a run, with what was told beside its events, from the lowest on. An `Err`
/// says that memory was refused.
pub fn signs_of(
    alloc: Global,
    marks: &Marks,
    remarks: &[PlacedRemark],
) -> Result<Vec<Sign>, AllocError>
    ensures { IfOk result (λ signs. map sign_shown signs.items ≡ signs_of (marks_shown marks.now) remarks.now) }
{
    let mut signs = Vec::new(alloc);
    push_new_names(alloc, &marks.eras, &mut signs)?;
    for line in &marks.lines {
        push_line(alloc, line, &mut signs)?;
    }
    for bar in &marks.bars {
        push_bar(alloc, marks.events, bar, &mut signs)?;
    }
    for dot in &marks.dots {
        push_arrow(alloc, *dot, &mut signs)?;
    }
    for step in &marks.steps {
        push_step(alloc, *step, &mut signs)?;
    }
    for dot in &marks.dots {
        let process = u64::from(dot.call.process);
        push_at(&mut signs, Mark::Dot, dot.event, process, Vec::new(alloc))?;
    }
    for bar in &marks.bars {
        push_texts(alloc, bar, &mut signs)?;
    }
    let all = told_of(alloc, remarks)?;
    for told in &all {
        push_refusal(alloc, told, &mut signs)?;
    }
    Ok(signs)
}
