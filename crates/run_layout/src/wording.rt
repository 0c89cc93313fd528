//! The texts of a picture.

ghost use Rattle.std.specs.Prelude.{◌≡◌, ◌++◌, IfOk, OnOk, option_map};
ghost use Rattle.run_layout.specs.Vocabulary.{find, end_shown, bar_shown, cell_shown, marks_shown};
ghost use Rattle.run_layout.specs.Wording.{is_help, meaning_of, counted_text, counts_text, refusal_words};
ghost use Rattle.run_layout.specs.Wording.{letter_of, label_text, line_text, cell_words, cell_state, title_text};
ghost use Rattle.run_layout.specs.Wording.{lane_of, cell_name, name_text, shortened, step_title};

use run_replay::{Bar, BarEnd, CellBox, Dot, EraEnd, EraLine, Marks, StepMark};
use std::alloc::{AllocError, Global};
use std::io::Write;
use uni_core::StepKind;
use uni_script::Refusal;

/// How many letters of a command or a state are told at most.
const MOST_SHORT: usize = 24;

/// Adds a text of at most 24 letters; of a longer one the first 22, with two dots for the rest.
pub fn push_shortened(text: &[u8], line: &mut Vec<u8>) -> Result<(), AllocError>
    ensures { OnOk result (line.new.items ≡ line.old.items ++ shortened text.now) }
{
    if text.len() <= MOST_SHORT {
        return line.extend_from_slice(text);
    }
    line.extend_from_slice(&text[..MOST_SHORT - 2])?;
    line.extend_from_slice(b"..")
}

/// The letter of a kind of step.
pub fn letter_of(kind: StepKind) -> u8
    ensures { result ≡ letter_of kind }
{
    match kind {
        StepKind::Announce => b'A',
        StepKind::ScanHead => b'H',
        StepKind::ScanSeq => b'S',
        StepKind::WriteScan => b'G',
        StepKind::Test => b'T',
        StepKind::ReadAnnounce => b'R',
        StepKind::ReadHelpSeq => b'N',
        StepKind::DecideAfter => b'L',
        StepKind::DecideNew => b'V',
        StepKind::WriteBefore => b'B',
        StepKind::WriteSeq => b'W',
        StepKind::WriteHead => b'U',
        StepKind::Finish => b'F',
    }
}

/// What the legend says of a kind of step, in at most 24 bytes.
pub fn meaning_of(kind: StepKind) -> &'static str
    ensures { result.now ≡ meaning_of kind }
{
    match kind {
        StepKind::Announce => "announces its cell",
        StepKind::ScanHead => "scan: reads a head",
        StepKind::ScanSeq => "scan: reads its number",
        StepKind::WriteScan => "keeps the greatest head",
        StepKind::Test => "tests its own number",
        StepKind::ReadAnnounce => "reads whose turn it is",
        StepKind::ReadHelpSeq => "is that one threaded?",
        StepKind::DecideAfter => "links a cell, or loses",
        StepKind::DecideNew => "settles state and reply",
        StepKind::WriteBefore => "writes the way back",
        StepKind::WriteSeq => "writes the number",
        StepKind::WriteHead => "moves its head on",
        StepKind::Finish => "raises its head, returns",
    }
}

/// The kinds of step, in the order in which a call takes them.
const KINDS: [StepKind; 13] = [
    StepKind::Announce,
    StepKind::ScanHead,
    StepKind::ScanSeq,
    StepKind::WriteScan,
    StepKind::Test,
    StepKind::ReadAnnounce,
    StepKind::ReadHelpSeq,
    StepKind::DecideAfter,
    StepKind::DecideNew,
    StepKind::WriteBefore,
    StepKind::WriteSeq,
    StepKind::WriteHead,
    StepKind::Finish,
];

/// The kinds of step that are among some, in the order in which a call takes them. An `Err` says that memory was
/// refused.
pub fn kinds_of(alloc: Global, steps: &[StepMark]) -> Result<Vec<StepKind>, AllocError> {
    KINDS
        .into_iter()
        .filter(|kind| steps.iter().any(|step| step.kind == *kind))
        .collect(alloc)
}

/// Whether one of some steps changed nothing.
pub fn any_unchanged(steps: &[StepMark]) -> bool {
    steps.iter().any(|step| !step.changed)
}

/// The name of a process. An `Err` says that memory was refused.
pub fn name_of(alloc: Global, process: u64) -> Result<Vec<u8>, AllocError>
    ensures { IfOk result (λ name. name.items ≡ name_text process) }
{
    Ok(format!(in alloc; "P{process}")?.into_bytes())
}

/// The label of a call's bar: the call and its words, and its reply where it has returned. An `Err` says that memory
/// was refused.
pub fn label_of(alloc: Global, bar: &Bar) -> Result<Vec<u8>, AllocError>
    ensures { IfOk result (λ text. text.items ≡ label_text (bar_shown bar.now)) }
{
    let mut text = format!(in alloc; "{} ", bar.call)?.into_bytes();
    text.extend_from_slice(&bar.words)?;
    if let Some(end) = &bar.end {
        text.extend_from_slice(b" -> ")?;
        text.extend_from_slice(&end.reply)?;
    }
    Ok(text)
}

/// Adds how many there are of something, with the word for one and that for any other number. An `Err` says that memory
/// was refused.
pub fn push_counted(text: &mut Vec<u8>, count: u64, one: &str, many: &str) -> Result<(), AllocError>
    ensures { OnOk result (text.new.items ≡ text.old.items ++ counted_text count one.now many.now) }
{
    let word = if count == 1 { one } else { many };
    write!(text, "{count} {word}").map_err(|_| AllocError)
}

/// The own steps and the turns of a call that has returned. An `Err` says that memory was refused.
pub fn counts_of(alloc: Global, end: &BarEnd) -> Result<Vec<u8>, AllocError>
    ensures { IfOk result (λ text. text.items ≡ counts_text (end_shown end.now)) }
{
    let mut text = Vec::new(alloc);
    push_counted(&mut text, end.steps, "step", "steps")?;
    text.push(b' ')?;
    push_counted(&mut text, end.turns, "turn", "turns")?;
    Ok(text)
}

/// The label of the end of an era. An `Err` says that memory was refused.
pub fn line_of(alloc: Global, line: &EraLine) -> Result<Vec<u8>, AllocError>
    ensures { IfOk result (λ text. text.items ≡ line_text line.now) }
{
    let mut text = Vec::new(alloc);
    match line.end {
        EraEnd::Trim => write!(text, "trimmed {}", line.number).map_err(|_| AllocError)?,
        EraEnd::Reshape(processes) => {
            write!(text, "reshaped {processes} at {}", line.number).map_err(|_| AllocError)?
        }
    }
    Ok(text)
}

/// The words of a refusal, without `refused` and without the process that is its reason. An `Err` says that memory was
/// refused.
pub fn refusal_of(alloc: Global, refusal: Refusal) -> Result<Vec<u8>, AllocError>
    ensures { IfOk result (λ text. text.items ≡ refusal_words refusal) }
{
    let mut text = Vec::new(alloc);
    match refusal {
        Refusal::Process(process) => write!(text, "process {process}"),
        Refusal::Busy(_) => write!(text, "busy"),
        Refusal::Row(_) => write!(text, "row"),
        Refusal::Idle(_) => write!(text, "idle"),
        Refusal::Pending(_) => write!(text, "pending"),
        Refusal::Sequence => write!(text, "sequence"),
        Refusal::History => write!(text, "history"),
        Refusal::Count(count) => write!(text, "count {count}"),
    }
    .map_err(|_| AllocError)?;
    Ok(text)
}

/// The process whose state is the reason of a refusal; `None` where no process's is.
pub fn lane_of(refusal: Refusal) -> Option<u64>
    ensures { result ≡ lane_of refusal }
{
    match refusal {
        Refusal::Busy(process)
        | Refusal::Row(process)
        | Refusal::Idle(process)
        | Refusal::Pending(process) => Some(process),
        Refusal::Process(_) | Refusal::Sequence | Refusal::History | Refusal::Count(_) => None,
    }
}

/// What an entry of the list of cells says: its words and its reply. An `Err` says that memory was refused.
pub fn cell_words(alloc: Global, cell: &CellBox) -> Result<Vec<u8>, AllocError>
    ensures { IfOk result (λ text. text.items ≡ cell_words (cell_shown cell.now)) }
{
    let mut text = cell.words.to_vec(alloc)?;
    text.extend_from_slice(b" -> ")?;
    match &cell.reply {
        Some(reply) => text.extend_from_slice(reply)?,
        None => text.push(b'?')?,
    }
    Ok(text)
}

/// The state after a cell in at most 24 letters, where it is settled. An `Err` says that memory was refused.
pub fn cell_state(alloc: Global, cell: &CellBox) -> Result<Option<Vec<u8>>, AllocError>
    ensures { IfOk result (λ state. option_map (λ text. text.items) state
        ≡ cell_state (cell_shown cell.now)) }
{
    match &cell.state {
        Some(state) => {
            let mut text = b"state ".to_vec(alloc)?;
            push_shortened(state, &mut text)?;
            Ok(Some(text))
        }
        None => Ok(None),
    }
}

/// Whether a dot is of this cell's call, and another process linked the cell.
fn is_help(cell: &CellBox, dot: &Dot) -> bool
    ensures { result ≡ is_help (cell_shown cell.now) dot.now }
{
    dot.call.process == cell.call.process
        && dot.call.nth == cell.call.nth
        && dot.by != u64::from(cell.call.process)
}

/// The dot of a cell that another process than the call's linked.
fn help_of(dots: &[Dot], cell: &CellBox) -> Option<Dot>
    ensures { result ≡ find (is_help (cell_shown cell.now)) dots.now }
{
    dots.iter().copied().find(|dot| is_help(cell, dot))
}

/// The number and the call of a cell, and the process that linked it, by the dots of the run, where that is another
/// than the call's. An `Err` says that memory was refused.
pub fn cell_name(alloc: Global, dots: &[Dot], cell: &CellBox) -> Result<Vec<u8>, AllocError>
    ensures { IfOk result (λ text. text.items ≡ cell_name dots.now (cell_shown cell.now)) }
{
    let mut text = format!(in alloc; "{}: {}", cell.number, cell.call)?.into_bytes();
    if let Some(dot) = help_of(dots, cell) {
        write!(text, " by P{}", dot.by).map_err(|_| AllocError)?;
    }
    Ok(text)
}

/// The title of a picture. An `Err` says that memory was refused.
pub fn title_of(alloc: Global, marks: &Marks) -> Result<Vec<u8>, AllocError>
    ensures { IfOk result (λ text. text.items ≡ title_text (marks_shown marks.now)) }
{
    let mut text = marks.object.to_vec(alloc)?;
    text.extend_from_slice(b": ")?;
    push_counted(&mut text, marks.lanes(), "process", "processes")?;
    text.extend_from_slice(b", ")?;
    push_counted(&mut text, marks.bars.len() as u64, "call", "calls")?;
    text.extend_from_slice(b", ")?;
    push_counted(&mut text, marks.events, "event", "events")?;
    Ok(text)
}

/// The title of the mark of a step: its process, its call, which of the call's own steps it is, and what it does. An
/// `Err` says that memory was refused.
pub fn step_title(alloc: Global, step: StepMark) -> Result<Vec<u8>, AllocError>
    ensures { IfOk result (λ text. text.items ≡ step_title step) }
{
    let (process, nth, number) = (step.process, step.nth, step.number);
    let meaning = meaning_of(step.kind);
    let title = format!(in alloc; "P{process}, call {process}.{nth}, step {number}: {meaning}")?;
    Ok(title.into_bytes())
}
