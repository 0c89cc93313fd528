//! The marks of a run: what is drawn of its events, as plain data.

ghost use Rattle.std.specs.Prelude.{◌≡◌, ◌-◌};
ghost use Rattle.run_replay.specs.Vocabulary.{option_map_or};
ghost use Rattle.run_replay.specs.Marks.{lanes_of, marks_shown};

use seq_object::CallId;
use uni_core::StepKind;

/// A step.
#[derive(Clone, Copy, Debug, PartialEq, Eq)]
pub struct StepMark {
    /// The place of its event among the events, from 0.
    pub event: u64,
    /// The process that took it.
    pub process: u64,
    /// Which of its process's calls it is of, from 0.
    pub nth: u64,
    /// Which of that call's own steps it is, from 1.
    pub number: u64,
    /// Its kind.
    pub kind: StepKind,
    /// Whether it changed what its place contains: one that only reads and a proposal that lost change nothing.
    pub changed: bool,
}

/// How a call ended.
#[derive(Drop)]
pub struct BarEnd {
    /// The place of the event that is its last step.
    pub event: u64,
    /// The text of its reply.
    pub reply: Vec<u8>,
    /// Its own steps.
    pub steps: u64,
    /// Its turns.
    pub turns: u64,
}

/// A call, from its begin to its return.
#[derive(Drop)]
pub struct Bar {
    /// The call.
    pub call: CallId,
    /// The place of the event with which it began.
    pub from: u64,
    /// The words of its invocation.
    pub words: Vec<u8>,
    /// How it ended; `None` where it hasn't.
    pub end: Option<BarEnd>,
}

/// The linearization point of a call: the step that linked its cell.
#[derive(Clone, Copy, Debug, PartialEq, Eq)]
pub struct Dot {
    /// The place of that step's event.
    pub event: u64,
    /// The call whose cell was linked.
    pub call: CallId,
    /// The process that took the step.
    pub by: u64,
}

/// How an era ended.
#[derive(Clone, Copy, Debug, PartialEq, Eq)]
pub enum EraEnd {
    /// By a trim.
    Trim,
    /// By a reshape to so many processes.
    Reshape(u64),
}

/// The end of an era.
#[derive(Clone, Copy, Debug, PartialEq, Eq)]
pub struct EraLine {
    /// The place of its event.
    pub event: u64,
    /// How it ended.
    pub end: EraEnd,
    /// The number of the next anchor.
    pub number: u64,
}

/// A cell of the list.
#[derive(Drop)]
pub struct CellBox {
    /// Its number.
    pub number: u64,
    /// Its call.
    pub call: CallId,
    /// The words of the call's invocation.
    pub words: Vec<u8>,
    /// The text of the call's reply; `None` where it isn't settled.
    pub reply: Option<Vec<u8>>,
    /// The text of the state after the call; `None` where it isn't settled.
    pub state: Option<Vec<u8>>,
}

/// An era.
#[derive(Drop)]
pub struct Era {
    /// How many events came before it.
    pub from: u64,
    /// The place of its last event, which ended it; `None` where none has.
    pub last: Option<u64>,
    /// How many processes it has.
    pub processes: u64,
    /// The number of its anchor.
    pub anchor: u64,
    /// Its cells, in the order of the list.
    pub cells: Vec<CellBox>,
}

/// The marks of a run.
#[derive(Drop)]
pub struct Marks {
    /// The name of what the processes share.
    pub object: Vec<u8>,
    /// How many events there are.
    pub events: u64,
    /// The steps, in order.
    pub steps: Vec<StepMark>,
    /// The calls, in the order of their begins.
    pub bars: Vec<Bar>,
    /// The linearization points, in order.
    pub dots: Vec<Dot>,
    /// The ends of eras, in order.
    pub lines: Vec<EraLine>,
    /// The eras, in order.
    pub eras: Vec<Era>,
}

impl Marks {
    /// How many lanes there are: the most processes of an era.
    pub fn lanes(&self) -> u64
        ensures { result ≡ lanes_of (marks_shown self.now).eras }
    {
        let mut lanes = 0;
        for era in &self.eras {
            lanes = lanes.max(era.processes);
        }
        lanes
    }
}

impl Bar {
    /// The place of the last event that the bar of a call covers, in a run of so many events: that of its end, or else
    /// the run's last one. It is 0 in a run of none, which has no bars.
    pub fn last(&self, events: u64) -> u64
        ensures { result ≡ option_map_or (λ end. end.event) self.now.end (events - 1) }
    {
        match &self.end {
            Some(end) => end.event,
            None => events.saturating_sub(1),
        }
    }
}
