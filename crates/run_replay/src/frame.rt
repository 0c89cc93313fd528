//! The frames of a run, as plain data.

ghost use Rattle.std.specs.Prelude.{◌≡◌, ◌++◌, IfOk, OnOk, map};
ghost use Rattle.run_replay.specs.Held.{change_of, changes_between};
ghost use Rattle.run_replay.specs.Scenes.{change_shown, field_shown, held_shown};

use seq_object::CallId;
use std::alloc::{AllocError, Global};
use uni_core::StepKind;

/// A named field of the memory, and the text of what it holds.
#[derive(Drop)]
pub struct Field {
    /// Its name, as `announce[1]`, `head[0]` or `1.0.seq`.
    pub name: Vec<u8>,
    /// The text of what it holds; `?` where nothing is written or settled there yet.
    pub text: Vec<u8>,
}

/// What a place of the memory holds.
#[derive(Drop)]
pub struct Held {
    /// The place's field; of a decision on a state and a response the state, as `1.0.state`.
    pub field: Field,
    /// The response that is decided with a state, as `1.0.reply`; `None` of any other place.
    pub reply: Option<Field>,
}

/// A field that an event changed.
#[derive(Drop)]
pub struct Change {
    /// Its name.
    pub name: Vec<u8>,
    /// The text of what it held.
    pub before: Vec<u8>,
    /// The text of what it holds now.
    pub after: Vec<u8>,
}

/// A call that a process began.
#[derive(Drop)]
pub struct Begun {
    /// The call.
    pub call: CallId,
    /// The words of its invocation.
    pub words: Vec<u8>,
    /// What its new cell was to ask for before it: nothing.
    pub before: Held,
    /// What its new cell asks for after it.
    pub after: Held,
}

/// A step.
#[derive(Drop)]
pub struct Step {
    /// The call in which it was taken.
    pub call: CallId,
    /// Its kind.
    pub kind: StepKind,
    /// What its one place held before it.
    pub before: Held,
    /// What that place held after it.
    pub after: Held,
    /// What that place would hold by what the step proposed; `None` of a step that reads or writes.
    pub proposed: Option<Held>,
    /// The kind of the process's next step; `None` where the call has returned.
    pub next: Option<StepKind>,
    /// The own steps of the call so far, this one among them.
    pub steps: u64,
    /// The turns of the call so far.
    pub turns: u64,
    /// The text of the call's reply, where this was its last step.
    pub reply: Option<Vec<u8>>,
}

/// The end of an era. Afterwards the memory is one anchor, which all entries of announce and head name.
#[derive(Drop)]
pub struct EndedEra {
    /// To how many processes the object was reshaped; `None` where the era ended by a trim.
    pub reshaped: Option<u64>,
    /// The number of the new anchor.
    pub number: u64,
    /// What is settled in the new anchor.
    pub anchor: Held,
}

/// What an event did.
#[derive(Drop)]
pub enum Frame {
    /// A process began a call.
    Call(Begun),
    /// A process took a step.
    Step(Step),
    /// An era ended.
    End(EndedEra),
}

/// What an event did, and the whole memory after it.
#[derive(Drop)]
pub struct Scene {
    /// What the event did.
    pub frame: Frame,
    /// What each place of the memory holds after it, where that is asked for: the entries of announce and head, and the
    /// fields of the anchor and of each cell that was made in the era.
    pub memory: Option<Vec<Held>>,
}

/// Where the scenes of some events of a run begin.
#[derive(Drop)]
pub struct Start {
    /// How many events came before them.
    pub events: u64,
    /// How many processes there are then.
    pub processes: u64,
    /// What each place of the memory holds then.
    pub memory: Vec<Held>,
}

/// Adds the change of a field, if there is one.
fn push_change(
    alloc: Global,
    before: &Field,
    after: &Field,
    changes: &mut Vec<Change>,
) -> Result<(), AllocError>
    ensures { OnOk result (map change_shown changes.new.items ≡
        map change_shown changes.old.items ++ change_of (field_shown before.now) (field_shown after.now)) }
{
    if before.text.as_slice() == after.text.as_slice() {
        return Ok(());
    }
    changes.push(Change {
        name: Vec::from_slice(alloc, &after.name)?,
        before: Vec::from_slice(alloc, &before.text)?,
        after: Vec::from_slice(alloc, &after.text)?,
    })?;
    Ok(())
}

/// The fields of a place that have changed, from what it held before to what it holds afterwards. An `Err` says that
/// memory was refused.
pub fn changes_of(alloc: Global, before: &Held, after: &Held) -> Result<Vec<Change>, AllocError>
    ensures { IfOk result (λ changes. map change_shown changes.items ≡
        changes_between (held_shown before.now) (held_shown after.now)) }
{
    let mut changes = Vec::new(alloc);
    push_change(alloc, &before.field, &after.field, &mut changes)?;
    if let (Some(before), Some(after)) = (&before.reply, &after.reply) {
        push_change(alloc, before, after, &mut changes)?;
    }
    Ok(changes)
}
