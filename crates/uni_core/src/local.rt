//! What a process keeps for itself.

ghost use Rattle.std.specs.Prelude.{◌≡◌, ◌+◌, ◌<◌, ◌^◌, if◌then◌else◌, IsTrue, None};
ghost use Rattle.std.specs.Option.{option_map_or};
ghost use Rattle.uni_core.specs.Stage.{turns_to};

use crate::stage::{Pending, Stage};

/// What a process keeps for itself: its pending call, how many calls it has begun since the
/// opening, and of its latest call among how many processes it ran (0 where it has begun none), its
/// own steps and its turns.
#[derive(Clone, Copy)]
pub(crate) struct Local {
    pub(crate) call: Option<Pending>,
    pub(crate) begun: u64,
    pub(crate) among: u64,
    pub(crate) steps: u64,
    pub(crate) turns: u64,
}

impl Local {
    ghost use Rattle.uni_core.specs.Local.{new_local};

    /// A process that hasn't called yet.
    pub(crate) fn new() -> Local
        ensures { result ≡ new_local }
    {
        Local {
            call: None,
            begun: 0,
            among: 0,
            steps: 0,
            turns: 0,
        }
    }

    /// The pending call.
    pub(crate) fn pending(&self) -> Option<Pending>
        ensures { result ≡ self.now.call }
    {
        self.call
    }

    /// Whether a process has begun as many calls, and has the same call pending at the same stage.
    pub(crate) fn stands_as(&self, other: &Local) -> bool
        ensures { IsTrue result → (self.now.begun ≡ other.now.begun) × (self.now.call ≡ other.now.call) }
    {
        self.begun == other.begun && self.call == other.call
    }

    /// Takes note of a step, which left the pending call as it is now, or ended it.
    pub(crate) fn advance(&mut self, is_over: bool)
        requires steps { self.old.steps < 2 ^ 32 }
        requires turns { self.old.turns < 2 ^ 32 }
        ensures call { self.new.call ≡ (if is_over then None else self.old.call) }
        ensures begun { self.new.begun ≡ self.old.begun }
        ensures among { self.new.among ≡ self.old.among }
        ensures steps { self.new.steps ≡ self.old.steps + 1 }
        ensures turns { self.new.turns ≡ self.old.turns
            + (if is_over then 0 else option_map_or (λ call. turns_to call.stage) self.old.call 0) }
    {
        self.steps += 1;
        if is_over {
            self.call = None;
            return;
        }
        let Some(call) = self.call else {
            return;
        };
        if let Stage::ReadAnnounce { .. } = call.stage {
            self.turns += 1;
        }
    }
}
