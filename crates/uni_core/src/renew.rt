//! The end of an era.

ghost use Rattle.std.specs.Prelude.{ℕ, ◌≡◌, ◌+◌, ◌*◌, ◌<◌, ◌≤◌, ◌^◌, OnOk, OnErr, IfOk};
ghost use Rattle.std.specs.Prelude.{slice_index_or, length};
ghost use Rattle.uni_model.specs.Places.{seq_of};
ghost use Rattle.uni_model.specs.Worlds.{world_after, last_cell, IsQuiescent};
ghost use Rattle.uni_model.specs.Worlds.Event.{Trim, Reshape};
ghost use Rattle.uni_core.specs.Local.{new_local};
ghost use Rattle.uni_core.specs.World.{world_of, KeepsFixed};

use crate::local::Local;
use crate::world::World;
use seq_object::SeqObject;
use std::alloc::{AllocError, Global};

/// What processes keep for themselves, with new ones after them where there are fewer than `m`.
fn grown(alloc: Global, locals: &[Local], m: u64) -> Result<Vec<Local>, AllocError>
    ensures long { IfOk result (λ all. (m ≤ length all.items) × (length locals.now ≤ length all.items)) }
    ensures same { IfOk result (λ all. (p : ℕ)
        → slice_index_or all.items p new_local ≡ slice_index_or locals.now p new_local) }
{
    let count = locals.len().max(m as usize);
    let mut all = vec![in alloc; Local::new(); count]?;
    for p in 0..locals.len() {
        all[p] = locals[p];
    }
    Ok(all)
}

impl<O: SeqObject> World<O> {
    /// Ends the era of a world in which no call is pending: the list is replaced by one anchor with
    /// the last cell's state and number, which all announce and head entries name. Numbers of calls
    /// go on. It takes no memory.
    ///
    /// The numbers of the next era have to stay below 2^48.
    pub fn renew(&mut self)
        requires quiescent { IsQuiescent (world_of self.old) }
        requires numbers { seq_of (world_of self.old).memory (last_cell (world_of self.old))
            + (world_of self.old).n * self.old.row < 2 ^ 48 }
        ensures renewed { world_of self.new ≡ world_after (O.sequential self.old.object) (world_of self.old) Trim }
        ensures fixed { KeepsFixed self.old self.new }
    {
        self.shape();
        let last = self.last();
        self.machine.shared.renew(last, &self.locals);
    }

    /// What `renew` does, for `m` processes from then on, 1 to 64. Numbers of calls go on, also those
    /// of a process that there isn't then, which can't call until there is one again.
    ///
    /// The numbers of the next era, with `m` processes, have to stay below 2^48. An `Err` says that
    /// memory was refused: nothing is changed then.
    pub fn renew_for(&mut self, alloc: Global, m: u64) -> Result<(), AllocError>
        requires quiescent { IsQuiescent (world_of self.old) }
        requires processes { (1 ≤ m) × (m ≤ 64) }
        requires numbers { seq_of (world_of self.old).memory (last_cell (world_of self.old)) + m * self.old.row
            < 2 ^ 48 }
        ensures renewed { OnOk result (world_of self.new
            ≡ world_after (O.sequential self.old.object) (world_of self.old) (Reshape m)) }
        ensures fixed { KeepsFixed self.old self.new }
        ensures unchanged { OnErr result (self.new ≡ self.old) }
    {
        self.shape();
        let last = self.last();
        let locals = grown(alloc, &self.locals, m)?;
        self.machine.shared.renew_for(alloc, last, &locals, m)?;
        self.locals = locals;
        Ok(())
    }
}
