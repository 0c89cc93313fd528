//! What is scheduled.

ghost use Rattle.std.specs.Prelude.{◌≡◌};
ghost use Rattle.std.specs.Option.{option_copied};
ghost use Rattle.run_graph.specs.Schedule.{call_in};

use seq_object::SeqObject;

/// Processes that share an object, and the calls that each of them makes.
#[derive(Drop)]
pub struct Plan<O: SeqObject> {
    /// The object.
    pub object: O,
    /// How many processes share it.
    pub processes: u64,
    /// How many calls a process can make.
    pub row: u64,
    /// For each process its calls, in their order.
    pub calls: Vec<Vec<O::Inv>>,
}

impl<O: SeqObject> Plan<O> {
    /// The call of process `p` that it makes as its `nth`, from 0; `None` where it makes fewer.
    pub fn call(&self, p: u64, nth: u64) -> Option<&O::Inv>
        ensures { option_copied result ≡ call_in self.now.calls.items p nth }
    {
        let calls = self.calls.get(p as usize)?;
        calls.get(nth as usize)
    }
}
