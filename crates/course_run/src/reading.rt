//! What the programs read.

ghost use Rattle.std.specs.Prelude.{◌≡◌, ◌⊎◌, IfErr, IfOk, IfSome, OnOk, take};
ghost use Rattle.uni_script.specs.Ends.{AppendsPrefix};
ghost use Rattle.course_run.specs.Goals.{line_of_unread};

use std::alloc::Global;
use std::fs::{File, Files};
use std::io;
use std::io::{ErrorKind, Read};
use uni_script::{BenchFault, TextOut, tell};

/// More bytes than a script without a fault has: 100,000 lines of 200 bytes, each with its end, and one.
const MANY_BYTES: u64 = 20_100_001;

/// The bytes of a script or a goal, as far as a script can have them.
///
/// An `Err` says that the reader failed, or that memory was refused.
pub fn read_text<R: Read + Drop>(alloc: Global, input: R) -> Result<Vec<u8>, BenchFault>
    ensures text { IfOk result (λ text.
        IfSome (R.remaining input) (λ bytes. text.items ≡ take 20100001 bytes)) }
    ensures fault { IfErr result (λ fault. (fault ≡ BenchFault.Read) ⊎ (fault ≡ BenchFault.Memory)) }
{
    let mut text = Vec::new(alloc);
    match input.take(MANY_BYTES).read_to_end(&mut text) {
        Ok(_) => Ok(text),
        Err(error) if error.kind() == ErrorKind::OutOfMemory => Err(BenchFault::Memory),
        Err(_) => Err(BenchFault::Read),
    }
}

/// The goal of the file of this path.
///
/// An `Err` is the status that the program ends with: 3 where the file can't be read, and 4 where memory was refused.
/// The line that says so goes to `faults`, as far as that takes it.
pub fn goal_in<R: Files + Alloc<A = Global>, F: TextOut>(
    rt: &R,
    path: &str,
    faults: &mut F,
) -> Result<Vec<u8>, u8>
    ensures status { IfErr result (λ status. (status ≡ 3) ⊎ (status ≡ 4)) }
    ensures told { IfErr result (λ status. AppendsPrefix (F.contents faults.old) (F.contents faults.new)
        (line_of_unread status)) }
    ensures silent { OnOk result (faults.new ≡ faults.old) }
{
    let read = match File::open(rt, path) {
        Ok(file) => read_text(rt.alloc(), file),
        Err(_) => Err(BenchFault::Read),
    };
    match read {
        Ok(goal) => Ok(goal),
        Err(BenchFault::Memory) => {
            tell(faults, b"out of memory\n");
            Err(4)
        }
        Err(_) => {
            tell(faults, b"cannot read the goal\n");
            Err(3)
        }
    }
}
