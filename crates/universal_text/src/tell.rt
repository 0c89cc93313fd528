//! How a text is told: written where there is room for it, with its length.

ghost use Rattle.std.specs.Prelude.{◌≡◌, ◌≢◌, ◌≤◌, ◌↔◌, ◌⊎◌};
ghost use Rattle.universal_text.specs.Told.{IsFaultOfPicture, IsTooLong, IsWritten, line_of};

use crate::status::{BAD_SCRIPT, MEMORY, MISDRAWN, SMALL};
use run_layout::PictureFault;
use std::alloc::Global;
use std::io::Write;
use uni_script::BenchFault;

/// Writes a text where there is room for it, and tells its length: the answer is the status that is
/// passed, or 2 where there is less room.
pub(crate) fn tell(status: u32, text: &[u8], out: &mut [u8], written: &mut usize) -> u32
    requires { status ≢ 2 }
    ensures status { (result ≡ status) ⊎ (result ≡ 2) }
    ensures written { result ≢ 2 → IsWritten text.now out.old out.new written.new }
    ensures small { result ≡ 2 → IsTooLong text.now out.old out.new written.new }
{
    *written = text.len();
    if text.len() > out.len() {
        return SMALL;
    }
    out[..text.len()].copy_from_slice(text);
    status
}

/// The status of a fault: 1 of one that a script has, 5 where a drawing does not show its run, and 3 of any other.
fn status_of(fault: PictureFault) -> u32
    ensures status { (result ≡ 1) ⊎ (result ≡ 3) ⊎ (result ≡ 5) }
    ensures fault { (result ≡ 1) ↔ IsFaultOfPicture fault }
    ensures misdrawn { result ≡ 5 → fault ≡ PictureFault.Misdrawn }
{
    match fault {
        PictureFault::Range(_) => BAD_SCRIPT,
        PictureFault::Misdrawn => MISDRAWN,
        PictureFault::Script(fault) => match fault {
            BenchFault::Read | BenchFault::Write | BenchFault::Memory | BenchFault::Audit(_) =>
                MEMORY,
            _ => BAD_SCRIPT,
        },
    }
}

/// Tells the line of a fault of a script, with status 1; or 5 where a drawing does not show its run; or 3,
/// for any other fault, and where memory is refused to the line.
pub(crate) fn refuse(alloc: Global, fault: PictureFault, out: &mut [u8], written: &mut usize) -> u32
    ensures status { (result ≤ 3) ⊎ (result ≡ 5) }
    ensures told { 1 ≤ result }
    ensures fault { result ≤ 2 → IsFaultOfPicture fault }
    ensures written { result ≡ 1 → IsWritten (line_of fault) out.old out.new written.new }
    ensures small { result ≡ 2 → IsTooLong (line_of fault) out.old out.new written.new }
    ensures unchanged { 3 ≤ result → (out.new ≡ out.old) × (written.new ≡ written.old) }
    ensures misdrawn { result ≡ 5 → fault ≡ PictureFault.Misdrawn }
{
    let status = status_of(fault);
    if status != BAD_SCRIPT {
        return status;
    }
    let mut line = Vec::new(alloc);
    match writeln!(line, "{fault}") {
        Ok(()) => tell(BAD_SCRIPT, line.as_slice(), out, written),
        Err(_) => MEMORY,
    }
}
