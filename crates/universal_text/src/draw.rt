//! The picture of a script's run, and the lines that draw it.

ghost use Rattle.std.specs.Prelude.{◌≡◌, ◌≤◌, ◌⊎◌};
ghost use Rattle.universal_text.specs.Told.{HasLines, HasPicture, HasRefusal, IsTooLong, IsWritten};

use crate::status::DONE;
use crate::tell::{refuse, tell};
use run_layout::Range;
use run_lines::{COLUMNS, lines_of};
use run_picture::picture_of;
use std::alloc::Global;
use uni_script::Checked;

/// Draws the picture of a script's run, and writes the text of its SVG; or the line that says why there
/// is none. How many bytes the text has is told.
///
/// 0: the picture is written. 1: the script has a fault, or more than 2,000 events, and the line of that
/// is written. 2: there is less room than the text takes, and nothing is written but its length.
/// 3: memory was refused, and nothing is written. 5: the drawing does not show the run, and nothing is written; no
/// script is known to come to this.
#[tactic(auto, using(crate::proofs::Drawn::no_picture))]
#[unsafe(no_mangle)]
pub extern "C" fn universal_draw(
    alloc: Global,
    script: &[u8],
    out: &mut [u8],
    written: &mut usize,
) -> u32
    ensures status { (result ≤ 3) ⊎ (result ≡ 5) }
    ensures drawn { result ≡ 0 → HasPicture script.now (λ svg. IsWritten svg out.old out.new written.new) }
    ensures bad { result ≡ 1 → HasRefusal script.now (λ line. IsWritten line out.old out.new written.new) }
    ensures small { result ≡ 2 → HasPicture script.now (λ svg. IsTooLong svg out.old out.new written.new)
        ⊎ HasRefusal script.now (λ line. IsTooLong line out.old out.new written.new) }
    ensures unchanged { 3 ≤ result → (out.new ≡ out.old) × (written.new ≡ written.old) }
{
    match picture_of(alloc, Range::all(), &mut Checked::new(script)) {
        Ok(svg) => tell(DONE, svg.as_slice(), out, written),
        Err(fault) => refuse(alloc, fault, out, written),
    }
}

/// Draws a script's run as lines of a terminal of 100 columns, with the statuses of `universal_draw`.
#[tactic(auto, using(crate::proofs::Drawn::no_picture))]
#[unsafe(no_mangle)]
pub extern "C" fn universal_lines(
    alloc: Global,
    script: &[u8],
    out: &mut [u8],
    written: &mut usize,
) -> u32
    ensures status { (result ≤ 3) ⊎ (result ≡ 5) }
    ensures drawn { result ≡ 0 → HasLines script.now (λ text. IsWritten text out.old out.new written.new) }
    ensures bad { result ≡ 1 → HasRefusal script.now (λ line. IsWritten line out.old out.new written.new) }
    ensures small { result ≡ 2 → HasLines script.now (λ text. IsTooLong text out.old out.new written.new)
        ⊎ HasRefusal script.now (λ line. IsTooLong line out.old out.new written.new) }
    ensures unchanged { 3 ≤ result → (out.new ≡ out.old) × (written.new ≡ written.old) }
{
    match lines_of(alloc, Range::all(), COLUMNS, &mut Checked::new(script)) {
        Ok(text) => tell(DONE, text.as_slice(), out, written),
        Err(fault) => refuse(alloc, fault, out, written),
    }
}
