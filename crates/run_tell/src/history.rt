//! From the bytes of a script to the history of its run.

ghost use Rattle.std.specs.Prelude.{◌≡◌, ◌≢◌, IsErrOf, false, true};
ghost use Rattle.run_tell.specs.Vocabulary.{BenchFault as Fault, HasFault, HasRangeFault, IsFaultOfScript};
ghost use Rattle.run_tell.specs.Vocabulary.{RangeFault, all_events, scripts_of};
ghost use Rattle.run_tell.specs.History.{IsHistory};
ghost use Rattle.run_tell.specs.Told.{WritesSuch};

use crate::history_lines::{push_observed, push_opening_line};
use crate::opened::Opened;
use crate::order::Telling;
use crate::told::tell_script;
use run_layout::{PictureFault, Range};
use run_replay::Scene;
use std::alloc::{AllocError, Global};
use uni_script::{PlacedRemark, TextIn, TextOut};

/// Tells the calls and the replies of a run alone, in lines of JSON.
pub struct InHistory;

impl Telling for InHistory {
    ghost use Rattle.run_tell.specs.History.{history_wording};

    ghost wording = { history_wording };

    fn is_whole() -> bool {
        false
    }

    fn push_opening(_: Global, opened: &Opened<'_>, text: &mut Vec<u8>) -> Result<(), AllocError> {
        push_opening_line(text, opened)
    }

    fn push_scene(
        alloc: Global,
        _: u64,
        _: Option<u64>,
        scene: &Scene,
        text: &mut Vec<u8>,
    ) -> Result<(), AllocError> {
        push_observed(alloc, &scene.frame, text)
    }

    fn push_remark(_: Global, _: &PlacedRemark, _: &mut Vec<u8>) -> Result<(), AllocError> {
        Ok(())
    }
}

/// Writes the history of the run of the script that a reader has: lines of JSON. It is linearizable. An `Err` is the
/// first fault of the script; `Read` where the reader failed; `Memory` where memory was refused; `Range` of a good
/// script that has more than 2,000 events; or `Write` where the output failed. With `Memory` and `Write` a prefix may
/// be written, else nothing is.
pub fn tell_history<I: TextIn, W: TextOut>(
    alloc: Global,
    reader: &mut I,
    out: &mut W,
) -> Result<(), PictureFault>
    requires reader { I.has_failed reader.old ≡ false }
    requires out { W.has_failed out.old ≡ false }
    ensures told { WritesSuch result (IsHistory (I.remaining reader.old)) (W.contents out.old) (W.contents out.new) }
    ensures unwritten { (e : PictureFault) → IsErrOf result e → e ≢ PictureFault.Script Fault.Memory
        → e ≢ PictureFault.Script Fault.Write → out.new ≡ out.old }
    ensures range { (e : RangeFault) → IsErrOf result (PictureFault.Range e)
        → HasRangeFault all_events e (I.remaining reader.old) }
    ensures fault { (e : Fault) → IsErrOf result (PictureFault.Script e) → IsFaultOfScript e
        → HasFault (scripts_of 1048576) (I.remaining reader.old) e }
    ensures reader { IsErrOf result (PictureFault.Script Fault.Read) → I.has_failed reader.new ≡ true }
    ensures out { W.has_failed out.new ≡ true → IsErrOf result (PictureFault.Script Fault.Write) }
    ensures drawn { IsErrOf result PictureFault.Misdrawn → ⊥ }
{
    tell_script::<InHistory, I, W>(alloc, Range::all(), reader, out)
}
