//! The pieces of a run, told in order.

ghost use Rattle.std.specs.Prelude.{◌++◌, ◌+◌, ◌<◌, ◌^◌, ◌↔◌, ◌≡◌, ◌≤◌, ◌⊎◌};
ghost use Rattle.std.specs.Prelude.{IfErr, IfOk, IsErrOf, OnErr, OnOk, [], drop, false, flat_map, length, slice_get};
ghost use Rattle.std.specs.Prelude.{take, true};
ghost use Rattle.run_tell.specs.Vocabulary.{AppendsPrefix, Moves, scene_shown};
ghost use Rattle.run_tell.specs.Told.{Wording, WritesText, opening_shown, remark_told, told_before, told_text};
ghost use Rattle.run_tell.specs.Told.{trace_with};

use crate::opened::Opened;
use ready_objects::Spoken;
use run_layout::Range;
use run_replay::{Scene, Scenes};
use std::alloc::{AllocError, Global};
use uni_script::{BenchFault, PlacedRemark, TextOut, write_all};

/// How many bytes are gathered before they are written.
const MOST_TEXT: usize = 65_536;

/// How a run is told: the text of each piece.
pub trait Telling {
    /// The texts of the pieces.
    ghost wording: { Wording };

    /// Whether the whole memory is to be told after each event.
    fn is_whole() -> bool
        ensures { result ≡ wording.is_whole };

    /// Adds how a run opened. An `Err` says that memory was refused.
    fn push_opening(
        alloc: Global,
        opened: &Opened<'_>,
        text: &mut Vec<u8>,
    ) -> Result<(), AllocError>
        ensures { OnOk result (text.new.items ≡ text.old.items ++ wording.opening (opening_shown opened.now)) };

    /// Adds an event, by its number, that of the script's line that stored it, and its scene. An `Err` says that memory
    /// was refused.
    fn push_scene(
        alloc: Global,
        event: u64,
        line: Option<u64>,
        scene: &Scene,
        text: &mut Vec<u8>,
    ) -> Result<(), AllocError>
        ensures { OnOk result (text.new.items
            ≡ text.old.items ++ wording.event event line (scene_shown scene.now)) };

    /// Adds what is told beside the events. An `Err` says that memory was refused.
    fn push_remark(alloc: Global, one: &PlacedRemark, text: &mut Vec<u8>) -> Result<(), AllocError>
        ensures { OnOk result (text.new.items ≡ text.old.items ++ wording.remark one.now) };
}

/// Adds those of these remarks that are told where these events are chosen.
fn push_remarks<T: Telling>(
    alloc: Global,
    range: Range,
    remarks: &[PlacedRemark],
    text: &mut Vec<u8>,
) -> Result<(), AllocError>
    ensures { OnOk result (text.new.items ≡ text.old.items ++ flat_map (remark_told T.wording range) remarks.now) }
{
    for one in remarks {
        if range.tells(one) {
            T::push_remark(alloc, one, text)?;
        }
    }
    Ok(())
}

/// How many of these remarks stand first that are told before an event.
fn told_before(event: u64, remarks: &[PlacedRemark]) -> usize
    ensures count { result ≡ told_before event remarks.now }
    ensures inside { result ≤ length remarks.now }
{
    for (place, one) in remarks.iter().enumerate() {
        if one.before > event {
            return place;
        }
    }
    remarks.len()
}

/// The line of the script that stored an event, where there was a script.
fn line_of(event: u64, lines: &[u64]) -> Option<u64>
    ensures { result ≡ slice_get lines.now event }
{
    lines.get(event as usize).copied()
}

/// Adds an event, by its scene, behind those of these remarks that are told before it; the answer is the rest of them.
fn push_event<'a, T: Telling>(
    alloc: Global,
    range: Range,
    event: u64,
    lines: &[u64],
    scene: &Scene,
    remarks: &'a [PlacedRemark],
    text: &mut Vec<u8>,
) -> Result<&'a [PlacedRemark], AllocError>
    ensures text { OnOk result (text.new.items ≡ text.old.items
        ++ (flat_map (remark_told T.wording range) (take (told_before event remarks.now) remarks.now)
        ++ T.wording.event event (slice_get lines.now event) (scene_shown scene.now))) }
    ensures left { IfOk result (λ left. left.now ≡ drop (told_before event remarks.now) remarks.now) }
{
    let (told, left) = remarks.split_at(told_before(event, remarks));
    push_remarks::<T>(alloc, range, told, text)?;
    T::push_scene(alloc, event, line_of(event, lines), scene, text)?;
    Ok(left)
}

/// Writes what was gathered, where it has so many bytes; none of it is left then. An `Err` is `Write`: the output
/// failed.
fn write_from<W: TextOut>(least: usize, text: &mut Vec<u8>, out: &mut W) -> Result<(), BenchFault>
    requires { W.has_failed out.old ≡ false }
    ensures moved { OnOk result (Moves (W.contents out.old) (W.contents out.new) text.old.items text.new.items) }
    ensures all { OnOk result (least ≤ length text.old.items → text.new.items ≡ []) }
    ensures prefix { OnErr result (AppendsPrefix (W.contents out.old) (W.contents out.new) text.old.items) }
    ensures fault { IfErr result (λ e. e ≡ BenchFault.Write) }
    ensures out { IsErrOf result BenchFault.Write ↔ (W.has_failed out.new ≡ true) }
{
    if text.len() < least {
        return Ok(());
    }
    match write_all(out, text.as_slice()) {
        Ok(()) => {
            text.clear();
            Ok(())
        }
        Err(_) => Err(BenchFault::Write),
    }
}

/// Writes the events of some scenes, told: how the run opened, each event with its line and behind what is told before
/// it, and what is told after the last. A scene is told and let go before the next is made. An `Err` is `Memory` where
/// memory was refused, or `Write` where the output failed; a prefix is written then.
pub(crate) fn tell_events<T: Telling, O: Spoken, W: TextOut>(
    alloc: Global,
    range: Range,
    opened: &Opened<'_>,
    lines: &[u64],
    remarks: &[PlacedRemark],
    scenes: Scenes<'_, O>,
    out: &mut W,
) -> Result<(), BenchFault>
    requires numbers { range.from + length scenes < 2 ^ 64 }
    requires out { W.has_failed out.old ≡ false }
    ensures told { WritesText result (W.contents out.old) (W.contents out.new)
        (told_text T.wording (trace_with range opened.now scenes.entry) lines.now remarks.now) }
    ensures fault { IfErr result (λ e. (e ≡ BenchFault.Memory) ⊎ (e ≡ BenchFault.Write)) }
    ensures out { IsErrOf result BenchFault.Write ↔ (W.has_failed out.new ≡ true) }
{
    let mut scenes = scenes;
    let mut text = Vec::new(alloc);
    T::push_opening(alloc, opened, &mut text)?;
    let mut rest = remarks;
    let mut event = range.from;
    while let Some(scene) = scenes.next_scene(alloc)? {
        rest = push_event::<T>(alloc, range, event, lines, &scene, rest, &mut text)?;
        write_from(MOST_TEXT, &mut text, out)?;
        event += 1;
    }
    push_remarks::<T>(alloc, range, rest, &mut text)?;
    write_from(0, &mut text, out)
}
