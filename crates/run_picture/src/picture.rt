//! A drawing is tried before it becomes a picture, and a picture is made of the bytes of a script.

ghost use Rattle.std.specs.Prelude.{◌≡◌, ◌-◌, IfOk, IsErrOf, IsTrue, false, map};
ghost use Rattle.run_picture.specs.Vocabulary.{spoken, HasFault, IsFaultOfScript, scripts_of, own_scripts_of, Fault};
ghost use Rattle.run_picture.specs.Vocabulary.{marks_shown, chosen, chosen_remarks, HasRangeFault, HasRangeFaultOf};
ghost use Rattle.run_picture.specs.Vocabulary.{RangeFault, marks_of_own, meaning, places_shown};
ghost use Rattle.run_picture.specs.Picture.{HasBoxes, IsDrawingOf, IsStripOf, IsSvgOf, IsPicture, IsPictureOf};

use crate::parts::{boxes_of, parts_of};
use crate::sheet::{Drawn, draw};
use ready_objects::Spoken;
use run_layout::{PictureFault, Range, Subject, signs_of, subject_of, subject_of_object, title_of};
use run_replay::Marks;
use signs::{
    Layout, Part, are_clear, are_from, are_high_enough, are_in_sight, are_shown, are_within, fill,
};
use std::alloc::Global;
use svg_text::{Drawing, svg_of};
use uni_script::{PlacedRemark, TextIn};

/// Whether the strip of a drawing has these shapes from a place on, and the views show all of it.
fn is_strip(layout: &Layout, start: u64, parts: &[Part], drawing: &Drawing) -> bool
    ensures { IsTrue result → IsStripOf (places_shown layout.now) (map meaning parts.now) drawing.now }
{
    layout.is_apart()
        && are_shown(layout, parts, &drawing.strip)
        && are_in_sight(&drawing.strip)
        && are_within(layout.width, layout.height, &drawing.strip)
        && are_from(start, &drawing.strip)
        && fill(start, layout.width, &drawing.shapes)
        && are_high_enough(&drawing.strip, &drawing.shapes)
        && are_clear(&drawing.shapes)
}

/// Whether these shapes of a drawing are these boxes.
fn has_boxes(alloc: Global, from: usize, to: usize, parts: &[Part], drawing: &Drawing) -> bool
    ensures { IsTrue result → HasBoxes (map meaning parts.now) drawing.now }
{
    let sheet = Layout {
        columns: Vec::new(alloc),
        lanes: Vec::new(alloc),
        width: drawing.width,
        height: drawing.height,
    };
    if from > to || to > drawing.shapes.len() {
        return false;
    }
    are_shown(&sheet, parts, &drawing.shapes[from..to])
}

/// The drawing of the marks of a run, with what was told beside its events, where it shows them. An `Err` is `Misdrawn`
/// where it does not, or says that memory was refused.
pub fn tried(
    alloc: Global,
    marks: &Marks,
    remarks: &[PlacedRemark],
    drawn: Drawn,
) -> Result<Drawing, PictureFault>
    ensures drawing { IfOk result (λ drawing. drawing ≡ drawn.drawing) }
    ensures shown { IfOk result (λ drawing. IsDrawingOf (marks_shown marks.now) remarks.now drawing) }
    ensures range { (e : RangeFault) → IsErrOf result (PictureFault.Range e) → ⊥ }
    ensures memory { (e : Fault) → IsErrOf result (PictureFault.Script e) → e ≡ Fault.Memory }
{
    let Drawn {
        drawing,
        layout,
        start,
        boxes,
    } = drawn;
    let parts = parts_of(alloc, &signs_of(alloc, marks, remarks)?)?;
    let cells = boxes_of(alloc, &marks.dots, &marks.eras)?;
    let title = title_of(alloc, marks)?;
    if drawing.title.as_slice() != title.as_slice()
        || !is_strip(&layout, start, &parts, &drawing)
        || !has_boxes(alloc, boxes.0, boxes.1, &cells, &drawing)
        || !are_in_sight(&drawing.shapes)
        || !are_within(drawing.width, drawing.height, &drawing.shapes)
    {
        return Err(PictureFault::Misdrawn);
    }
    Ok(drawing)
}

/// The SVG of what a picture shows where these events are chosen. An `Err` is `Misdrawn` where the drawing does not
/// show it, or says that memory was refused.
fn svg_of_subject(alloc: Global, range: Range, subject: Subject) -> Result<Vec<u8>, PictureFault>
    ensures svg { IfOk result (λ svg. IsSvgOf (chosen range (marks_shown subject.marks))
        (chosen_remarks range subject.remarks.items) svg.items) }
    ensures range { (e : RangeFault) → IsErrOf result (PictureFault.Range e) → ⊥ }
    ensures memory { (e : Fault) → IsErrOf result (PictureFault.Script e) → e ≡ Fault.Memory }
{
    let part = subject.chosen(alloc, range)?;
    let drawn = draw(alloc, &part.marks, &part.remarks)?;
    let drawing = tried(alloc, &part.marks, &part.remarks, drawn)?;
    Ok(svg_of(alloc, &drawing)?)
}

/// The picture of the run of the script that a reader has, where these events are chosen, as the text of an SVG. An
/// `Err` is the first fault of the script; `Read` where the reader failed; `Memory` where memory was refused;
/// `Range` of a good script of which these events can't be chosen; or `Misdrawn` where the drawing of its run does not
/// show its marks, of which no script is known.
pub fn picture_of<I: TextIn>(
    alloc: Global,
    range: Range,
    reader: &mut I,
) -> Result<Vec<u8>, PictureFault>
    requires { I.has_failed reader.old ≡ false }
    ensures picture { IfOk result (λ svg. IsPicture range (I.remaining reader.old) svg.items) }
    ensures range { (e : RangeFault) → IsErrOf result (PictureFault.Range e)
        → HasRangeFault range e (I.remaining reader.old) }
    ensures fault { (e : Fault) → IsErrOf result (PictureFault.Script e) → IsFaultOfScript e
        → HasFault (scripts_of 1048576) (I.remaining reader.old) e }
{
    let subject = subject_of(alloc, range, reader)?;
    svg_of_subject(alloc, range, subject)
}

/// The same of a script over an object, whose header names the object by this word, as for `uni_script::bench_object`.
/// The errors are those of `picture_of`.
pub fn picture_of_object<O: Spoken + Copy, I: TextIn>(
    alloc: Global,
    object: O,
    name: &str,
    range: Range,
    reader: &mut I,
) -> Result<Vec<u8>, PictureFault>
    requires { I.has_failed reader.old ≡ false }
    ensures picture { IfOk result (λ svg. IsPictureOf
        (own_scripts_of (spoken O.sequential O.language object) name.now 1048576)
        (marks_of_own (spoken O.sequential O.language object) O.state_text name.now)
        range (I.remaining reader.old) svg.items) }
    ensures range { (e : RangeFault) → IsErrOf result (PictureFault.Range e)
        → HasRangeFaultOf (own_scripts_of (spoken O.sequential O.language object) name.now 1048576)
        range e (I.remaining reader.old) }
    ensures fault { (e : Fault) → IsErrOf result (PictureFault.Script e) → IsFaultOfScript e
        → HasFault (own_scripts_of (spoken O.sequential O.language object) name.now 1048576)
        (I.remaining reader.old) e }
{
    let subject = subject_of_object(alloc, object, name, range, reader)?;
    svg_of_subject(alloc, range, subject)
}
