//! Wrong drawings: each is answered `Misdrawn`.

use run_layout::{PictureFault, Range, Subject, subject_of};
use run_lines::{COLUMNS, Ink, Sketch, Stroke, sketch_of};
use run_picture::{Drawn, draw};
use std::alloc::{AllocError, Global};
use std::test::Fail;
use svg_text::{Paint, Shape, Spot};
use uni_script::Checked;

/// Process 0 helps process 1, which stopped after its first step; a refusal comes before, and a call of a process that
/// a new era brings comes last.
const SCRIPT: &str = "universal 2 queue 2 16
call 1 enq 5
step 1
step 0
call 0 enq 6
finish 0
finish 1
reshape 3
call 2 deq
finish 2
call 1 deq
";

/// How high a lane is.
const LANE: u64 = 96;

/// What is wrong with a drawing.
#[derive(Clone, Copy)]
enum Wrong {
    /// Nothing.
    Nothing,
    /// A dot is in the lane above or below its own.
    DotInAnotherLane,
    /// A dot is drawn twice.
    DotTwice,
    /// The last shape of the strip, a text, is left out.
    LeftOut,
    /// The columns of two events are changed over.
    ColumnsChangedOver,
    /// Two lanes are the same.
    LanesOverlap,
    /// The tip of an arrow of help is in the lane of the process that helps.
    TipOfTheHelper,
    /// An open bar is drawn as one that has returned.
    OpenBarIsClosed,
    /// The bar of a call ends too late.
    BarEndsLate,
    /// A label says something else.
    LabelLies,
    /// The mark of a step is in the column before its own.
    StepBefore,
    /// The cross of a refusal stands after the next event.
    RefusalLate,
    /// A row begins further right than the one before it ends.
    RowBeginsLate,
    /// The last row ends before the strip.
    RowEndsEarly,
    /// The texts of the boxes of cells are exchanged.
    BoxesExchanged,
    /// A text of a box is left out.
    BoxTextLeftOut,
    /// A bar ends before the column in which it is to end.
    BarEndsEarly,
    /// A bar has no width.
    BarIsEmpty,
    /// All rows lie on one spot.
    RowsOnOneSpot,
    /// A row has no height.
    RowIsFlat,
    /// A row is too low for its lowest lane.
    RowCutsALane,
    /// The first row begins after the first events, and the strip is said to begin there.
    StripBeginsLate,
    /// Paper lies over a row, and over nothing that stands before it.
    RowUnderPaper,
    /// Paper lies over the strip.
    StripUnderPaper,
    /// Paper lies over the whole picture.
    AllUnderPaper,
    /// A shape passes the right edge.
    Outside,
    /// The title is another.
    Title,
}

/// What a picture shows of the script.
fn subject(alloc: Global) -> Result<Subject, Fail> {
    match subject_of(alloc, Range::all(), &mut Checked::new(SCRIPT.as_bytes())) {
        Ok(subject) => Ok(subject),
        Err(_) => Err(Fail::from("the script should be drawn")),
    }
}

/// A text that no mark has.
fn lie(alloc: Global) -> Result<Vec<u8>, AllocError> {
    b"lie".to_vec(alloc)
}

/// Makes each shape of the strip wrong that can be wrong in this way.
fn spoil_shape(alloc: Global, wrong: Wrong, shape: &mut Shape) -> Result<(), AllocError> {
    match (wrong, shape) {
        (Wrong::DotInAnotherLane, Shape::Dot(at)) => {
            *at = if at.y > LANE {
                at.back(0, LANE)
            } else {
                at.by(0, LANE)
            };
        }
        (Wrong::TipOfTheHelper, Shape::Tip(at, one, other)) => {
            *at = at.back(0, LANE);
            *one = one.back(0, LANE);
            *other = other.back(0, LANE);
        }
        (Wrong::BarEndsLate, Shape::Rect(_, width, _, _)) => *width = width.saturating_add(20),
        (Wrong::BarEndsEarly, Shape::Rect(_, width, _, Paint::Frame)) => *width /= 2,
        (Wrong::BarIsEmpty, Shape::Rect(_, width, _, Paint::Frame)) => *width = 0,
        (Wrong::RowsOnOneSpot, Shape::View(at, _, _, _)) => at.y = 0,
        (Wrong::RowIsFlat, Shape::View(_, _, height, _)) => *height = 0,
        (Wrong::RowCutsALane, Shape::View(_, _, height, _)) => *height = height.saturating_sub(
            LANE,
        ),
        (Wrong::LabelLies, Shape::Text(_, _, _, text)) => *text = lie(alloc)?,
        (Wrong::StepBefore, Shape::Titled(at, _, _, _, _)) => *at = at.back(20, 0),
        (Wrong::RefusalLate, Shape::Line(from, to, Paint::Cross)) => {
            *from = from.by(500, 0);
            *to = to.by(500, 0);
        }
        (Wrong::OpenBarIsClosed, Shape::Rect(_, _, 46, paint)) => *paint = Paint::Frame,
        (Wrong::RowBeginsLate, Shape::View(_, _, _, left)) => *left = left.saturating_add(20),
        (Wrong::RowEndsEarly, Shape::View(_, width, _, _)) => *width = width.saturating_sub(20),
        _ => {}
    }
    Ok(())
}

/// Makes a drawing wrong.
fn spoil(alloc: Global, wrong: Wrong, drawn: &mut Drawn) -> Result<(), AllocError> {
    for shape in &mut drawn.drawing.strip {
        spoil_shape(alloc, wrong, shape)?;
    }
    for shape in &mut drawn.drawing.shapes {
        if let Shape::View(..) = shape {
            spoil_shape(alloc, wrong, shape)?;
        }
    }
    spoil_order(alloc, wrong, drawn)
}

/// Paper of this size, from the left upper corner on.
fn paper(width: u64, height: u64) -> Shape {
    Shape::Rect(Spot { x: 0, y: 0 }, width, height, Paint::Paper)
}

/// Lets the rows begin so much further right in the strip.
fn begin_late(drawn: &mut Drawn, by: u64) {
    drawn.start = drawn.start.saturating_add(by);
    for shape in &mut drawn.drawing.shapes {
        if let Shape::View(_, width, _, left) = shape {
            *left = left.saturating_add(by);
            *width = width.saturating_sub(by);
            return;
        }
    }
}

/// Paper over the first row alone.
fn paper_over_row(shapes: &[Shape]) -> Shape {
    for shape in shapes {
        if let Shape::View(at, width, height, _) = shape {
            return Shape::Rect(*at, *width, *height, Paint::Paper);
        }
    }
    paper(0, 0)
}

/// Makes a drawing wrong where no single shape is.
fn spoil_order(alloc: Global, wrong: Wrong, drawn: &mut Drawn) -> Result<(), AllocError> {
    let first = drawn.boxes.0;
    match wrong {
        Wrong::DotTwice => drawn.drawing.strip.push(Shape::Dot(Spot { x: 60, y: 80 }))?,
        Wrong::LeftOut => {
            drawn.drawing.strip.pop();
        }
        Wrong::ColumnsChangedOver if drawn.layout.columns.len() > 4 => {
            drawn.layout.columns.swap(3, 4);
        }
        Wrong::LanesOverlap if drawn.layout.lanes.len() > 1 => {
            drawn.layout.lanes[1] = drawn.layout.lanes[0];
        }
        Wrong::BoxesExchanged if first < 1000 && drawn.drawing.shapes.len() > first + 4 => {
            drawn.drawing.shapes.swap(first + 2, first + 3);
        }
        Wrong::BoxTextLeftOut => drawn.boxes.1 = drawn.boxes.1.saturating_sub(1),
        Wrong::StripUnderPaper => {
            let over = paper(drawn.layout.width, drawn.layout.height);
            drawn.drawing.strip.push(over)?;
        }
        Wrong::AllUnderPaper => {
            let over = paper(drawn.drawing.width, drawn.drawing.height);
            drawn.drawing.shapes.push(over)?;
        }
        Wrong::StripBeginsLate => begin_late(drawn, 100),
        Wrong::RowUnderPaper => {
            let over = paper_over_row(&drawn.drawing.shapes);
            drawn.drawing.shapes.push(over)?;
        }
        Wrong::Outside => drawn.drawing.width = 500,
        Wrong::Title => drawn.drawing.title = lie(alloc)?,
        _ => {}
    }
    Ok(())
}

/// Whether a drawing that is wrong in this way is answered `Misdrawn`.
fn is_misdrawn(alloc: Global, wrong: Wrong) -> Result<bool, Fail> {
    let subject = subject(alloc)?;
    let mut drawn = draw(alloc, &subject.marks, &subject.remarks)?;
    spoil(alloc, wrong, &mut drawn)?;
    match run_picture::tried(alloc, &subject.marks, &subject.remarks, drawn) {
        Ok(_) => Ok(false),
        Err(fault) => Ok(fault == PictureFault::Misdrawn),
    }
}

/// Each way in which a drawing is made wrong.
const ALL: [Wrong; 26] = [
    Wrong::DotInAnotherLane,
    Wrong::DotTwice,
    Wrong::LeftOut,
    Wrong::ColumnsChangedOver,
    Wrong::LanesOverlap,
    Wrong::TipOfTheHelper,
    Wrong::OpenBarIsClosed,
    Wrong::BarEndsLate,
    Wrong::LabelLies,
    Wrong::StepBefore,
    Wrong::RefusalLate,
    Wrong::RowBeginsLate,
    Wrong::RowEndsEarly,
    Wrong::BoxesExchanged,
    Wrong::BoxTextLeftOut,
    Wrong::BarEndsEarly,
    Wrong::BarIsEmpty,
    Wrong::RowsOnOneSpot,
    Wrong::RowIsFlat,
    Wrong::RowCutsALane,
    Wrong::StripBeginsLate,
    Wrong::RowUnderPaper,
    Wrong::StripUnderPaper,
    Wrong::AllUnderPaper,
    Wrong::Outside,
    Wrong::Title,
];

#[test]
fn wrong_drawings_are_refused(rt: HostRuntime) -> Result<(), Fail> {
    assert!(rt; !is_misdrawn(rt.alloc(), Wrong::Nothing)?);
    for (place, wrong) in ALL.iter().enumerate() {
        assert!(rt; is_misdrawn(rt.alloc(), *wrong)?, "{place}");
    }
    Ok(())
}

/// Makes a stroke wrong, if it can be wrong in this way.
fn spoil_stroke(alloc: Global, wrong: Wrong, stroke: &mut Stroke) -> Result<(), AllocError> {
    match (wrong, &mut stroke.ink) {
        (Wrong::DotInAnotherLane, Ink::Text(text)) if text.as_slice() == b"*".as_slice() => {
            stroke.top = stroke.top.saturating_add(4);
            stroke.bottom = stroke.bottom.saturating_add(4);
        }
        (Wrong::TipOfTheHelper, Ink::Arrow) => stroke.bottom = stroke.bottom.saturating_add(4),
        (Wrong::BarEndsLate, Ink::Bar(width)) => *width = width.saturating_add(1),
        (Wrong::BarIsEmpty, Ink::Bar(width)) => *width = 0,
        (Wrong::BarEndsEarly, Ink::Bar(width)) => *width /= 2,
        (Wrong::LabelLies, Ink::Text(text)) => *text = lie(alloc)?,
        (Wrong::StepBefore, Ink::Text(text)) if text.as_slice() == b"h".as_slice() => {
            stroke.column = stroke.column.saturating_sub(1);
        }
        (Wrong::RefusalLate, Ink::Text(text)) if text.starts_with(b"x ") => {
            stroke.column = stroke.column.saturating_add(50);
        }
        _ => {}
    }
    Ok(())
}

/// Makes a sketch wrong.
fn spoil_sketch(alloc: Global, wrong: Wrong, sketch: &mut Sketch) -> Result<(), AllocError> {
    for stroke in &mut sketch.strokes {
        spoil_stroke(alloc, wrong, stroke)?;
    }
    match wrong {
        Wrong::LeftOut => {
            sketch.strokes.pop();
        }
        Wrong::ColumnsChangedOver if sketch.layout.columns.len() > 4 => {
            sketch.layout.columns.swap(3, 4);
        }
        Wrong::LanesOverlap if sketch.layout.lanes.len() > 1 => {
            sketch.layout.lanes[1] = sketch.layout.lanes[0];
        }
        Wrong::RowBeginsLate if sketch.blocks.len() > 1 => {
            sketch.blocks[1].from = sketch.blocks[1].from.saturating_add(1);
        }
        Wrong::RowEndsEarly => {
            sketch.blocks.pop();
        }
        _ => {}
    }
    Ok(())
}

/// Whether a sketch that is wrong in this way is answered `Misdrawn`.
fn is_misdrawn_in_lines(alloc: Global, wrong: Wrong) -> Result<bool, Fail> {
    let subject = subject(alloc)?;
    let mut sketch = sketch_of(alloc, COLUMNS, &subject.marks, &subject.remarks)?;
    spoil_sketch(alloc, wrong, &mut sketch)?;
    match run_lines::tried(alloc, COLUMNS, &subject.marks, &subject.remarks, &sketch) {
        Ok(_) => Ok(false),
        Err(fault) => Ok(fault == PictureFault::Misdrawn),
    }
}

/// Each way in which rows are made wrong.
const IN_LINES: [Wrong; 13] = [
    Wrong::DotInAnotherLane,
    Wrong::LeftOut,
    Wrong::ColumnsChangedOver,
    Wrong::LanesOverlap,
    Wrong::TipOfTheHelper,
    Wrong::BarEndsLate,
    Wrong::LabelLies,
    Wrong::StepBefore,
    Wrong::RefusalLate,
    Wrong::RowBeginsLate,
    Wrong::RowEndsEarly,
    Wrong::BarEndsEarly,
    Wrong::BarIsEmpty,
];

#[test]
fn wrong_rows_are_refused(rt: HostRuntime) -> Result<(), Fail> {
    assert!(rt; !is_misdrawn_in_lines(rt.alloc(), Wrong::Nothing)?);
    for (place, wrong) in IN_LINES.iter().enumerate() {
        assert!(rt; is_misdrawn_in_lines(rt.alloc(), *wrong)?, "{place}");
    }
    Ok(())
}
