//! Tests of the labels of equal refusals, of columns, and of the longest picture.

use run_layout::{
    Axis, PictureFault, Range, RangeFault, Scale, Subject, Told, axis_of, subject_of, told_of,
};
use std::alloc::Global;
use std::io::Write;
use std::test::Fail;
use uni_script::Checked;

/// A call that has begun and taken a step, with a note before the header, a refusal, a note and another
/// refusal.
const PENDING: &str = "# One call.
universal 1 queue 2 8
call 1 enq 5
step 1
call 1 deq
# It goes no further.
trim
";

/// A letter is one wide, and so is all else.
const NARROW: Scale = Scale {
    start: 0,
    step: 1,
    letter: 1,
    mark: 1,
    margin: 0,
    top: 0,
    lane: 0,
};

/// What a picture shows of a good script.
fn subject(alloc: Global, script: &str) -> Result<Subject, Fail> {
    match subject_of(alloc, Range::all(), &mut Checked::new(script.as_bytes())) {
        Ok(subject) => Ok(subject),
        Err(_) => Err(Fail::from("the script should be drawn")),
    }
}

/// What was told twice of one process, once of another, and once again of that after a step.
const IDLE: &str = "universal 1 queue 2 8
step 0
step 0
step 1
call 1 deq
step 1
step 0
";

/// Whether the label of a remark is this.
fn is_labelled(told: &[Told], place: usize, want: Option<&str>) -> bool {
    match (told.get(place), want) {
        (Some(one), Some(want)) => match &one.label {
            Some(label) => label.as_slice() == want.as_bytes(),
            None => false,
        },
        (Some(one), None) => one.label.is_none(),
        (None, _) => false,
    }
}

#[test]
fn equal_refusals_have_one_label(rt: HostRuntime) -> Result<(), Fail> {
    let subject = subject(rt.alloc(), IDLE)?;
    let told = told_of(rt.alloc(), &subject.remarks)?;
    assert!(rt; told.len() == 4);
    assert!(rt; is_labelled(&told, 0, None));
    assert!(rt; is_labelled(&told, 1, Some("step 0 refused: P0 has no call pending x2")));
    assert!(rt; is_labelled(&told, 2, Some("step 1 refused: P1 has no call pending")));
    assert!(rt; is_labelled(&told, 3, Some("step 0 refused: P0 has no call pending")));
    Ok(())
}

/// Whether columns have their events and their remarks where they should.
fn has_columns(axis: &Axis) -> bool {
    // The label has nine letters and the room beside them, of which the step after it takes one.
    let events = match axis.layout.columns.as_slice() {
        [call, step, end] => {
            (call.from, call.to) == (0, 9)
                && (step.from, step.to) == (9, 10)
                && (end.from, end.to) == (90, 90)
        }
        _ => false,
    };
    // The mark, and "call 1 deq refused: P1 has a call pending" or "trim refused: P1 has a call pending" with the room
    // beside it.
    let remarks = match axis.remarks.as_slice() {
        [_, call, note, trim] => {
            (call.from, call.to) == (10, 53)
                && (note.from, note.to) == (53, 53)
                && (trim.from, trim.to) == (53, 90)
        }
        _ => false,
    };
    events && remarks
}

#[test]
fn columns(rt: HostRuntime) -> Result<(), Fail> {
    let subject = subject(rt.alloc(), PENDING)?;
    let axis = axis_of(rt.alloc(), &subject.marks, &subject.remarks, NARROW)?;
    assert!(rt; has_columns(&axis));
    Ok(())
}

/// A script of 133 calls of one process, 15 events each, and of one that takes so many steps.
fn long_script(alloc: Global, steps: u64) -> Result<Vec<u8>, Fail> {
    let mut script = Vec::from_slice(alloc, b"universal 1 queue 1 4096\n")?;
    for _ in 0..133 {
        script.extend_from_slice(b"call 0 deq\nfinish 0\n")?;
    }
    write!(script, "call 0 deq\nstep 0 {steps}\n")?;
    Ok(script)
}

#[test]
fn a_picture_shows_2000_events(rt: HostRuntime) -> Result<(), Fail> {
    let many = Some(PictureFault::Range(RangeFault::TooManyEvents));
    let past = Some(PictureFault::Range(RangeFault::PastEnd));
    for (steps, from, fault) in [
        (4, 0, None),
        (5, 0, many),
        (5, 1, None),
        (5, 2000, None),
        (5, 2001, past),
    ] {
        let script = long_script(rt.alloc(), steps)?;
        let range = Range { from, to: None };
        let subject = subject_of(rt.alloc(), range, &mut Checked::new(script.as_slice()));
        assert!(rt; subject.err() == fault, "{steps} steps, from {from}");
    }
    Ok(())
}
