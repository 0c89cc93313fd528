//! A test of a picture of two rows.

use run_layout::Range;
use run_picture::picture_of;
use uni_script::Checked;

/// Five calls of one process, with a note before the last one, and then a call of a process that comes with a new era.
const TWO_ROWS: &str = "universal 2 queue 1 16
call 0 deq
finish 0
call 0 deq
finish 0
call 0 deq
finish 0
call 0 deq
finish 0
# Again.
call 0 enq 123456
finish 0
reshape 2
call 1 deq
finish 1
";

/// What its picture must have: two rows, the first one with one lane and the other one with two.
///
/// A call of process 0 has 15 events of 20 each. A row ends by 40 + 1,348. There the fifth call has begun, at
/// 44 + 4 * 15 * 20, and its label of 20 letters would be cut. So the first row ends where that call begins. The era
/// ends with event 75, at 44 + 75 * 20, in the middle of a column for the 15 letters of "reshaped 2 at 6" and one more;
/// the 17 events of process 1 follow, and the strip ends 12 after them.
///
/// The note stands above the second row, with its stem 7 right of the begin of its call. The name of process 1 stands
/// behind the line where its lane begins, and not beside the row.
const ROWS: [&str; 9] = [
    "viewBox=\"0 0 1400 ",
    "<svg x=\"40\" y=\"54\" width=\"1204\" height=\"116\" viewBox=\"40 0 1204 116\"><use href=\"#strip\"/></svg>",
    "<svg x=\"40\" y=\"212\" width=\"780\" height=\"212\" viewBox=\"1244 0 780 212\"><use href=\"#strip\"/></svg>",
    "<text x=\"12\" y=\"127\" text-anchor=\"start\" fill=\"#000000\">P0</text>",
    "<text x=\"12\" y=\"285\" text-anchor=\"start\" fill=\"#000000\">P0</text>",
    "<line x1=\"47\" y1=\"186\" x2=\"47\" y2=\"212\"",
    "<text x=\"52\" y=\"198\" text-anchor=\"start\" fill=\"#000000\">Again.</text>",
    "<line x1=\"1608\" y1=\"164\"",
    "<text x=\"1612\" y=\"159\" text-anchor=\"start\" fill=\"#000000\">P1</text>",
];

/// Whether a text has a part.
fn has(text: &[u8], part: &[u8]) -> bool {
    for at in 0..text.len() {
        if text[at..].starts_with(part) {
            return true;
        }
    }
    false
}

#[test]
fn row_ends_before_a_label(rt: HostRuntime) {
    match picture_of(
        rt.alloc(),
        Range::all(),
        &mut Checked::new(TWO_ROWS.as_bytes()),
    ) {
        Ok(svg) => {
            for part in ROWS {
                assert!(rt; has(svg.as_slice(), part.as_bytes()), "{part}");
            }
        }
        Err(_) => assert!(rt; false),
    }
}
