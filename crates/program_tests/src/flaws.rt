//! Tests of what is told of a script with a fault on a world with a flaw: no answer is written then.

use course_run::{Flaw, run_flawed};
use std::alloc::Global;
use std::process::Abort;
use std::test::Fail;
use uni_script::Checked;

/// Scripts with a fault, and what is told of each.
const FAULTS: &[(&str, &str)] = &[
    ("", "line 1: no header\n"),
    ("# a note\n\n", "line 3: no header\n"),
    ("universal 1 stack 2 4\n", "line 1: bad header\n"),
    ("\nuniversal 1 book 2 4\nbad\n", "line 3: bad line\n"),
    ("universal 1 queue 2 4\ncall 0\tdeq\n", "line 2: bad byte\n"),
    ("universal 1 queue 2 4\nreshape 3\n", "line 2: bad line\n"),
    (
        "universal 1 queue 2 4\ncall 0 deq\n\ncall 0 pop\ncall 0\tdeq\n",
        "line 4: bad line\n",
    ),
    (
        // A note of 201 bytes.
        "universal 1 queue 2 4\n\
         ###################################################################\
         ###################################################################\
         ###################################################################\n",
        "line 2: too long\n",
    ),
];

/// Runs a script on a world with a flaw: this is the status, this is told of a fault, and answers are written only
/// where there is none.
fn assert_told(rt: &impl Abort, alloc: Global, script: &[u8], status: u8, fault: &str) {
    let mut text = Vec::new(alloc);
    let mut remarks = Vec::new(alloc);
    let ended = run_flawed(
        alloc,
        Flaw::HelpsBlindly,
        script,
        &mut Checked::new(&mut text),
        &mut Checked::new(&mut remarks),
    );
    assert_eq!(rt; ended, status);
    assert_eq!(rt; text.is_empty(), status != 0);
    assert_eq!(rt; remarks.as_slice(), fault.as_bytes());
}

#[test]
fn a_fault_is_told_and_no_answer_is_written(rt: HostRuntime) {
    for &(script, fault) in FAULTS {
        assert_told(&rt, rt.alloc(), script.as_bytes(), 2, fault);
    }
}

#[test]
fn a_script_has_at_most_100000_lines(rt: HostRuntime) -> Result<(), Fail> {
    let mut script = Vec::from_slice(rt.alloc(), b"universal 1 queue 2 4")?;
    for _ in 0..100_000 {
        script.push(b'\n')?;
    }
    assert_told(&rt, rt.alloc(), &script, 0, "");
    script.push(b'\n')?;
    assert_told(&rt, rt.alloc(), &script, 2, "line 100001: too many lines\n");
    Ok(())
}
