//! Tests of scripts that are typed.

use crate::runs::by_sevens;
use std::io::Read;
use std::process::Abort;
use unibench_run::Typed;

/// What a user types: a header and a command with a letter left out, and all others right.
const TYPED: &[u8] =
    b"# help\nuniversl 2 queue 2 8\nuniversal 2 queue 2 8\nfinsh 1\n\ncall 1 enq 5\nfinish 1\n";

/// What is handed on of it.
const GOOD: &[u8] = b"# help\nuniversal 2 queue 2 8\n\ncall 1 enq 5\nfinish 1\n";

/// What the user is told: a prompt for each line and for the end, and why two lines are bad.
const TOLD: &[u8] = b"> > universl 2 queue 2 8
^^^^^^^^
the first line that isn't a note is the header: universal VERSION OBJECT N K
> > finsh 1
^^^^^
unknown command: the nearest is 'finish'
> > > >\x20
";

#[test]
fn bad_line_is_survived(rt: HostRuntime) {
    let mut told = Vec::new(rt.alloc());
    let mut text = Vec::new(rt.alloc());
    let is_read = Typed::new(rt.alloc(), by_sevens(TYPED, false), &mut told, true)
        .read_to_end(&mut text)
        .is_ok();
    assert!(rt; is_read && text.as_slice() == GOOD);
    assert!(rt; told.as_slice() == TOLD);
}

#[test]
fn other_script_is_handed_on(rt: HostRuntime) {
    let mut told = Vec::new(rt.alloc());
    let mut text = Vec::new(rt.alloc());
    let is_read = Typed::new(rt.alloc(), by_sevens(TYPED, false), &mut told, false)
        .read_to_end(&mut text)
        .is_ok();
    assert!(rt; is_read && text.as_slice() == TYPED);
    assert!(rt; told.is_empty());
}
