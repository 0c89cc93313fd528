//! Tests of schedules: of the words that they are drawn from, and of what each word stands for.

ghost use Rattle.uni_script.specs.Schedules.{IsPlan, listed};

use std::alloc::Global;
use std::process::Abort;
use std::test::Fail;
use uni_script::{BenchFault, Checked, Drawn, ObjectName, Plan, TextOut, schedule};

/// A source of the words of a list, and then of zeros.
#[derive(Drop)]
struct Listed<'a> {
    words: &'a [u64],
}

impl Drawn for Listed<'_> {
    ghost word = { λ source. listed source.words.now };

    fn draw(&mut self) -> u64 {
        match self.words {
            [] => 0,
            [first, rest @ ..] => {
                self.words = rest;
                *first
            }
        }
    }
}

#[test]
fn four_words_make_three_events(rt: HostRuntime) {
    let plan = Plan {
        object: ObjectName::Queue,
        processes: 2,
        row: 8,
        events: 3,
    };
    let words = [33, 22, 20, 16, 5];
    let mut source = Listed {
        words: words.as_slice(),
    };
    let mut text = Vec::new(rt.alloc());
    let mut writer = Checked::new(&mut text);
    let outcome = schedule(rt.alloc(), &mut source, &mut writer, &plan);
    assert!(rt; outcome == Ok(()));
    assert!(rt;
        text.as_slice()
            == b"universal 1 queue 2 8\ncall 0 enq 7\nstep 1\ntrim\nfinish 0\nfinish 1\nlog\n".as_slice()
    );
    // The fifth word was not drawn.
    assert!(rt; source.draw() == 5);

    let mut room = [0; 4];
    let mut writer = Checked::new(room.as_mut_slice());
    let outcome = schedule(
        rt.alloc(),
        &mut Listed {
            words: words.as_slice(),
        },
        &mut writer,
        &plan,
    );
    assert!(rt; outcome == Err(BenchFault::Write));
    assert!(rt; writer.failed());
    assert!(rt; room == *b"univ");
}

/// The schedule that is drawn from words.
fn drawn(alloc: Global, words: &[u64], plan: &Plan) -> Option<Vec<u8>>
    requires { IsPlan plan.now }
{
    let mut source = Listed { words };
    let mut text = Vec::new(alloc);
    match schedule(alloc, &mut source, &mut Checked::new(&mut text), plan) {
        Ok(()) => Some(text),
        Err(_) => None,
    }
}

/// Asserts the invocation that a word stands for, in a schedule of one event, which is a call.
fn stands_for(
    rt: &impl Abort,
    alloc: Global,
    object: ObjectName,
    word: u64,
    want: &str,
) -> Result<(), Fail> {
    let plan = Plan {
        object,
        processes: 1,
        row: 1,
        events: 1,
    };
    let text = drawn(alloc, &[1, word], &plan).ok_or("no schedule")?;
    let line = format!(in alloc; " 1 1\ncall 0 {want}\nfinish 0\nlog\n")?;
    assert!(rt; text.as_slice().ends_with(line.as_bytes()), "{want}");
    Ok(())
}

/// Words at each residue, and where a product passes its modulus. The greatest word is 2^64 - 1.
const DRAWN: &[(ObjectName, u64, &str)] = &[
    (ObjectName::Queue, 0, "deq"),
    (ObjectName::Queue, 1, "enq 0"),
    (ObjectName::Queue, 2, "enq 0"),
    (ObjectName::Queue, 3, "deq"),
    (ObjectName::Queue, 4, "enq 1"),
    (ObjectName::Queue, 22, "enq 7"),
    (ObjectName::Queue, 33, "deq"),
    (ObjectName::Queue, 2_999, "enq 999"),
    (ObjectName::Queue, 3_001, "enq 0"),
    (ObjectName::Queue, 18_446_744_073_709_551_614, "enq 204"),
    (ObjectName::Queue, 18_446_744_073_709_551_615, "deq"),
    (ObjectName::Directory, 0, "put n0 0"),
    (ObjectName::Directory, 1, "put n0 0"),
    (ObjectName::Directory, 2, "put n0 0"),
    (ObjectName::Directory, 3, "get n0"),
    (ObjectName::Directory, 4, "get n0"),
    (ObjectName::Directory, 5, "del n0"),
    (ObjectName::Directory, 6, "size"),
    (ObjectName::Directory, 7, "at 0"),
    (ObjectName::Directory, 11, "get n1"),
    (ObjectName::Directory, 13, "del n1"),
    (ObjectName::Directory, 30, "size"),
    (ObjectName::Directory, 63, "at 7"),
    (ObjectName::Directory, 79, "at 9"),
    (ObjectName::Directory, 72, "put n9 0"),
    (ObjectName::Directory, 80, "put n0 1"),
    (ObjectName::Directory, 79_994, "put n9 999"),
    (ObjectName::Directory, 80_000, "put n0 0"),
    (ObjectName::Directory, 18_446_744_073_709_551_615, "at 1"),
    (ObjectName::Book, 0, "deposit 0 0"),
    (ObjectName::Book, 1, "withdraw 0 0"),
    (ObjectName::Book, 2, "move 0 0 0"),
    (ObjectName::Book, 3, "total"),
    (ObjectName::Book, 60, "deposit 15 0"),
    (ObjectName::Book, 61, "withdraw 15 0"),
    (ObjectName::Book, 64, "deposit 0 0"),
    (ObjectName::Book, 1_022, "move 15 15 0"),
    (ObjectName::Book, 1_024, "deposit 0 1"),
    (ObjectName::Book, 5_254, "move 1 2 5"),
    (ObjectName::Book, 1_023_998, "move 15 15 999"),
    (ObjectName::Book, 1_024_000, "deposit 0 0"),
    (
        ObjectName::Book,
        18_446_744_073_709_551_614,
        "move 15 15 983",
    ),
    (ObjectName::Sticky, 0, "read"),
    (ObjectName::Sticky, 1, "stick 0"),
    (ObjectName::Sticky, 2, "read"),
    (ObjectName::Sticky, 3, "stick 1"),
    (ObjectName::Sticky, 18, "read"),
    (ObjectName::Sticky, 19, "stick 9"),
    (ObjectName::Sticky, 1_999, "stick 999"),
    (ObjectName::Sticky, 2_001, "stick 0"),
    (ObjectName::Sticky, 18_446_744_073_709_551_615, "stick 807"),
];

#[test]
fn words_at_each_residue(rt: HostRuntime) -> Result<(), Fail> {
    for (object, word, want) in DRAWN {
        stands_for(&rt, rt.alloc(), *object, *word, want)?;
    }
    Ok(())
}

/// Asserts that a schedule of one event of 64 processes has this line for the event.
fn draws(rt: &impl Abort, alloc: Global, word: u64, want: &str) -> Result<(), Fail> {
    let plan = Plan {
        object: ObjectName::Sticky,
        processes: 64,
        row: 1,
        events: 1,
    };
    let text = drawn(alloc, &[word], &plan).ok_or("no schedule")?;
    let prefix = format!(in alloc; "universal 2 sticky 64 1\n{want}finish 0\n")?;
    assert!(rt; text.as_slice().starts_with(prefix.as_bytes()), "{want}");
    Ok(())
}

/// Words, each with the line of its event. The last process is drawn by the greatest word, and by one
/// less than a turn of all residues.
const EVENTS: &[(u64, &str)] = &[
    (0, "trim\n"),
    (1, "call 0 read\n"),
    (3, "call 0 read\n"),
    (4, "step 0\n"),
    (15, "step 0\n"),
    (16, "trim\n"),
    (20, "step 1\n"),
    (1_023, "step 63\n"),
    (1_024, "trim\n"),
    (1_028, "step 0\n"),
    (18_446_744_073_709_551_615, "step 63\n"),
];

#[test]
fn events_at_each_residue(rt: HostRuntime) -> Result<(), Fail> {
    for (word, want) in EVENTS {
        draws(&rt, rt.alloc(), *word, want)?;
    }
    Ok(())
}
