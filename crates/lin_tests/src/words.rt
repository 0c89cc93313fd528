//! What the program says of words that ask for no history.

use crate::pictures::Nobody;
use std::alloc::AllocError;
use unicheck_run::run;

/// Whether the program ends so: its status, a text that is in what it writes, and one in what it complains of; where
/// such a text is empty, nothing is there.
fn ends_so(
    rt: &HostRuntime,
    words: &[&str],
    status: u8,
    written: &str,
    faults: &str,
) -> Result<bool, AllocError> {
    let alloc = rt.alloc();
    let (mut to_output, mut to_faults) = (Vec::new(alloc), Vec::new(alloc));
    let mut input: &[u8] = b"";
    let ended = run(
        rt,
        words,
        &mut input,
        &mut to_output,
        &mut to_faults,
        &Nobody,
    );
    let output = String::from_utf8(to_output).unwrap_or(String::new(alloc));
    let said = String::from_utf8(to_faults).unwrap_or(String::new(alloc));
    Ok(
        ended == status
            && output.is_empty() == written.is_empty()
            && output.as_str().contains(written)
            && said.is_empty() == faults.is_empty()
            && said.as_str().contains(faults),
    )
}

#[test]
fn help_and_version(rt: HostRuntime) -> Result<(), AllocError> {
    let usage = "Usage: unicheck [OPTIONS] <OBJECT> [FILE]";
    for (word, written) in [
        ("--help", usage),
        ("-h", usage),
        ("--version", "unicheck 0.1.0\n"),
    ] {
        assert!(rt; ends_so(&rt, &["unicheck", word], 0, written, "")?);
    }
    Ok(())
}

#[test]
fn bad_words(rt: HostRuntime) -> Result<(), AllocError> {
    let two = &["unicheck", "--svg", "--html", "queue"];
    let one_form = "only one of --order, --svg and --html can be used";
    assert!(rt; ends_so(&rt, two, 2, "", one_form)?);
    let objects = "OBJECT is one of queue, stack, register, counter, map and set";
    assert!(rt; ends_so(&rt, &["unicheck", "tree"], 2, "", objects)?);
    assert!(rt; ends_so(&rt, &["unicheck"], 2, "", "OBJECT")?);
    assert!(rt; ends_so(&rt, &["unicheck", "queue"], 0, "linearizable\n", "")?);
    Ok(())
}
