//! What is drawn of histories of a queue. Where things stand is compared with where others stand: the pictures' numbers
//! were not worked out.

use std::alloc::{AllocError, Global};
use unicheck_run::{Form, ObjectName, Request, Stage, Watch, judge_text};

/// It looks at nothing.
pub(crate) struct Nobody;

impl Watch for Nobody {
    fn comes_to(&self, _: Stage) {}
}

/// What the program writes of a history, its status, and what it complains of.
#[derive(Drop)]
struct Told {
    status: u8,
    text: String,
    faults: String,
}

/// What is written in a form, after so many rounds of each search.
fn written(alloc: Global, form: Form, rounds: u64, history: &str) -> Result<Told, AllocError> {
    let mut output = Vec::new(alloc);
    let mut faults = Vec::new(alloc);
    let request = Request {
        object: ObjectName::Queue,
        form,
        rounds,
    };
    let text = history.as_bytes();
    let status = judge_text(alloc, request, text, &mut output, &mut faults, &Nobody);
    Ok(Told {
        status,
        text: String::from_utf8(output).unwrap_or(String::new(alloc)),
        faults: String::from_utf8(faults).unwrap_or(String::new(alloc)),
    })
}

/// The picture of a history.
fn picture(alloc: Global, history: &str) -> Result<Told, AllocError> {
    written(alloc, Form::Svg, 1_000, history)
}

/// The lines of a picture that are of a kind of shape, and have these attributes.
fn shapes<'a>(
    alloc: Global,
    picture: &'a str,
    kind: &str,
    attributes: &str,
) -> Result<Vec<&'a str>, AllocError> {
    let mut found = Vec::new(alloc);
    for line in picture.lines() {
        if line.starts_with(kind) && line.contains(attributes) {
            found.push(line)?;
        }
    }
    Ok(found)
}

/// The lines of the bars of calls that return.
fn bars(alloc: Global, picture: &str) -> Result<Vec<&str>, AllocError> {
    shapes(alloc, picture, "<rect", "stroke=\"#333333\"")
}

/// The lines of those in red.
fn reds(alloc: Global, picture: &str) -> Result<Vec<&str>, AllocError> {
    shapes(alloc, picture, "<rect", "fill=\"#d55e00\"")
}

/// The lines of the points at which calls take effect.
fn dots(alloc: Global, picture: &str) -> Result<Vec<&str>, AllocError> {
    shapes(alloc, picture, "<circle", "")
}

/// A number of a shape: an attribute, with the quotation mark that opens its value.
fn number(line: &str, attribute: &str) -> u64 {
    let after = line.split_once(attribute).map(|(_, after)| after);
    let digits = after.and_then(|after| after.split_once('"'));
    digits
        .and_then(|(digits, _)| digits.parse::<u64>().ok())
        .unwrap_or(u64::MAX)
}

/// The number of a shape that has this place among others.
fn number_at(lines: &[&str], place: usize, attribute: &str) -> u64 {
    match lines.get(place) {
        Some(line) => number(line, attribute),
        None => u64::MAX,
    }
}

/// Whether the point of a place is between the left and the right edge of the bar of a place, and as high.
fn is_on(bars: &[&str], bar: usize, dots: &[&str], dot: usize) -> bool {
    let (x, y) = (
        number_at(dots, dot, " cx=\""),
        number_at(dots, dot, " cy=\""),
    );
    let (left, top) = (number_at(bars, bar, " x=\""), number_at(bars, bar, " y=\""));
    let right = left.saturating_add(number_at(bars, bar, " width=\""));
    let foot = top.saturating_add(number_at(bars, bar, " height=\""));
    left < x && x < right && top < y && y < foot
}

/// How many texts of a picture are this one.
fn texts(alloc: Global, picture: &str, text: &str) -> Result<usize, AllocError> {
    let end = format!(in alloc; ">{text}</text>")?;
    Ok(shapes(alloc, picture, "<text", end.as_str())?.len())
}

#[test]
fn a_wrong_reply_alone_is_red(rt: HostRuntime) -> Result<(), AllocError> {
    let alloc = rt.alloc();
    let stale =
        "call 0 enq 5\nreturn 0 ok\ncall 0 enq 6\nreturn 0 ok\ncall 1 deq\nreturn 1 6\ncall 1 deq\nreturn 1 5";
    let drawn = picture(alloc, stale)?;
    assert_eq!(rt; drawn.status, 1);
    // The picture ends with the wrong reply: three bars, of which the last is red.
    let red = reds(alloc, drawn.text.as_str())?;
    let all = bars(alloc, drawn.text.as_str())?;
    assert!(rt; red.len() == 1 && all.len() == 3 && all.last() == red.last());
    assert_eq!(rt; texts(alloc, drawn.text.as_str(), "deq -&gt; 6")?, 1);
    assert_eq!(rt; texts(alloc, drawn.text.as_str(), "deq -&gt; 5")?, 0);
    // Both numbers were put in before; the call in red takes effect nowhere.
    let points = dots(alloc, drawn.text.as_str())?;
    assert!(rt; points.len() == 2 && is_on(&all, 0, &points, 0) && is_on(&all, 1, &points, 1));
    let first = "no order is left with the event of line 6: return 1 6";
    assert_eq!(rt; texts(alloc, drawn.text.as_str(), first)?, 1);
    assert_eq!(rt;
        texts(alloc, drawn.text.as_str(), "it could have been: 5")?,
        1
    );
    Ok(())
}

#[test]
fn points_are_in_order(rt: HostRuntime) -> Result<(), AllocError> {
    let alloc = rt.alloc();
    // The number that was put in second is taken first: so it was put in first.
    let turned = "a enq 1 -> ok 1 4\nb enq 2 -> ok 2 3\na deq -> 2 5 6\nb deq -> 1 7 8";
    let drawn = picture(alloc, turned)?;
    assert_eq!(rt; drawn.status, 0);
    let all = bars(alloc, drawn.text.as_str())?;
    let points = dots(alloc, drawn.text.as_str())?;
    assert!(rt; all.len() == 4 && points.len() == 4);
    assert_eq!(rt; reds(alloc, drawn.text.as_str())?.len(), 0);
    for place in 0..4 {
        assert!(rt; is_on(&all, place, &points, place));
    }
    let at = |place: usize| number_at(&points, place, " cx=\"");
    assert!(rt; at(1) < at(0) && at(0) < at(2) && at(2) < at(3));
    Ok(())
}

#[test]
fn calls_without_a_return_are_open(rt: HostRuntime) -> Result<(), AllocError> {
    let alloc = rt.alloc();
    // 7 is taken, so it was put in by the call that is lost; 8 by a call that is pending, and by no other.
    let open = "call 0 enq 7\nlost 0\ncall 1 enq 8\ncall 2 deq\nreturn 2 7\ncall 2 deq\nreturn 2 8";
    let drawn = picture(alloc, open)?;
    assert_eq!(rt; drawn.status, 0);
    let all = bars(alloc, drawn.text.as_str())?;
    let edges = shapes(alloc, drawn.text.as_str(), "<line", "stroke=\"#333333\"")?;
    assert!(rt; all.len() == 2 && edges.len() == 6);
    for text in [
        "enq 7 -&gt; ?",
        "enq 8 -&gt; ?",
        "deq -&gt; 7",
        "deq -&gt; 8",
    ] {
        assert_eq!(rt; texts(alloc, drawn.text.as_str(), text)?, 1);
    }
    let points = dots(alloc, drawn.text.as_str())?;
    let at = |place: usize| number_at(&points, place, " cx=\"");
    assert!(rt; points.len() == 4 && at(0) < at(2) && at(1) < at(3));
    assert!(rt; is_on(&all, 0, &points, 2) && is_on(&all, 1, &points, 3));
    Ok(())
}

/// So many processes, each with one call, and all at one time.
fn crowd(alloc: Global, count: usize) -> Result<String, AllocError> {
    let mut history = String::new(alloc);
    for process in 0..count {
        let call = format!(in alloc; "T{process} enq {process} -> ok 1 2\n")?;
        history.push_str(call.as_str())?;
    }
    Ok(history)
}

#[test]
fn many_processes_have_lanes(rt: HostRuntime) -> Result<(), AllocError> {
    let alloc = rt.alloc();
    let drawn = picture(alloc, crowd(alloc, 40)?.as_str())?;
    let all = bars(alloc, drawn.text.as_str())?;
    assert!(rt; drawn.status == 0 && all.len() == 40);
    let mut above = 0;
    for process in 0..40usize {
        let name = format!(in alloc; "T{process}")?;
        assert_eq!(rt; texts(alloc, drawn.text.as_str(), name.as_str())?, 1);
        let top = number_at(&all, process, " y=\"");
        assert!(rt; above < top);
        above = top.saturating_add(number_at(&all, process, " height=\""));
    }
    Ok(())
}

/// So many calls, one after the other.
fn calls(alloc: Global, count: usize) -> Result<String, AllocError> {
    let mut history = String::new(alloc);
    for number in 0..count {
        let call = format!(in alloc; "call 0 enq {number}\nreturn 0 ok\n")?;
        history.push_str(call.as_str())?;
    }
    Ok(history)
}

#[test]
fn none_and_too_many(rt: HostRuntime) -> Result<(), AllocError> {
    let alloc = rt.alloc();
    let empty = picture(alloc, "")?;
    assert!(rt; empty.status == 0 && bars(alloc, empty.text.as_str())?.len() == 0);
    assert_eq!(rt; texts(alloc, empty.text.as_str(), "linearizable")?, 1);
    let most = picture(alloc, calls(alloc, 400)?.as_str())?;
    assert!(rt; most.status == 0 && bars(alloc, most.text.as_str())?.len() == 400);
    assert_eq!(rt; dots(alloc, most.text.as_str())?.len(), 400);
    let many = picture(alloc, calls(alloc, 401)?.as_str())?;
    assert!(rt; many.status == 2 && many.text.is_empty());
    assert!(rt; many.faults.as_str() == "too many calls for a picture: at most 400\n");
    // What comes after the first bad event isn't drawn.
    let bad = format!(in alloc; "call 1 deq\nreturn 1 7\n{}", calls(alloc, 401)?)?;
    let drawn = picture(alloc, bad.as_str())?;
    assert!(rt; drawn.status == 1 && bars(alloc, drawn.text.as_str())?.len() == 1);
    Ok(())
}

#[test]
fn titles_tell_what_is_found(rt: HostRuntime) -> Result<(), AllocError> {
    let alloc = rt.alloc();
    // A number is put in twice, so there is no guess, and without rounds no search.
    let twice = "call 0 enq 5\nreturn 0 ok\ncall 0 enq 5\nreturn 0 ok\ncall 1 deq\nreturn 1 ";
    for (reply, rounds, status, title) in [
        ("5", 100, 0, "linearizable"),
        ("6", 100, 1, "not linearizable"),
        ("5", 0, 5, "gave up"),
    ] {
        let history = format!(in alloc; "{twice}{reply}")?;
        let drawn = written(alloc, Form::Svg, rounds, history.as_str())?;
        assert_eq!(rt; drawn.status, status);
        assert_eq!(rt; texts(alloc, drawn.text.as_str(), title)?, 1);
        let line = format!(in alloc; "<title id=\"title\">{title}</title>")?;
        assert_eq!(rt;
            shapes(alloc, drawn.text.as_str(), line.as_str(), "")?.len(),
            1
        );
        let points = dots(alloc, drawn.text.as_str())?.len();
        assert!(rt; (points == 0) == (status == 5));
        // A page has that picture within it.
        let page = written(alloc, Form::Html, rounds, history.as_str())?;
        assert!(rt; page.status == status && page.text.as_str().starts_with("<!DOCTYPE html>\n"));
        assert!(rt; page.text.as_str().ends_with("</html>\n"));
        assert!(rt; page.text.as_str().contains(drawn.text.as_str()));
    }
    Ok(())
}
