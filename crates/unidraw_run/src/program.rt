//! The program over its ends, and its statuses.

ghost use Rattle.std.specs.Prelude.{◌≡◌, ◌≢◌, ◌⊎◌, IsErrOf, None, Some, false, is_some, map, true};
ghost use Rattle.unidraw_run.specs.Vocabulary.{BenchFault as Fault, HasFault, HasRangeFault, IsFaultOfScript};
ghost use Rattle.unidraw_run.specs.Vocabulary.{WritesSuch, scripts_of};
ghost use Rattle.unidraw_run.specs.CommandLine.{IsRefused, form_of_words, request_of_words};
ghost use Rattle.unidraw_run.specs.Drawn.{IsDrawn, IsPictureIn, IsStatusOfPicture, IsTextOf, TellsPictureFault};
ghost use Rattle.unidraw_run.specs.Drawn.{may_write_before, picture_fault_line, range_of};

use crate::words::{read_words, tip_for};
use command_line::answer_words;
use run_layout::{PictureFault, Range, RangeFault};
use run_lines::lines_of;
use run_picture::picture_of;
use run_tell::{InJson, InWholeJson, InWords, page_of, tell_history, tell_script};
use script_advice::{KeepsText, report_explained};
use std::alloc::Global;
use std::convert::AsStr;
use uni_script::{BenchFault, Failed, TextIn, TextOut, tell, write_all};

/// What a picture is drawn as.
#[derive(Clone, Copy)]
pub enum Form {
    /// An SVG of these events.
    Svg(Range),
    /// Lines of text, for a terminal of so many columns, that draw these events.
    Lines(Range, u64),
    /// Lines of text, with a sentence for each of these events.
    Steps(Range),
    /// Lines of JSON, which tell what each of these events did to the memory.
    Json(Range),
    /// The same, which tell the whole memory too.
    Full(Range),
    /// A page for a browser, which shows what each of these events did.
    Html(Range),
    /// Lines of JSON, which tell the calls and the replies alone.
    History,
}

/// What words ask for.
#[derive(Clone, Copy)]
pub struct Request {
    /// What the picture is drawn as.
    pub form: Form,
    /// Whether the reason of a bad line is told too.
    pub is_explained: bool,
}

/// Draws the script on `input` in the form that the argument texts ask for, the program's name first, and writes the
/// picture to `output`; the answer is the status that the program ends with. With `--text` the picture is one of lines,
/// with `--steps` it is a sentence for each event, with `--json` the trace of the run, and beside that with `--full`
/// the whole memory after each event, with `--html` a page that shows the trace, with `--history` the calls and the
/// replies of the run, and with no word an SVG. In each form but a history `--from` and `--to` choose the events;
/// `--columns` says how long lines are at most. With `--explain` the text of a bad line says why it is bad.
///
/// The status is 0 where all went well, also for help or the version, which go to `output`; 2 for a bad script, for
/// more than 2,000 events, where `--from` is past the last one, or for words that ask for nothing that there is; 3
/// where `input` or `output` failed; 4 where memory was refused; and 5 where the drawing does not show its run, of
/// which no script is known. The text that says so goes to `faults`, as far as that takes it.
pub fn run<S: AsStr, I: KeepsText, O: TextOut, F: TextOut>(
    alloc: Global,
    words: &[S],
    input: &mut I,
    output: &mut O,
    faults: &mut F,
) -> u8
    requires input { I.has_failed input.old ≡ false }
    requires output { O.has_failed output.old ≡ false }
    ensures asked { (form : Form) → form_of_words (map S.text words.now) ≡ Some form
        → IsDrawn form (I.remaining input.old) (O.contents output.old) (O.contents output.new) result }
    ensures written { O.has_failed output.new ≡ true → result ≡ 3 }
    ensures silent { result ≡ 0 → faults.new ≡ faults.old }
    ensures told { (r : Request) → request_of_words (map S.text words.now) ≡ Some r → result ≢ 0
        → TellsPictureFault r.form r.is_explained (F.contents faults.old) (F.contents faults.new)
        (F.has_failed faults.new) result }
    ensures unread { form_of_words (map S.text words.now) ≡ None → input.new ≡ input.old }
    ensures refused { IsRefused (map S.text words.now)
        → ((result ≡ 2) ⊎ (result ≡ 4)) × (output.new ≡ output.old) }
{
    match read_words(alloc, words) {
        Ok(request) => draw(alloc, request, input, output, faults),
        Err(error) => answer_words(alloc, &error, tip_for(&error, words), output, faults),
    }
}

/// Keeps what is read from now on, where that is asked for.
fn keep_if<I: KeepsText>(alloc: Global, is_asked: bool, input: &mut I)
    ensures remaining { I.remaining input.new ≡ I.remaining input.old }
    ensures failed { I.has_failed input.new ≡ I.has_failed input.old }
{
    if is_asked {
        input.keep(alloc);
    }
}

/// Draws the script on `input` as it is asked for, and writes the picture to `output`; the answer is the status.
fn draw<I: KeepsText, O: TextOut, F: TextOut>(
    alloc: Global,
    request: Request,
    input: &mut I,
    output: &mut O,
    faults: &mut F,
) -> u8
    requires input { I.has_failed input.old ≡ false }
    requires output { O.has_failed output.old ≡ false }
    ensures drawn { IsDrawn request.form (I.remaining input.old) (O.contents output.old) (O.contents output.new)
        result }
    ensures written { O.has_failed output.new ≡ true → result ≡ 3 }
    ensures silent { result ≡ 0 → faults.new ≡ faults.old }
    ensures told { result ≢ 0 → TellsPictureFault request.form request.is_explained (F.contents faults.old)
        (F.contents faults.new) (F.has_failed faults.new) result }
{
    keep_if(alloc, request.is_explained, input);
    match draw_form(alloc, request.form, input, output) {
        Ok(()) => 0,
        Err(fault) if request.is_explained => report(
            alloc,
            request.form,
            fault,
            input.kept(),
            faults,
        ),
        Err(fault) => report(alloc, request.form, fault, None, faults),
    }
}

/// Writes a picture, where there is one. An `Err` is that of the picture, and nothing is written; or `Write` where the
/// output failed, and a prefix is.
fn write_picture<O: TextOut>(
    picture: Result<Vec<u8>, PictureFault>,
    output: &mut O,
) -> Result<(), PictureFault>
    requires { O.has_failed output.old ≡ false }
    ensures drawn { WritesSuch result (IsTextOf picture) (O.contents output.old) (O.contents output.new) }
    ensures fault { (e : PictureFault) → IsErrOf result e → e ≢ PictureFault.Script Fault.Write
        → IsErrOf picture e × (output.new ≡ output.old) }
    ensures written { O.has_failed output.new ≡ true → IsErrOf result (PictureFault.Script Fault.Write) }
{
    match picture {
        Ok(text) => match write_all(output, text.as_slice()) {
            Ok(()) => Ok(()),
            Err(Failed) => Err(PictureFault::Script(BenchFault::Write)),
        },
        Err(fault) => Err(fault),
    }
}

/// Writes the picture of the script that a reader has, in a form. An `Err` is the first fault of the script; `Read`
/// where the reader failed; `Memory` where memory was refused; `Range` of a good script of which these events can't be
/// chosen; `Misdrawn` where the drawing of its run does not show it; or `Write` where the output failed. With `Write` a
/// prefix may be written, with `Memory` too where the form is written while it is told; else nothing is.
fn draw_form<I: TextIn, O: TextOut>(
    alloc: Global,
    form: Form,
    input: &mut I,
    output: &mut O,
) -> Result<(), PictureFault>
    requires input { I.has_failed input.old ≡ false }
    requires output { O.has_failed output.old ≡ false }
    ensures drawn { WritesSuch result (IsPictureIn form (I.remaining input.old))
        (O.contents output.old) (O.contents output.new) }
    ensures unwritten { (e : PictureFault) → IsErrOf result e → may_write_before form e ≡ false
        → output.new ≡ output.old }
    ensures range { (e : RangeFault) → IsErrOf result (PictureFault.Range e)
        → HasRangeFault (range_of form) e (I.remaining input.old) }
    ensures fault { (e : Fault) → IsErrOf result (PictureFault.Script e) → IsFaultOfScript e
        → HasFault (scripts_of 1048576) (I.remaining input.old) e }
    ensures written { O.has_failed output.new ≡ true → IsErrOf result (PictureFault.Script Fault.Write) }
{
    match form {
        Form::Svg(range) => write_picture(picture_of(alloc, range, input), output),
        Form::Lines(range, columns) => {
            write_picture(lines_of(alloc, range, columns, input), output)
        }
        Form::Steps(range) => tell_script::<InWords, I, O>(alloc, range, input, output),
        Form::Json(range) => tell_script::<InJson, I, O>(alloc, range, input, output),
        Form::Full(range) => tell_script::<InWholeJson, I, O>(alloc, range, input, output),
        Form::Html(range) => write_picture(page_of(alloc, range, input), output),
        Form::History => tell_history(alloc, input, output),
    }
}

/// The line that says that there are too many events for a form.
fn too_many_line(form: Form) -> &'static str
    ensures { result.now ≡ picture_fault_line form (PictureFault.Range RangeFault.TooManyEvents) }
{
    match form {
        Form::Svg(_) => "too many events for an SVG: at most 2000\n",
        Form::Lines(_, _) => "too many events for --text: at most 2000\n",
        Form::Steps(_) => "too many events for --steps: at most 2000\n",
        Form::Json(_) => "too many events for --json: at most 2000\n",
        Form::Full(_) => "too many events for --json --full: at most 2000\n",
        Form::Html(_) => "too many events for --html: at most 2000\n",
        Form::History => "too many events for --history: at most 2000\n",
    }
}

/// The line that says why events can't be chosen for a form.
fn range_fault_line(form: Form, fault: RangeFault) -> &'static str
    ensures { result.now ≡ picture_fault_line form (PictureFault.Range fault) }
{
    match fault {
        RangeFault::PastEnd => "--from is past the last event\n",
        RangeFault::TooManyEvents => too_many_line(form),
    }
}

/// Says why there is no picture in this form and, of a line of the script, why it is bad, where the script is there; as
/// far as the end takes it. The answer is the status. Where the text of a fault of the script is refused memory, that
/// is what is told, with its status.
fn report<F: TextOut>(
    alloc: Global,
    form: Form,
    fault: PictureFault,
    script: Option<&[u8]>,
    faults: &mut F,
) -> u8
    ensures status { IsStatusOfPicture fault result }
    ensures told { TellsPictureFault form (is_some script.entry) (F.contents faults.old)
        (F.contents faults.new) (F.has_failed faults.new) result }
{
    match fault {
        PictureFault::Script(fault) => report_explained(alloc, fault, script, faults),
        PictureFault::Range(fault) => {
            tell(faults, range_fault_line(form, fault).as_bytes());
            2
        }
        PictureFault::Misdrawn => {
            tell(faults, b"the picture does not show its run\n");
            5
        }
    }
}
