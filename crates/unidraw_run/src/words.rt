//! What a command line asks for.

ghost use Rattle.std.specs.Prelude.{◌≡◌, IfErr, IfOk, Some, codes, false, map};
ghost use Rattle.unidraw_run.specs.Vocabulary.{HasKind, app_of, found_of, kind_of, new_app, out-Command, rows_of};
ghost use Rattle.unidraw_run.specs.Vocabulary.{rule_of, versioned};
ghost use Rattle.unidraw_run.specs.CommandLine.{columns_option, comes_after, event_option, faults_of_words, form_among};
ghost use Rattle.unidraw_run.specs.CommandLine.{form_in, form_with, forms_used, option_shown, range_in, request_in};
ghost use Rattle.unidraw_run.specs.CommandLine.{request_of_words, unidraw, with_columns, with_options, with_range};

use crate::program::{Form, Request};
use clap::error::ErrorKind;
use clap::{Arg, ArgMatches, Command};
use command_line::{flag, in_range, is_set, may_be_path, number_of};
use run_layout::Range;
use run_lines::COLUMNS;
use std::alloc::{AllocError, Global};
use std::convert::AsStr;

/// The least number of columns of a line that can be asked for.
const LEAST_COLUMNS: u64 = 40;

/// The greatest.
const MOST_COLUMNS: u64 = 1_000;

/// The version of the program.
const VERSION: &str = "0.1.0";

/// What the help says last.
const NOTES: &str = "\
The script is read from standard input, and the picture is written to standard
output: an SVG, or with --text lines of a terminal. With --steps each
step is told in words, with what it changed, and with --json for programs: see
docs/trace.md; with --json --full the whole memory is told after each event.
With --html a browser shows the steps. With --history calls and replies are
told alone, for a program that judges histories. At most 2000 events are shown.

With --from and --to these events alone are shown, both included, by the
numbers that --steps tells, from 0. A history is always whole. With --explain
the text of a bad line says why it is bad.

Examples:
  unidraw < queue.script > queue.svg
  unidraw --text < queue.script
  unidraw --text --from 10 --to 20 --columns 80 < queue.script
  unidraw --steps < queue.script
  unidraw --json < queue.script
  unidraw --html < queue.script > queue.html
  unidraw --history < queue.script";

/// What is said where words ask for forms that don't go together.
const SEVERAL: &str = "\
only one of --text, --steps, --json, --html and --history can be used, --full beside --json alone, \
--columns beside --text alone, and --from and --to not beside --history";

/// What is said where no event is chosen.
const BACKWARD: &str = "--from is above --to";

/// What is said where a word may have been meant for a file.
const TIP: &str = "tip: a script is read from standard input: unidraw < FILE\n";

/// An option that asks for a form.
#[derive(Clone, Copy)]
struct FormOption {
    /// Its name.
    name: &'static str,
    /// The form.
    form: Form,
    /// What its help says.
    help: &'static str,
}

/// All events.
const ALL: Range = Range { from: 0, to: None };

/// The options, in the order of the help: one for each form but an SVG.
const OPTIONS: [FormOption; 6] = [
    FormOption {
        name: "text",
        form: Form::Lines(ALL, COLUMNS),
        help: "Draws lines of text in place of an SVG",
    },
    FormOption {
        name: "steps",
        form: Form::Steps(ALL),
        help: "Tells each step and what it changed, in words",
    },
    FormOption {
        name: "json",
        form: Form::Json(ALL),
        help: "Tells each step and what it changed, in lines of JSON",
    },
    FormOption {
        name: "full",
        form: Form::Full(ALL),
        help: "Beside --json: tells the whole memory after each event",
    },
    FormOption {
        name: "html",
        form: Form::Html(ALL),
        help: "Writes a page for a browser, which shows each step",
    },
    FormOption {
        name: "history",
        form: Form::History,
        help: "Tells the calls and the replies alone, in lines of JSON",
    },
];

/// The program without its options, with what its help says.
fn described<'a>(alloc: Global) -> Command<'a>
    ensures app { app_of result ≡ versioned (new_app (codes "unidraw")) }
    ensures local { (out-Command result).has_globals ≡ false }
{
    Command::new(alloc, "unidraw")
        .version(VERSION)
        .about("Draws the run of a script on Herlihy's wait-free universal construction")
        .after_help(NOTES)
}

/// A program with these options more.
fn with_options<'a>(
    alloc: Global,
    mut command: Command<'a>,
    options: &[FormOption],
) -> Result<Command<'a>, AllocError>
    requires { (out-Command command).has_globals ≡ false }
    ensures app { IfOk result (λ whole. app_of whole
        ≡ with_options (app_of command.entry) (map option_shown options.now)) }
    ensures local { IfOk result (λ whole. (out-Command whole).has_globals ≡ false) }
{
    for option in options {
        let name: &'a str = option.name;
        let help: &'a str = option.help;
        command = command.arg(flag(alloc, name, help))?;
    }
    Ok(command)
}

/// An option whose value is the number of an event.
fn event_option<'a>(alloc: Global, name: &'a str, help: &'a str) -> Arg<'a>
    ensures rule { rule_of result ≡ event_option name.entry.now }
    ensures local { result.global ≡ false }
{
    let option = Arg::new(alloc, name).long(name).value_name("E").help(help);
    in_range(option, 0, u64::MAX)
}

/// An option whose value says how many columns a line has at most.
fn columns_option<'a>(alloc: Global) -> Arg<'a>
    ensures rule { rule_of result ≡ columns_option }
    ensures local { result.global ≡ false }
{
    let option = Arg::new(alloc, "columns")
        .long("columns")
        .value_name("N")
        .help("Beside --text: the longest line, from 40 to 1000 [default: 100]");
    in_range(option, LEAST_COLUMNS, MOST_COLUMNS)
}

/// The command line of the program.
fn unidraw<'a>(alloc: Global) -> Result<Command<'a>, AllocError>
    ensures { IfOk result (λ command. app_of command ≡ unidraw) }
{
    with_options(alloc, described(alloc), &OPTIONS)?
        .arg(event_option(alloc, "from", "Shows the events from this number on"))?
        .arg(event_option(alloc, "to", "Shows the events up to this number"))?
        .arg(columns_option(alloc))?
        .arg(flag(alloc, "explain", "Says why a line is bad"))
}

/// The form that is asked for where a further option is used, which asks for this one; `None` where they don't go
/// together.
fn form_with(asked: Option<Form>, further: Form) -> Option<Form>
    ensures { result ≡ form_with asked further }
{
    match (asked, further) {
        (Some(Form::Json(_)), Form::Full(range)) => Some(Form::Full(range)),
        (Some(Form::Svg(_)), Form::Full(_)) => None,
        (Some(Form::Svg(_)), form) => Some(form),
        _ => None,
    }
}

/// The form that is asked for by the options that matches use, of these; `None` where they don't go together.
fn form_among(matches: &ArgMatches<'_>, options: &[FormOption]) -> Option<Form>
    ensures { result ≡ form_among (forms_used (rows_of (found_of matches.now)) (map option_shown options.now)) }
{
    let mut asked = Some(Form::Svg(Range::all()));
    for option in options {
        if is_set(matches, option.name) {
            asked = form_with(asked, option.form);
        }
    }
    asked
}

/// The events that are chosen; `None` where none of the two options is used.
fn range_in(matches: &ArgMatches<'_>) -> Option<Range>
    ensures { result ≡ range_in (rows_of (found_of matches.now)) }
{
    let from = number_of(matches, "from", 0, u64::MAX);
    let to = number_of(matches, "to", 0, u64::MAX);
    match (from, to) {
        (None, None) => None,
        (Some(from), to) => Some(Range { from, to }),
        (None, to) => Some(Range { from: 0, to }),
    }
}

/// Whether an event comes after the last one, if there is a last.
fn comes_after(event: u64, last: Option<u64>) -> bool
    ensures { result ≡ comes_after event last }
{
    match last {
        Some(last) => event > last,
        None => false,
    }
}

/// A form with the events that are chosen, if they are; `None` where the form has no such choice, as a history has
/// none, or the first one comes after the last.
fn with_range(form: Form, range: Option<Range>) -> Option<Form>
    ensures { result ≡ with_range range form }
{
    match (form, range) {
        (form, None) => Some(form),
        (_, Some(range)) if comes_after(range.from, range.to) => None,
        (Form::Svg(_), Some(range)) => Some(Form::Svg(range)),
        (Form::Lines(_, columns), Some(range)) => Some(Form::Lines(range, columns)),
        (Form::Steps(_), Some(range)) => Some(Form::Steps(range)),
        (Form::Json(_), Some(range)) => Some(Form::Json(range)),
        (Form::Full(_), Some(range)) => Some(Form::Full(range)),
        (Form::Html(_), Some(range)) => Some(Form::Html(range)),
        (Form::History, Some(_)) => None,
    }
}

/// A form with its longest line, if that is chosen; `None` where the form has no such choice.
fn with_columns(form: Form, columns: Option<u64>) -> Option<Form>
    ensures { result ≡ with_columns columns form }
{
    match (form, columns) {
        (form, None) => Some(form),
        (Form::Lines(range, _), Some(columns)) => Some(Form::Lines(range, columns)),
        (_, Some(_)) => None,
    }
}

/// The form that is asked for, with what is chosen of it; `None` where the options don't go together.
fn form_in(matches: &ArgMatches<'_>) -> Option<Form>
    ensures { result ≡ form_in (rows_of (found_of matches.now)) }
{
    let form = with_range(form_among(matches, &OPTIONS)?, range_in(matches))?;
    with_columns(
        form,
        number_of(matches, "columns", LEAST_COLUMNS, MOST_COLUMNS),
    )
}

/// What is asked for; `None` where the options don't go together.
fn request_in(matches: &ArgMatches<'_>) -> Option<Request>
    ensures { result ≡ request_in (rows_of (found_of matches.now)) }
{
    let form = form_in(matches)?;
    Some(Request {
        form,
        is_explained: is_set(matches, "explain"),
    })
}

/// The fault of options that don't go together.
fn conflict(alloc: Global, matches: &ArgMatches<'_>) -> Result<clap::Error, AllocError>
    ensures { IfOk result (λ error. kind_of error ≡ ErrorKind.ArgumentConflict) }
{
    let said = match range_in(matches) {
        Some(range) if comes_after(range.from, range.to) => BACKWARD,
        _ => SEVERAL,
    };
    unidraw(alloc)?.error(ErrorKind::ArgumentConflict, said)
}

/// Reads a command line, the program's name first: what it asks for. An `Err` has the fault of the words, or says that
/// memory was refused.
pub(crate) fn read_words<S: AsStr>(alloc: Global, words: &[S]) -> Result<Request, clap::Error>
    ensures asked { IfOk result (λ request. request_of_words (map S.text words.now) ≡ Some request) }
    ensures fault { IfErr result (HasKind (faults_of_words (map S.text words.now))) }
{
    match unidraw(alloc)?.try_get_matches_from(words) {
        Ok(matches) => match request_in(&matches) {
            Some(request) => Ok(request),
            None => Err(conflict(alloc, &matches)?),
        },
        Err(error) => Err(error),
    }
}

/// What is said beside an error, where a word that is no option may have been meant for a file.
pub(crate) fn tip_for<S: AsStr>(error: &clap::Error, words: &[S]) -> Option<&'static str> {
    let names_file = words.iter().skip(1).any(|word| may_be_path(word.as_str()));
    if error.kind() == ErrorKind::UnknownArgument && names_file {
        Some(TIP)
    } else {
        None
    }
}
