//! What is said beside the error of a command line, and of a name that there isn't.

ghost use Rattle.std.specs.Prelude.{◌≢◌, IfSome};
ghost use Rattle.clap.specs.Values.{kind_of};

use crate::request::{language_command, program, random_command, threads_command};
use clap::Command;
use clap::builder::ValueParser;
use clap::error::ErrorKind;
use command_line::may_be_path;
use std::alloc::{AllocError, Global};
use std::convert::AsStr;

/// What is said where a word of `replay` may have been meant for a file.
const TIP: &str = "tip: a script is read from standard input: unibench replay < FILE\n";

/// The options of `replay` that take no value, and the word after which none is an option.
const ALONE: [&str; 3] = ["--explain", "--echo", "--"];

/// Whether a word may be an option that takes the next word for its value.
fn may_take_value(word: &str) -> bool {
    word.starts_with("--") && !ALONE.contains(&word) && !word.contains('=')
}

/// Whether a word may have been meant for a file: it is no option, and the word before it doesn't take it.
fn may_be_file(before: &str, word: &str) -> bool {
    may_be_path(word) && !may_take_value(before)
}

/// Whether the words are those of `replay`.
fn is_replay<S: AsStr>(words: &[S]) -> bool {
    match words {
        [_, command, ..] => command.as_str() == "replay",
        _ => false,
    }
}

/// What is said beside an error, where a word of `replay` may have been meant for a file.
pub(crate) fn tip_for<S: AsStr>(error: &clap::Error, words: &[S]) -> Option<&'static str> {
    if error.kind() != ErrorKind::UnknownArgument || !is_replay(words) {
        return None;
    }
    let befores = words.iter().skip(1);
    for (before, word) in befores.zip(words.iter().skip(2)) {
        if may_be_file(before.as_str(), word.as_str()) {
            return Some(TIP);
        }
    }
    None
}

/// The names of the objects of scripts.
const SHARED: [&str; 4] = ["queue", "directory", "book", "sticky"];

/// The names of the objects of threads.
const OBJECTS: [&str; 10] = [
    "queue",
    "directory",
    "book",
    "sticky",
    "tally",
    "counter",
    "counters",
    "register",
    "stack",
    "map",
];

/// The names of the forms.
const FORMS: [&str; 5] = ["lock", "shared", "words", "small", "any"];

/// A command of which `clap` knows the names that an option or a word can have.
fn naming<'a>(
    command: Command<'a>,
    name: &str,
    names: &'static [&'static str],
) -> Result<Command<'a>, AllocError> {
    command.mut_arg(name, |arg| Ok(arg.value_parser(ValueParser::Names(names))))
}

/// Why words without a fault ask for nothing: the fault that `clap` has where it knows the names; `None` where it has
/// none.
pub(crate) fn fault_of_names<S: AsStr>(alloc: Global, words: &[S]) -> Option<clap::Error>
    ensures { IfSome result (λ error. (kind_of error ≢ ErrorKind.DisplayHelp)
        × (kind_of error ≢ ErrorKind.DisplayVersion)) }
{
    match read_names(alloc, words) {
        Err(error) if error.use_stderr() => Some(error),
        _ => None,
    }
}

/// `threads`, of which `clap` knows the names of objects and of forms.
fn named_threads<'a>(alloc: Global) -> Result<Command<'a>, AllocError> {
    let threads = naming(threads_command(alloc)?, "object", OBJECTS.as_slice())?;
    naming(threads, "form", FORMS.as_slice())
}

/// The program, of which `clap` knows the names.
fn named_program<'a>(alloc: Global) -> Result<Command<'a>, AllocError> {
    let random = naming(random_command(alloc)?, "object", SHARED.as_slice())?;
    let program = program(alloc).subcommand(random)?;
    let program = program.subcommand(named_threads(alloc)?)?;
    program.subcommand(naming(language_command(alloc)?, "object", SHARED.as_slice())?)
}

/// Reads a command line, the program's name first, where `clap` knows the names.
///
/// An `Err` has the fault of the words, or says that memory was refused.
fn read_names<S: AsStr>(alloc: Global, words: &[S]) -> Result<(), clap::Error> {
    let _ = named_program(alloc)?.try_get_matches_from(words)?;
    Ok(())
}
