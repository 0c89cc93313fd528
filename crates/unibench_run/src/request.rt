//! What a command line asks for.

ghost use Rattle.std.specs.Prelude.{◌≡◌, [], IfOk, IfErr, map, codes, false, Some, option_map};
ghost use Rattle.clap.specs.Words.{HasKind, app_of, found_of, rows_of, new_app, rule_of, subcommand_rows_of, with_rule};
ghost use Rattle.clap.specs.declared.builder.command.Command.TheViews.{out-Command};
ghost use Rattle.command_line.specs.Flags.{versioned};
ghost use Rattle.command_line.specs.Numbers.{in_range, value_of};
ghost use Rattle.unibench_run.specs.CommandLine.{asked_of, faults_of_words, language_command};
ghost use Rattle.unibench_run.specs.CommandLine.{needs_subcommand, operand, option, random_command, replay_command};
ghost use Rattle.unibench_run.specs.CommandLine.{replay_in, request_in, threads_command, unibench};
ghost use Rattle.uni_script.specs.Grammar.{object_of_word};
ghost use Rattle.unibench_run.specs.Request.{form_named, echo_in, object_named, options_of, plan_of};
ghost use Rattle.unibench_run.specs.Request.{random_of, subject_of};

use clap::{Arg, ArgMatches, Command};
use command_line::{flag, in_range, is_set, number_of};
use std::alloc::{AllocError, Global};
use std::convert::AsStr;
use uni_model::{MAX_PROCESSES, MAX_ROW};
use uni_script::{Echo, ObjectName, Options, object_of};

/// The most calls that each thread can be asked to make.
const MAX_CALLS: u64 = 10_000_000;

/// A form of the construction that threads can share.
#[derive(Clone, Copy)]
pub enum Form {
    /// A world under a lock.
    Lock,
    /// Atomic words.
    Words,
    /// Atomic words, for an object of several of them.
    Small,
    /// Versions, for any object.
    Any,
}

impl Form {
    /// The form of a name.
    fn named(name: &str) -> Option<Form>
        ensures { result ≡ form_named name.now }
    {
        match name {
            "lock" | "shared" => Some(Form::Lock),
            "words" => Some(Form::Words),
            "small" => Some(Form::Small),
            "any" => Some(Form::Any),
            _ => None,
        }
    }
}

/// An object that threads can share, in one form or in more.
#[derive(Clone, Copy)]
pub enum ThreadsObject {
    /// A queue.
    Queue,
    /// A directory.
    Directory,
    /// A book of accounts.
    Book,
    /// A sticky register.
    Sticky,
    /// A tally.
    Tally,
    /// A counter.
    Counter,
    /// Counters.
    Counters,
    /// A register.
    Register,
    /// A stack.
    Stack,
    /// A map.
    Map,
}

impl ThreadsObject {
    /// The object of a name.
    fn named(name: &str) -> Option<ThreadsObject>
        ensures { result ≡ object_named name.now }
    {
        match name {
            "queue" => Some(ThreadsObject::Queue),
            "directory" => Some(ThreadsObject::Directory),
            "book" => Some(ThreadsObject::Book),
            "sticky" => Some(ThreadsObject::Sticky),
            "tally" => Some(ThreadsObject::Tally),
            "counter" => Some(ThreadsObject::Counter),
            "counters" => Some(ThreadsObject::Counters),
            "register" => Some(ThreadsObject::Register),
            "stack" => Some(ThreadsObject::Stack),
            "map" => Some(ThreadsObject::Map),
            _ => None,
        }
    }
}

/// What a run of threads is.
#[derive(Clone, Copy)]
pub struct Plan {
    /// The form of the object.
    pub form: Form,
    /// The object.
    pub object: ThreadsObject,
    /// How many threads there are, from 1 to 64.
    pub processes: u64,
    /// How many calls each makes, from 1 to 10000000.
    pub calls: u64,
    /// The seed of the first thread's words; each further thread has the next one.
    pub seed: u64,
}

impl Plan {
    /// The plan that the values of the options are; `None` where an option has a value that it
    /// doesn't take.
    fn of(matches: &ArgMatches<'_>) -> Option<Plan>
        ensures { result ≡ plan_of (rows_of (found_of matches.now)) }
    {
        Some(Plan {
            form: form_in(matches)?,
            object: object_in(matches)?,
            processes: number_of(matches, "processes", 1, MAX_PROCESSES)?,
            calls: number_of(matches, "calls", 1, MAX_CALLS)?,
            seed: number_of(matches, "seed", 0, u64::MAX)?,
        })
    }
}

/// What a schedule that is drawn from a seed is.
#[derive(Clone, Copy)]
pub struct RandomPlan {
    /// The schedule.
    pub schedule: uni_script::Plan,
    /// The seed of the words that it is drawn from.
    pub seed: u64,
}

impl RandomPlan {
    /// The plan that the values of the options are; `None` where an option has a value that it
    /// doesn't take.
    fn of(matches: &ArgMatches<'_>) -> Option<RandomPlan>
        ensures { result ≡ random_of (rows_of (found_of matches.now)) }
    {
        Some(RandomPlan {
            schedule: uni_script::Plan {
                object: shared_in(matches)?,
                processes: number_of(matches, "processes", 1, MAX_PROCESSES)?,
                row: number_of(matches, "row", 1, MAX_ROW)?,
                events: number_of(matches, "events", 1, 99_000)?,
            },
            seed: number_of(matches, "seed", 0, u64::MAX)?,
        })
    }
}

/// The object of a script that the option's value names.
fn shared_in(matches: &ArgMatches<'_>) -> Option<ObjectName>
    ensures { result ≡ value_of object_of_word (codes "object") (rows_of (found_of matches.now)) }
{
    object_of(matches.get_str("object")?.as_bytes())
}

/// The form that the option's value names.
fn form_in(matches: &ArgMatches<'_>) -> Option<Form>
    ensures { result ≡ value_of form_named (codes "form") (rows_of (found_of matches.now)) }
{
    Form::named(matches.get_str("form")?)
}

/// The object that the option's value names.
fn object_in(matches: &ArgMatches<'_>) -> Option<ThreadsObject>
    ensures { result ≡ value_of object_named (codes "object") (rows_of (found_of matches.now)) }
{
    ThreadsObject::named(matches.get_str("object")?)
}

/// Whether lines are written before their answers.
fn echo_in(matches: &ArgMatches<'_>) -> Echo
    ensures { result ≡ echo_in (rows_of (found_of matches.now)) }
{
    if is_set(matches, "echo") {
        Echo::On
    } else {
        Echo::Off
    }
}

/// What a replay is told by the values of the options; `None` where an option has a value that it
/// doesn't take.
fn options_of(matches: &ArgMatches<'_>) -> Option<Options>
    ensures { result ≡ options_of (rows_of (found_of matches.now)) }
{
    Some(Options {
        history: number_of(matches, "history", 1, 16_777_216)?,
        echo: echo_in(matches),
    })
}

/// What a command line asks for.
#[derive(Clone, Copy)]
pub enum Request {
    /// The replay of the script on standard input.
    Replay(Options),
    /// The same, where a bad line is explained.
    Explained(Options),
    /// A schedule that is drawn from a seed.
    Random(RandomPlan),
    /// A run of threads.
    Threads(Plan),
    /// The language of scripts, or the calls of one object.
    Language(Option<ObjectName>),
}

/// A command with what its help says: one line, and a text that comes last.
fn described<'a>(alloc: Global, name: &'a str, about: &'a str, notes: &'a str) -> Command<'a>
    ensures app { app_of result ≡ new_app name.entry.now }
    ensures local { (out-Command result).has_globals ≡ false }
{
    Command::new(alloc, name).about(about).after_help(notes)
}

/// An option, with what its help calls its value, and the value that it has where it isn't used.
fn option<'a>(
    alloc: Global,
    name: &'a str,
    placeholder: &'a str,
    help: &'a str,
    value: &'a str,
) -> Arg<'a>
    ensures rule { rule_of result ≡ option name.entry.now value.entry.now }
    ensures local { result.global ≡ false }
{
    Arg::new(alloc, name)
        .long(name)
        .value_name(placeholder)
        .help(help)
        .default_value(value)
}

/// An option whose value is a number from 1 on.
fn number<'a>(
    alloc: Global,
    name: &'a str,
    placeholder: &'a str,
    help: &'a str,
    value: &'a str,
    most: u64,
) -> Arg<'a>
    ensures rule { rule_of result ≡ in_range (option name.entry.now value.entry.now) 1 most }
    ensures local { result.global ≡ false }
{
    in_range(option(alloc, name, placeholder, help, value), 1, most)
}

/// A word that isn't an option and may be left out, with what its help calls it.
fn operand<'a>(alloc: Global, name: &'a str, placeholder: &'a str, help: &'a str) -> Arg<'a>
    ensures rule { rule_of result ≡ operand name.entry.now }
    ensures local { result.global ≡ false }
{
    Arg::new(alloc, name).value_name(placeholder).help(help)
}

/// A command with one argument more. All are its own alone, and not its subcommands' too.
fn with<'a>(command: Command<'a>, arg: Arg<'a>) -> Result<Command<'a>, AllocError>
    requires command { (out-Command command).has_globals ≡ false }
    requires arg { arg.global ≡ false }
    ensures app { IfOk result (λ more. app_of more ≡ with_rule (app_of command.entry) (rule_of arg.entry)) }
    ensures local { IfOk result (λ more. (out-Command more).has_globals ≡ false) }
{
    command.arg(arg)
}

/// What the help of `replay` says last.
const REPLAY_NOTES: &str = "\
The script begins with a header: 'universal 1', the object (queue, directory,
book or sticky), how many processes share it, from 1 to 16, and how many calls
each can make in an era, from 1 to 4096. Then come commands, one a line: call,
step, finish, trim, log and heads. After 'universal 2' there are up to 64
processes, and reshape changes their number. A line that begins with # is a
note. 'unibench language' prints all of it.

Example:
  printf '%s\\n' 'universal 1 queue 2 8' 'call 0 enq 7' 'finish 0' log |
    unibench replay";

/// The subcommand that replays a script.
fn replay_command<'a>(alloc: Global) -> Result<Command<'a>, AllocError>
    ensures app { IfOk result (λ command. app_of command ≡ replay_command) }
    ensures local { IfOk result (λ command. (out-Command command).has_globals ≡ false) }
{
    let about = "Runs the script on standard input, and writes its answers";
    let command = described(alloc, "replay", about, REPLAY_NOTES);
    let help = "The most events, from 1 to 16777216";
    let history = number(alloc, "history", "H", help, "1048576", 16_777_216);
    let command = with(command, history)?;
    let command = with(command, flag(alloc, "explain", "Says why a line is bad"))?;
    let help = "Writes each line before its answers, after '> '";
    with(command, flag(alloc, "echo", help))
}

/// What the help of `random` says last.
const RANDOM_NOTES: &str = "\
Each event is a call or a step of one process, or a trim. The calls of all
processes are finished at the end, and the log is asked for. The same options
draw the same script. Above 16 processes its header has version 2.

Example:
  unibench random --object book --processes 4 --events 1000 --seed 7";

/// The subcommand that draws a schedule.
pub(crate) fn random_command<'a>(alloc: Global) -> Result<Command<'a>, AllocError>
    ensures app { IfOk result (λ command. app_of command ≡ random_command) }
    ensures local { IfOk result (λ command. (out-Command command).has_globals ≡ false) }
{
    let about = "Writes a script that is drawn from a seed";
    let command = described(alloc, "random", about, RANDOM_NOTES);
    let help = "One of queue, directory, book and sticky";
    let command = with(command, option(alloc, "object", "NAME", help, "queue"))?;
    let help = "How many processes there are, from 1 to 64";
    let processes = number(alloc, "processes", "N", help, "2", MAX_PROCESSES);
    let command = with(command, processes)?;
    let help = "The most calls of each, from 1 to 4096";
    let command = with(command, number(alloc, "row", "K", help, "64", MAX_ROW))?;
    let help = "The seed, from 0 to 18446744073709551615";
    let seed = option(alloc, "seed", "S", help, "1");
    let command = with(command, in_range(seed, 0, u64::MAX))?;
    let help = "How many events are drawn, from 1 to 99000";
    with(command, number(alloc, "events", "M", help, "100", 99_000))
}

/// What the help of `threads` says last.
const THREADS_NOTES: &str = "\
With --form lock, shared or any the object is queue, directory, book or sticky,
with --form words sticky or tally, with --form small counter, counters,
register, stack, map, queue, book or sticky. Where all replies are those of the
log, the line 'threads N calls M agrees' is written, M being the number of
replies. With --form small or any each reply tells its place, and all calls are
made again in that order.

Only --form small and any take more than 4096 calls of a thread, and at most
40000000 in all. Under a lock each of the N * C calls takes at most 10 * N + 13
events, and there is room for 16777216.

Examples:
  unibench threads --object book --processes 4 --calls 50
  unibench threads --form words --object tally --processes 8
  unibench threads --form small --processes 4 --calls 1000000
  unibench threads --form any --object directory --processes 4 --calls 1000";

/// The subcommand that runs threads.
pub(crate) fn threads_command<'a>(alloc: Global) -> Result<Command<'a>, AllocError>
    ensures app { IfOk result (λ command. app_of command ≡ threads_command) }
    ensures local { IfOk result (λ command. (out-Command command).has_globals ≡ false) }
{
    let about = "Makes calls in threads, and compares the replies with the log";
    let command = described(alloc, "threads", about, THREADS_NOTES);
    let help = "One of lock, words, small and any";
    let command = with(command, option(alloc, "form", "NAME", help, "lock"))?;
    let help = "An object that the form has, as below";
    let command = with(command, option(alloc, "object", "NAME", help, "queue"))?;
    let help = "How many threads there are, from 1 to 64";
    let processes = number(alloc, "processes", "N", help, "2", MAX_PROCESSES);
    let command = with(command, processes)?;
    let help = "Calls of each thread, from 1 to 10000000";
    let command = with(command, number(alloc, "calls", "C", help, "100", MAX_CALLS))?;
    let help = "The seed of the first thread's calls";
    let seed = option(alloc, "seed", "S", help, "1");
    with(command, in_range(seed, 0, u64::MAX))
}

/// What the help of `language` says last.
const LANGUAGE_NOTES: &str = "\
Without an object the lines of a script, the calls of each object and the
refusals are printed; with one of queue, directory, book and sticky its calls.

Examples:
  unibench language
  unibench language queue";

/// The subcommand that prints the language.
pub(crate) fn language_command<'a>(alloc: Global) -> Result<Command<'a>, AllocError>
    ensures app { IfOk result (λ command. app_of command ≡ language_command) }
    ensures local { IfOk result (λ command. (out-Command command).has_globals ≡ false) }
{
    let about = "Prints the language of scripts, or the calls of an object";
    let command = described(alloc, "language", about, LANGUAGE_NOTES);
    let help = "One of queue, directory, book and sticky";
    with(command, operand(alloc, "object", "OBJECT", help))
}

/// The version of the program.
const VERSION: &str = "0.1.0";

/// The program without its subcommands, with what its help says.
pub(crate) fn program<'a>(alloc: Global) -> Command<'a>
    ensures app { app_of result ≡ needs_subcommand (versioned (new_app (codes "unibench"))) }
    ensures local { (out-Command result).has_globals ≡ false }
{
    described(
        alloc,
        "unibench",
        "A bench for Herlihy's wait-free universal construction",
        NOTES,
    )
    .version(VERSION)
    .subcommand_required(true)
}

/// What the help of the program says last.
const NOTES: &str = "\
Status:
  0 where all went well, 2 for a bad command line or script, 3 where the input
  or the output failed, 4 where memory was refused, 5 where the threads and
  their log don't agree.

Examples:
  unibench replay < queue.script
  unibench random --events 1000 --seed 7 > drawn.script
  unibench threads --form words --object tally";

/// The command line of the program.
fn unibench<'a>(alloc: Global) -> Result<Command<'a>, AllocError>
    ensures { IfOk result (λ command. app_of command ≡ unibench) }
{
    let replay = replay_command(alloc)?;
    let program = program(alloc).subcommand(replay)?;
    let random = random_command(alloc)?;
    let program = program.subcommand(random)?;
    let threads = threads_command(alloc)?;
    let program = program.subcommand(threads)?;
    let language = language_command(alloc)?;
    program.subcommand(language)
}

/// The replay that the matches of its subcommand ask for; `None` where an option has a value that it doesn't take.
fn replay_in(matches: &ArgMatches<'_>) -> Option<Request>
    ensures { result ≡ replay_in (rows_of (found_of matches.now)) }
{
    let options = options_of(matches)?;
    if is_set(matches, "explain") {
        Some(Request::Explained(options))
    } else {
        Some(Request::Replay(options))
    }
}

/// What the language is asked of by a name: the object; `None` where the name is none.
fn subject_named(name: &str) -> Option<Option<ObjectName>>
    ensures { result ≡ option_map Some (object_of_word name.now) }
{
    match object_of(name.as_bytes()) {
        Some(object) => Some(Some(object)),
        None => None,
    }
}

/// What the language is asked of: all of it or, where it is named, an object; `None` where the name is none.
fn subject_of(matches: &ArgMatches<'_>) -> Option<Option<ObjectName>>
    ensures { result ≡ subject_of (rows_of (found_of matches.now)) }
{
    match matches.get_str("object") {
        Some(name) => subject_named(name),
        None => Some(None),
    }
}

/// What matches ask for; `None` where an option has a value that it doesn't take.
fn request_in(matches: &ArgMatches<'_>) -> Option<Request>
    ensures { result ≡ request_in (subcommand_rows_of matches.now) }
{
    match matches.subcommand() {
        Some(("random", random)) => Some(Request::Random(RandomPlan::of(random)?)),
        Some(("threads", threads)) => Some(Request::Threads(Plan::of(threads)?)),
        Some(("language", language)) => Some(Request::Language(subject_of(language)?)),
        Some((_, replay)) => replay_in(replay),
        None => None,
    }
}

/// Reads a command line, the program's name first: what it asks for, or `None` where an option has a
/// value that it doesn't take.
///
/// An `Err` has the fault of the words, or says that memory was refused.
pub fn read_words<S: AsStr>(alloc: Global, words: &[S]) -> Result<Option<Request>, clap::Error>
    ensures asked { IfOk result (λ request. (faults_of_words (map S.text words.now) ≡ [])
        × (request ≡ asked_of (map S.text words.now))) }
    ensures fault { IfErr result (HasKind (faults_of_words (map S.text words.now))) }
{
    match unibench(alloc)?.try_get_matches_from(words) {
        Ok(matches) => Ok(request_in(&matches)),
        Err(error) => Err(error),
    }
}
