//! What a command line asks for.

use clap::builder::ValueParser;
use clap::error::ErrorKind;
use clap::{Arg, ArgAction, ArgMatches, Command};
use std::alloc::{AllocError, Global};
use std::convert::AsStr;

/// The version of the program.
const VERSION: &str = "0.1.0";

/// What the help says last.
const NOTES: &str = "\
OBJECT is what the history is judged by. All numbers are from 0 to 999999999999.

  queue     enq V -> ok             deq -> V or empty
  stack     push V -> ok            pop -> V or empty
  register  read -> V               write V -> ok      cas OLD NEW -> true or false
  counter   read -> V               add V -> ok        getadd V -> the sum before
  map       get K -> V or none      put K V -> ok
            insert K V -> the value before or none     remove K -> V or none
  set       add V -> true or false  remove V -> true or false
            contains V -> true or false

A register and a counter begin with 0, the others empty.

A history has one of four forms. A line that is empty or begins with # is a note.

  call 0 enq 7                      process 0 begins a call
  return 0 ok                       its call returns
  lost 1                            process 1 never returns, nor calls again

  0 enq 7 -> ok 1203 1377           a whole call: process, call, reply, begin, end
  1 deq -> ? 1204                   one that never returned

  {:process 0, :type :invoke, :f :enqueue, :value 5}         as Jepsen writes it
  {\"process\":0,\"type\":\"invoke\",\"call\":\"0.0\",\"words\":\"enq 5\"}  as unidraw does

Status:
  0 where it is linearizable, 1 where it isn't, 2 for bad words or a bad line,
  3 where the input or the output failed, 4 where memory was refused, 5 where
  the search gave up.

With --svg or --html a browser shows a lane for each process, a bar for each call
and a dot where it takes effect; in red the call with whose reply no order is
left. More than 400 calls are refused with status 2.

Examples:
  unicheck queue history.txt
  unicheck --order map < history.txt
  unicheck --svg queue history.txt > history.svg";

/// An object that a history can be judged by.
#[derive(Clone, Copy, Debug, PartialEq, Eq)]
pub enum ObjectName {
    /// A queue.
    Queue,
    /// A stack.
    Stack,
    /// A register with compare and exchange.
    Register,
    /// A counter.
    Counter,
    /// A map.
    Map,
    /// A set.
    Set,
}

impl ObjectName {
    /// The object of this name.
    fn named(name: &str) -> Option<ObjectName> {
        match name {
            "queue" => Some(ObjectName::Queue),
            "stack" => Some(ObjectName::Stack),
            "register" => Some(ObjectName::Register),
            "counter" => Some(ObjectName::Counter),
            "map" => Some(ObjectName::Map),
            "set" => Some(ObjectName::Set),
            _ => None,
        }
    }
}

/// What is written of a finding.
#[derive(Clone, Copy, Debug, PartialEq, Eq)]
pub enum Form {
    /// Lines.
    Lines,
    /// Lines, and an order of the calls where there is one.
    Order,
    /// A picture, as the text of an SVG.
    Svg,
    /// A page that shows it.
    Html,
}

/// How a history is judged.
#[derive(Clone, Copy, Debug)]
pub struct Request {
    /// By which object.
    pub object: ObjectName,
    /// What is written.
    pub form: Form,
    /// How many rounds a search has at most.
    pub rounds: u64,
}

/// The option for the rounds of a search.
fn rounds_option<'a>(alloc: Global) -> Arg<'a> {
    Arg::new(alloc, "rounds")
        .long("rounds")
        .value_name("N")
        .help("The most rounds of a search")
        .default_value("2000000")
        .value_parser(ValueParser::Unsigned(0, u64::MAX))
}

/// An option that is there or isn't.
fn flag<'a>(alloc: Global, name: &'a str, help: &'a str) -> Arg<'a> {
    Arg::new(alloc, name)
        .long(name)
        .action(ArgAction::SetTrue)
        .help(help)
}

/// The command line of the program.
fn unicheck<'a>(alloc: Global) -> Result<Command<'a>, AllocError> {
    let object = Arg::new(alloc, "OBJECT")
        .required(true)
        .help("One of queue, stack, register, counter, map and set");
    let file = Arg::new(alloc, "FILE").help("The history; - or nothing is standard input");
    Command::new(alloc, "unicheck")
        .version(VERSION)
        .about("Judges whether a recorded history is linearizable")
        .after_help(NOTES)
        .arg(object)?
        .arg(file)?
        .arg(flag(
            alloc,
            "order",
            "Tells an order of the calls, where there is one",
        ))?
        .arg(flag(alloc, "svg", "Draws the history, as the text of an SVG"))?
        .arg(flag(alloc, "html", "Draws it in a page"))?
        .arg(rounds_option(alloc))
}

/// The matches of a command line, the program's name first.
pub(crate) fn matches_of<'a, S: AsStr>(
    alloc: Global,
    words: &'a [S],
) -> Result<ArgMatches<'a>, clap::Error> {
    unicheck(alloc)?.try_get_matches_from(words)
}

/// What is to be written; `None` where matches ask for two forms at once.
fn form_in(matches: &ArgMatches<'_>) -> Option<Form> {
    let is_set = |name: &str| matches.get_str(name) == Some("true");
    match (is_set("order"), is_set("svg"), is_set("html")) {
        (false, false, false) => Some(Form::Lines),
        (true, false, false) => Some(Form::Order),
        (false, true, false) => Some(Form::Svg),
        (false, false, true) => Some(Form::Html),
        _ => None,
    }
}

/// What matches ask for.
///
/// An `Err` says that there is no such object, that two forms are asked for, or that memory was refused.
pub(crate) fn request_in(alloc: Global, matches: &ArgMatches<'_>) -> Result<Request, clap::Error> {
    let object = matches
        .get_str("OBJECT")
        .and_then(|name| ObjectName::named(name));
    let rounds = matches
        .get_str("rounds")
        .and_then(|text| text.parse::<u64>().ok());
    match (object, rounds, form_in(matches)) {
        (Some(object), Some(rounds), Some(form)) => Ok(Request {
            object,
            form,
            rounds,
        }),
        (_, _, None) => Err(unicheck(alloc)?.error(
            ErrorKind::ArgumentConflict,
            "only one of --order, --svg and --html can be used",
        )?),
        _ => Err(unicheck(alloc)?.error(
            ErrorKind::InvalidValue,
            "OBJECT is one of queue, stack, register, counter, map and set",
        )?),
    }
}
