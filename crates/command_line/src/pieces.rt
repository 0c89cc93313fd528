//! Pieces of a command line.

ghost use Rattle.std.specs.Prelude.{◌≡◌, codes, false, option_map};
ghost use Rattle.clap.specs.Words.{found_of, rows_of, rule_of};
ghost use Rattle.command_line.specs.Flags.{flag, is_set, is_true, may_be_path};

use clap::{Arg, ArgAction, ArgMatches};
use std::alloc::Global;

/// An option without a value, with what its help says.
pub fn flag<'a>(alloc: Global, name: &'a str, help: &'a str) -> Arg<'a>
    ensures rule { rule_of result ≡ flag name.entry.now }
    ensures local { result.global ≡ false }
{
    Arg::new(alloc, name)
        .long(name)
        .action(ArgAction::SetTrue)
        .help(help)
}

/// Whether an option without a value is used.
pub fn is_set(matches: &ArgMatches<'_>, name: &str) -> bool
    ensures { result ≡ is_set name.now (rows_of (found_of matches.now)) }
{
    is_true(matches.get_str(name))
}

/// Whether there is a value, and it is `true`.
fn is_true(value: Option<&str>) -> bool
    ensures { result ≡ is_true (option_map (λ text. text.now) value.entry) }
{
    match value {
        Some(text) => text == "true",
        None => false,
    }
}

/// Whether a word may name a file: it is `-`, or doesn't begin with that.
pub fn may_be_path(word: &str) -> bool
    ensures { result ≡ may_be_path word.now }
{
    word == "-" || !word.starts_with('-')
}
