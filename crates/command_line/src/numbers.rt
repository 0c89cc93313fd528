//! Options whose values are numbers.

ghost use Rattle.std.specs.Prelude.{◌≡◌};
ghost use Rattle.clap.specs.Words.{found_of, rows_of, rule_of};
ghost use Rattle.command_line.specs.Numbers.{in_range, number_in, value_of};

use clap::builder::ValueParser;
use clap::{Arg, ArgMatches};

/// An option whose value is a number of a range: another one is a fault of the command line, which names the option and
/// the range.
pub fn in_range<'a>(number: Arg<'a>, least: u64, most: u64) -> Arg<'a>
    ensures rule { rule_of result ≡ in_range (rule_of number.entry) least most }
    ensures local { result.global ≡ number.entry.global }
{
    number.value_parser(ValueParser::Unsigned(least, most))
}

/// The number that an option's value writes, where it is one of a range.
pub fn number_of(matches: &ArgMatches<'_>, option: &str, least: u64, most: u64) -> Option<u64>
    ensures { result ≡ value_of (number_in least most) option.now (rows_of (found_of matches.now)) }
{
    number_in(matches.get_str(option)?, least, most)
}

/// The number that a text writes in decimal, where it is one of a range.
fn number_in(text: &str, least: u64, most: u64) -> Option<u64>
    ensures { result ≡ number_in least most text.now }
{
    match text.parse::<u64>() {
        Ok(number) => {
            if least <= number && number <= most {
                Some(number)
            } else {
                None
            }
        }
        Err(_) => None,
    }
}
