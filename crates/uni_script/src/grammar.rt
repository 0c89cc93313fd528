//! The lines of a script: notes, the header and commands.

ghost use Rattle.std.specs.Prelude.{◌≡◌, ◌==◌, [], IfOk, IfSome, Some};
ghost use Rattle.std.specs.List.{list_all, position};
ghost use Rattle.ready_objects.specs.Number.{number_of_word};
ghost use Rattle.ready_objects.specs.Words.{bytes_of, words_of_text};
ghost use Rattle.uni_script.specs.Grammar.{is_plain_byte, is_note, version_of_word, object_of_word, most_processes};
ghost use Rattle.uni_script.specs.Grammar.{header_with, IsInRange, header_by, header_of_words, count_of_number};
ghost use Rattle.uni_script.specs.Grammar.{reshape_of, command_of_name, command_of_number, command_of_words};
ghost use Rattle.uni_script.specs.Schedules.{word_of_object};

use crate::catalogue::{Catalogue, Ready};
use ready_objects::{Amount, Spoken, is_text};
use smallvec::SmallVec;
use std::alloc::{AllocError, Global};
use std::fmt;
use uni_model::{MAX_PROCESSES, MAX_ROW};

/// An object that the processes of a script can share.
#[derive(Clone, Copy, Debug, PartialEq, Eq)]
pub enum ObjectName {
    /// A queue.
    Queue,
    /// A directory.
    Directory,
    /// A book of accounts.
    Book,
    /// A sticky register.
    Sticky,
}

impl ObjectName {
    /// The word that names it in a header.
    pub fn word(self) -> &'static str
        ensures { result.now ≡ word_of_object self }
    {
        match self {
            ObjectName::Queue => "queue",
            ObjectName::Directory => "directory",
            ObjectName::Book => "book",
            ObjectName::Sticky => "sticky",
        }
    }
}

impl fmt::Display for ObjectName {
    ghost output = { λ object. Some (word_of_object object) };

    fn fmt<W: fmt::Write>(&self, f: &mut fmt::Formatter<W>) -> fmt::Result {
        write!(f, "{}", self.word())
    }
}

/// A version of the language.
#[derive(Clone, Copy)]
pub enum Version {
    /// Up to 16 processes, as many as the header says.
    One,
    /// Up to 64 processes, and their number can be changed.
    Two,
}

/// The header of a script, which names what the processes share.
#[derive(Clone, Copy)]
pub struct Header<N> {
    /// The version of the script's language.
    pub version: Version,
    /// What the processes share.
    pub object: N,
    /// How many processes there are, from 1 to 16 in version 1, and to 64 in version 2.
    pub processes: u64,
    /// How many calls each process can make, from 1 to 4096.
    pub row: u64,
}

/// A command of a script, with an invocation of the object.
#[derive(Clone, Copy)]
pub enum Command<I> {
    /// A process begins a call.
    Call {
        /// The process.
        process: u64,
        /// What its call asks for.
        inv: I,
    },
    /// A process takes steps until its call returns, at most so many.
    Step {
        /// The process.
        process: u64,
        /// How many steps, from 1 to 1000.
        count: u64,
    },
    /// A process takes steps until its call returns.
    Finish {
        /// The process.
        process: u64,
    },
    /// The entries are printed.
    Log,
    /// The number of each head is printed.
    Heads,
    /// The era ends, where no call is pending.
    Trim,
    /// The era ends, and there is another number of processes.
    Reshape {
        /// How many there are.
        processes: u64,
    },
}

/// Tells whether a line is a note: it is empty or begins with `#`.
pub fn is_note(line: &[u8]) -> bool
    ensures { result ≡ is_note line.now }
{
    match line {
        [] => true,
        [first, ..] => *first == b'#',
    }
}

/// Tells whether each byte of a line is from 32 to 126.
pub fn is_plain(line: &[u8]) -> bool
    ensures { result ≡ list_all is_plain_byte line.now }
{
    line.iter().all(|byte| *byte >= 32 && *byte <= 126)
}

/// The words of a line. Up to eight of them take no memory of the allocator.
pub type Words<'a> = SmallVec<&'a [u8], 8>;

/// The words of a line, cut at each space.
///
/// An `Err` says that memory was refused, for a line of more than eight words.
pub fn words_of(alloc: Global, line: &[u8]) -> Result<Words<'_>, AllocError>
    ensures { IfOk result (λ words. bytes_of words.items ≡ words_of_text line.now) }
{
    let mut words = SmallVec::new(alloc);
    let mut rest = line;
    while let Some(at) = space_in(rest) {
        words.push(&rest[..at])?;
        rest = &rest[at..][1..];
    }
    words.push(rest)?;
    Ok(words)
}

/// The place of the first space of a text; `None` where it has none.
fn space_in(text: &[u8]) -> Option<usize>
    ensures { result ≡ position (λ b. b == 32) text.now }
{
    text.iter().position(|byte| *byte == b' ')
}

/// The header that words are; `None` where they are none.
pub fn header_of(words: &[&[u8]]) -> Option<Header<ObjectName>>
    ensures header { result ≡ header_of_words (bytes_of words.now) }
    ensures range { IfSome result IsInRange }
{
    header_by(&Ready, words)
}

/// The header that words are, where it names an object of a catalogue; `None` where they are none.
pub(crate) fn header_by<C: Catalogue>(catalogue: &C, words: &[&[u8]]) -> Option<Header<C::Name>>
    ensures header { result ≡ header_by (C.named catalogue.now) (bytes_of words.now) }
    ensures range { IfSome result IsInRange }
{
    let [name, version, object, processes, row] = words else {
        return None;
    };
    if is_text(name, "universal") {
        header_with(
            version_of(version)?,
            catalogue.name(object)?,
            number_of(processes)?,
            number_of(row)?,
        )
    } else {
        None
    }
}

/// The version that a word names; `None` where it names none.
fn version_of(word: &[u8]) -> Option<Version>
    ensures { result ≡ version_of_word word.now }
{
    if is_text(word, "1") {
        Some(Version::One)
    } else if is_text(word, "2") {
        Some(Version::Two)
    } else {
        None
    }
}

/// The object that a word names; `None` where it names none.
pub fn object_of(word: &[u8]) -> Option<ObjectName>
    ensures { result ≡ object_of_word word.now }
{
    if is_text(word, "queue") {
        Some(ObjectName::Queue)
    } else if is_text(word, "directory") {
        Some(ObjectName::Directory)
    } else if is_text(word, "book") {
        Some(ObjectName::Book)
    } else if is_text(word, "sticky") {
        Some(ObjectName::Sticky)
    } else {
        None
    }
}

/// The most processes that a header of this version can have.
fn most_processes(version: Version) -> u64
    ensures { result ≡ most_processes version }
{
    match version {
        Version::One => 16,
        Version::Two => MAX_PROCESSES,
    }
}

/// The header of this many processes with rows of this many cells; `None` where they aren't from 1
/// to what the version takes and from 1 to 4096.
fn header_with<N: Copy>(version: Version, object: N, processes: u64, row: u64) -> Option<Header<N>>
    ensures header { result ≡ header_with version object processes row }
    ensures range { IfSome result IsInRange }
{
    if processes >= 1 && processes <= most_processes(version) && row >= 1 && row <= MAX_ROW {
        Some(Header {
            version,
            object,
            processes,
            row,
        })
    } else {
        None
    }
}

/// The command that words are in a version of the language; `None` where they are none.
pub fn command_of<O: Spoken>(version: Version, words: &[&[u8]]) -> Option<Command<O::Inv>>
    ensures { result ≡ command_of_words version O.language.inv_of_words (bytes_of words.now) }
{
    match words {
        [name] => command_of_name(name),
        [name, process, inv @ ..] if is_text(name, "call") => {
            let process = number_of(process)?;
            let inv = O::read_inv(inv)?;
            Some(Command::Call { process, inv })
        }
        [name, number] => command_of_number(version, name, number),
        [name, process, count] if is_text(name, "step") => {
            let process = number_of(process)?;
            let count = count_of_number(number_of(count)?)?;
            Some(Command::Step { process, count })
        }
        _ => None,
    }
}

/// The command that one word is; `None` where it is none.
fn command_of_name<I>(name: &[u8]) -> Option<Command<I>>
    ensures { result ≡ command_of_name name.now }
{
    if is_text(name, "log") {
        Some(Command::Log)
    } else if is_text(name, "heads") {
        Some(Command::Heads)
    } else if is_text(name, "trim") {
        Some(Command::Trim)
    } else {
        None
    }
}

/// The command that a name and a number are in a version of the language; `None` where they are none.
fn command_of_number<I>(version: Version, name: &[u8], number: &[u8]) -> Option<Command<I>>
    ensures { result ≡ command_of_number version name.now (number_of_word number.now) [] }
{
    if is_text(name, "finish") {
        let process = number_of(number)?;
        Some(Command::Finish { process })
    } else if is_text(name, "reshape") {
        let processes = number_of(number)?;
        reshape_of(version, processes)
    } else if is_text(name, "step") {
        let process = number_of(number)?;
        Some(Command::Step { process, count: 1 })
    } else {
        None
    }
}

/// A change of the number of processes; `None` where the version has none.
fn reshape_of<I>(version: Version, processes: u64) -> Option<Command<I>>
    ensures { result ≡ reshape_of version processes }
{
    match version {
        Version::One => None,
        Version::Two => Some(Command::Reshape { processes }),
    }
}

/// A number of steps; `None` where it isn't from 1 to 1000.
fn count_of_number(count: u64) -> Option<u64>
    ensures { result ≡ count_of_number count }
{
    if count >= 1 && count <= 1000 {
        Some(count)
    } else {
        None
    }
}

/// The number that a word of 1 to 12 digits writes, without a leading zero unless the word is `0`;
/// `None` where the word isn't one.
fn number_of(word: &[u8]) -> Option<u64>
    ensures { result ≡ number_of_word word.now }
{
    Some(Amount::read(word)?.number())
}
