//! The lines that a script can have, and what their words may be.

use uni_model::{MAX_PROCESSES, MAX_ROW};
use uni_script::ObjectName;

/// What an object is, and the calls that it has.
pub(crate) fn calls_of(object: ObjectName) -> &'static str {
    match object {
        ObjectName::Queue => "a queue has enq V, deq",
        ObjectName::Directory => "a directory has put NAME V, get NAME, del NAME, size, at I",
        ObjectName::Book => "a book has deposit A V, withdraw A V, move A B V, total",
        ObjectName::Sticky => "a sticky register has stick V, read",
    }
}

/// What a word of a line stands for.
#[derive(Clone, Copy)]
pub enum Field {
    /// The version of a header.
    Version,
    /// The object of a header.
    Object,
    /// The processes of a header of version 1.
    Few,
    /// The processes of a header of version 2.
    Many,
    /// The cells of a row.
    Row,
    /// A process.
    Process,
    /// How many steps.
    Steps,
    /// How many processes there are to be.
    Count,
    /// A number that an object keeps.
    Value,
    /// An account.
    Account,
    /// The account that an amount is moved to.
    Other,
    /// A place in a directory.
    At,
    /// A name in a directory.
    Name,
    /// The words of a call.
    Words,
}

impl Field {
    /// What it is called in the form of a line.
    pub(crate) fn name(self) -> &'static str {
        match self {
            Field::Version => "VERSION",
            Field::Object => "OBJECT",
            Field::Few | Field::Many => "N",
            Field::Row => "K",
            Field::Process => "P",
            Field::Steps | Field::Count => "M",
            Field::Value => "V",
            Field::Account => "A",
            Field::Other => "B",
            Field::At => "I",
            Field::Name => "NAME",
            Field::Words => "WORDS",
        }
    }

    /// The least and the greatest number that it may be; `None` where it is no number.
    pub(crate) fn range(self) -> Option<(u64, u64)> {
        match self {
            Field::Version | Field::Object | Field::Name | Field::Words => None,
            Field::Few => Some((1, 16)),
            Field::Many => Some((1, MAX_PROCESSES)),
            Field::Row => Some((1, MAX_ROW)),
            Field::Process | Field::Count | Field::Value => Some((0, 999_999_999_999)),
            Field::Steps => Some((1, 1000)),
            Field::Account | Field::Other => Some((0, 15)),
            Field::At => Some((0, 255)),
        }
    }
}

/// The form of a line.
#[derive(Clone, Copy)]
pub enum Form {
    /// A header of version 1.
    HeaderOne,
    /// A header of version 2.
    HeaderTwo,
    /// A call, of which no more is known.
    Call,
    /// One step.
    StepOnce,
    /// Some steps.
    Step,
    /// The rest of a call.
    Finish,
    /// The end of an era.
    Trim,
    /// The log.
    Log,
    /// The heads.
    Heads,
    /// Another number of processes.
    Reshape,
    /// A number goes last.
    Enq,
    /// The first number is taken out.
    Deq,
    /// A name gets a number.
    Put,
    /// The number of a name.
    Get,
    /// A name is taken out.
    Del,
    /// How many names there are.
    Size,
    /// The number at a place.
    At,
    /// An amount is added.
    Deposit,
    /// An amount is taken off.
    Withdraw,
    /// An amount is moved.
    Move,
    /// The sum of the balances.
    Total,
    /// A number is proposed.
    Stick,
    /// The number that is settled.
    Read,
}

impl Form {
    /// The form of the header with this word for its version.
    pub(crate) fn header(version: &[u8]) -> Form {
        match version {
            b"2" => Form::HeaderTwo,
            _ => Form::HeaderOne,
        }
    }

    /// The form of a call of an object; `None` where it has no such call.
    pub(crate) fn call(object: ObjectName, name: &[u8]) -> Option<Form> {
        match (object, name) {
            (ObjectName::Queue, b"enq") => Some(Form::Enq),
            (ObjectName::Queue, b"deq") => Some(Form::Deq),
            (ObjectName::Directory, b"put") => Some(Form::Put),
            (ObjectName::Directory, b"get") => Some(Form::Get),
            (ObjectName::Directory, b"del") => Some(Form::Del),
            (ObjectName::Directory, b"size") => Some(Form::Size),
            (ObjectName::Directory, b"at") => Some(Form::At),
            (ObjectName::Book, b"deposit") => Some(Form::Deposit),
            (ObjectName::Book, b"withdraw") => Some(Form::Withdraw),
            (ObjectName::Book, b"move") => Some(Form::Move),
            (ObjectName::Book, b"total") => Some(Form::Total),
            (ObjectName::Sticky, b"stick") => Some(Form::Stick),
            (ObjectName::Sticky, b"read") => Some(Form::Read),
            _ => None,
        }
    }

    /// The form of a command that is no call, with so many words after its name; `None` where there is none.
    pub(crate) fn command(name: &[u8], words: usize) -> Option<Form> {
        match name {
            b"step" if words < 2 => Some(Form::StepOnce),
            b"step" => Some(Form::Step),
            b"finish" => Some(Form::Finish),
            b"trim" => Some(Form::Trim),
            b"log" => Some(Form::Log),
            b"heads" => Some(Form::Heads),
            b"reshape" => Some(Form::Reshape),
            _ => None,
        }
    }

    /// The form as it is written.
    pub(crate) fn text(self) -> &'static str {
        match self {
            Form::HeaderOne | Form::HeaderTwo => "universal VERSION OBJECT N K",
            Form::Call => "call P WORDS",
            Form::StepOnce | Form::Step => "step P [M]",
            Form::Finish => "finish P",
            Form::Trim => "trim",
            Form::Log => "log",
            Form::Heads => "heads",
            Form::Reshape => "reshape M",
            Form::Enq => "call P enq V",
            Form::Deq => "call P deq",
            Form::Put => "call P put NAME V",
            Form::Get => "call P get NAME",
            Form::Del => "call P del NAME",
            Form::Size => "call P size",
            Form::At => "call P at I",
            Form::Deposit => "call P deposit A V",
            Form::Withdraw => "call P withdraw A V",
            Form::Move => "call P move A B V",
            Form::Total => "call P total",
            Form::Stick => "call P stick V",
            Form::Read => "call P read",
        }
    }

    /// The words that follow its name.
    pub(crate) fn fields(self) -> &'static [Field] {
        match self {
            Form::HeaderOne => &[Field::Version, Field::Object, Field::Few, Field::Row],
            Form::HeaderTwo => &[Field::Version, Field::Object, Field::Many, Field::Row],
            Form::Call => &[Field::Process, Field::Words],
            Form::StepOnce | Form::Finish => &[Field::Process],
            Form::Step => &[Field::Process, Field::Steps],
            Form::Reshape => &[Field::Count],
            Form::Enq | Form::Stick => &[Field::Value],
            Form::Put => &[Field::Name, Field::Value],
            Form::Get | Form::Del => &[Field::Name],
            Form::At => &[Field::At],
            Form::Deposit | Form::Withdraw => &[Field::Account, Field::Value],
            Form::Move => &[Field::Account, Field::Other, Field::Value],
            _ => &[],
        }
    }
}
