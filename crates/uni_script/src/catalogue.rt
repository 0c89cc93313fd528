//! What the headers of scripts can name: the objects that are ready, or one of a user.

ghost use Rattle.std.specs.Prelude.{ℕ, ◌≡◌, ◌↔◌, true, false, [], List, Option, Some, IfSome, OnOk};
ghost use Rattle.std.specs.Prelude.{IsErrOf, option_map};
ghost use Rattle.std.specs.Str.{bytes_eq};
ghost use Rattle.ready_objects.specs.Words.{bytes_of};
ghost use Rattle.uni_record.specs.Refusals.{IsHistoryLimit};
ghost use Rattle.uni_script.specs.declared.grammar.Header.{Header};
ghost use Rattle.uni_script.specs.declared.options.Options.{Options};
ghost use Rattle.uni_script.specs.declared.script_run.Ran.{Ran};
ghost use Rattle.uni_script.specs.Grammar.{IsInRange, header_by};
ghost use Rattle.uni_script.specs.Lines.{IsHeld, RunsOn};
ghost use Rattle.uni_script.specs.Outcome.{Kind};

use crate::driver::run_object;
use crate::ends::{TextIn, TextOut};
use crate::fault::BenchFault;
use crate::grammar::{Header, ObjectName, object_of};
use crate::lines::Lines;
use crate::options::Options;
use crate::remarks::Listener;
use crate::script_run::{Ran, ScriptRecord};
use ready_objects::{BookObject, DirectoryObject, QueueObject, Spoken, StickyObject, is_text};
use std::alloc::Global;
use uni_record::Recorded;

/// Scripts with sessions of their own.
pub(crate) trait Scripts {
    /// The session of a script.
    ghost Session: { Type 0 };
}

/// The objects that a header can name, and the run of a script on the one that it names.
pub(crate) trait Catalogue: Drop {
    /// What a header names.
    type Name: Copy;

    /// The record that a script leaves.
    type Record: Drop;

    /// The session of a script.
    ghost Session: { Type 0 };

    /// The kind of the scripts.
    ghost kind: { Self → Options → Kind Session };

    /// What a word names.
    ghost named: { Self → List ℕ → Option Self.Name };

    /// The session that a header opens.
    ghost opened: { Self → Options → Header Self.Name → Session };

    /// The words of a script that open a session are its headers.
    ghost headers: { (catalogue : Self) (options : Options) (words : List (List ℕ))
        → (kind catalogue options).opened words
        ≡ option_map (opened catalogue options) (header_by (named catalogue) words) };

    /// Lines are written before their answers where the options say so.
    ghost echoes: { (catalogue : Self) (options : Options) → (kind catalogue options).echo ≡ options.echo };

    /// A record of a script of so many lines that leaves a session.
    ghost IsRan: { Self → (lines : ℕ) → Session → Ran Self.Record → Type 0 };

    /// What a word names; `None` where it names nothing.
    fn name(&self, word: &[u8]) -> Option<Self::Name>
        ensures { result ≡ named self.now word.now };

    /// Runs the lines that are left after a header, on the object that it names.
    ///
    /// `Memory` where memory was refused, `Write` where the writer failed; any other `Err` is the first fault of what
    /// was read.
    fn run<I: TextIn, W: TextOut, L: Listener>(
        self,
        alloc: Global,
        header: Header<Self::Name>,
        options: &Options,
        lines: &mut Lines,
        reader: &mut I,
        writer: &mut W,
        listener: &mut L,
    ) -> Result<Ran<Self::Record>, BenchFault>
        requires range { IsInRange header }
        requires history { IsHistoryLimit options.now.history }
        requires held { IsHeld lines.old }
        requires reader { I.has_failed reader.old ≡ false }
        requires writer { W.has_failed writer.old ≡ false }
        ensures run { RunsOn (kind self options.now) (I.remaining reader.old) lines.old (W.contents writer.old)
            (L.heard listener.old) (Some (opened self options.now header)) (I.remaining reader.new)
            (W.contents writer.new) (L.heard listener.new) (IsRan self) result }
        ensures reader { IsErrOf result BenchFault.Read → I.has_failed reader.new ≡ true }
        ensures reader_ok { OnOk result (I.has_failed reader.new ≡ false) }
        ensures writer { IsErrOf result BenchFault.Write ↔ (W.has_failed writer.new ≡ true) };
}

/// The objects that are ready, each by its name.
#[derive(Drop)]
pub(crate) struct Ready;

impl Scripts for Ready {
    ghost use Rattle.uni_script.specs.Scripts.{ScriptSession};

    ghost Session = { ScriptSession };
}

impl Catalogue for Ready {
    ghost use Rattle.std.specs.Prelude.{refl};
    ghost use Rattle.uni_script.specs.Grammar.{object_of_word};
    ghost use Rattle.uni_script.specs.Scripts.{ScriptSession, scripts, session_of_header};
    ghost use Rattle.uni_script.specs.ScriptRun.{IsRan};

    type Name = ObjectName;

    type Record = ScriptRecord;

    ghost Session = { ScriptSession };

    ghost kind = { λ ready options. scripts options };

    ghost named = { λ ready word. object_of_word word };

    ghost opened = { λ ready options header. session_of_header options.history header };

    ghost headers = { λ ready options words. refl };

    ghost echoes = { λ ready options. refl };

    ghost IsRan = { λ ready. IsRan };

    fn name(&self, word: &[u8]) -> Option<ObjectName> {
        object_of(word)
    }

    /// The one place of a run that tells the objects apart.
    fn run<I: TextIn, W: TextOut, L: Listener>(
        self,
        alloc: Global,
        header: Header<ObjectName>,
        options: &Options,
        lines: &mut Lines,
        reader: &mut I,
        writer: &mut W,
        listener: &mut L,
    ) -> Result<Ran<ScriptRecord>, BenchFault>
        requires range { IsInRange header }
        requires history { IsHistoryLimit options.now.history }
        requires held { IsHeld lines.old }
        requires reader { I.has_failed reader.old ≡ false }
        requires writer { W.has_failed writer.old ≡ false }
        ensures run { RunsOn (scripts options.now) (I.remaining reader.old) lines.old (W.contents writer.old)
            (L.heard listener.old) (Some (session_of_header options.now.history header)) (I.remaining reader.new)
            (W.contents writer.new) (L.heard listener.new) (IsRan) result }
        ensures reader { IsErrOf result BenchFault.Read → I.has_failed reader.new ≡ true }
        ensures reader_ok { OnOk result (I.has_failed reader.new ≡ false) }
        ensures writer { IsErrOf result BenchFault.Write ↔ (W.has_failed writer.new ≡ true) }
    {
        match header.object {
            ObjectName::Queue => {
                let ran = run_object::<Ready, QueueObject, ObjectName, I, W, L>(
                    alloc,
                    QueueObject,
                    header,
                    options,
                    lines,
                    reader,
                    writer,
                    listener,
                )?;
                let record = ScriptRecord::Queue(ran.record);
                Ok(Ran {
                    record,
                    summary: ran.summary,
                })
            }
            ObjectName::Directory => {
                let ran = run_object::<Ready, DirectoryObject, ObjectName, I, W, L>(
                    alloc,
                    DirectoryObject,
                    header,
                    options,
                    lines,
                    reader,
                    writer,
                    listener,
                )?;
                let record = ScriptRecord::Directory(ran.record);
                Ok(Ran {
                    record,
                    summary: ran.summary,
                })
            }
            ObjectName::Book => {
                let ran = run_object::<Ready, BookObject, ObjectName, I, W, L>(
                    alloc, BookObject, header, options, lines, reader, writer, listener,
                )?;
                let record = ScriptRecord::Book(ran.record);
                Ok(Ran {
                    record,
                    summary: ran.summary,
                })
            }
            ObjectName::Sticky => {
                let ran = run_object::<Ready, StickyObject, ObjectName, I, W, L>(
                    alloc,
                    StickyObject,
                    header,
                    options,
                    lines,
                    reader,
                    writer,
                    listener,
                )?;
                let record = ScriptRecord::Sticky(ran.record);
                Ok(Ran {
                    record,
                    summary: ran.summary,
                })
            }
        }
    }
}

/// One object, which headers name by this word.
#[derive(Drop)]
pub(crate) struct Own<'a, O: Spoken> {
    pub(crate) name: &'a str,
    pub(crate) object: O,
}

impl<'a, O: Spoken> Scripts for Own<'a, O> {
    ghost use Rattle.uni_script.specs.Scripts.{OwnSession};

    ghost Session = { OwnSession O.State O.Inv O.Resp };
}

impl<'a, O: Spoken> Catalogue for Own<'a, O> {
    ghost use Rattle.std.specs.Prelude.{refl};
    ghost use Rattle.uni_script.specs.Objects.{spoken};
    ghost use Rattle.uni_script.specs.Scripts.{OwnSession, own_scripts, own_session_of_header, named_by};
    ghost use Rattle.uni_script.specs.ScriptRun.{IsOwnRan};

    type Name = ();

    type Record = Recorded<O>;

    ghost Session = { OwnSession O.State O.Inv O.Resp };

    ghost kind = { λ own options. own_scripts (spoken O.sequential O.language own.object) own.name.now options };

    ghost named = { λ own word. named_by own.name.now word };

    ghost opened = { λ own options header. own_session_of_header
        (spoken O.sequential O.language own.object) options.history header };

    ghost headers = { λ own options words. refl };

    ghost echoes = { λ own options. refl };

    ghost IsRan = { λ own. IsOwnRan (spoken O.sequential O.language own.object) };

    fn name(&self, word: &[u8]) -> Option<()> {
        if is_text(word, self.name) {
            Some(())
        } else {
            None
        }
    }

    fn run<I: TextIn, W: TextOut, L: Listener>(
        self,
        alloc: Global,
        header: Header<()>,
        options: &Options,
        lines: &mut Lines,
        reader: &mut I,
        writer: &mut W,
        listener: &mut L,
    ) -> Result<Ran<Recorded<O>>, BenchFault>
        requires range { IsInRange header }
        requires history { IsHistoryLimit options.now.history }
        requires held { IsHeld lines.old }
        requires reader { I.has_failed reader.old ≡ false }
        requires writer { W.has_failed writer.old ≡ false }
        ensures run { RunsOn (own_scripts (spoken O.sequential O.language self.entry.object) self.entry.name.now
            options.now) (I.remaining reader.old) lines.old (W.contents writer.old) (L.heard listener.old)
            (Some (own_session_of_header (spoken O.sequential O.language self.entry.object) options.now.history header))
            (I.remaining reader.new) (W.contents writer.new) (L.heard listener.new)
            (IsOwnRan (spoken O.sequential O.language self.entry.object)) result }
        ensures reader { IsErrOf result BenchFault.Read → I.has_failed reader.new ≡ true }
        ensures reader_ok { OnOk result (I.has_failed reader.new ≡ false) }
        ensures writer { IsErrOf result BenchFault.Write ↔ (W.has_failed writer.new ≡ true) }
    {
        run_object::<Own<'a, O>, O, (), I, W, L>(
            alloc,
            self.object,
            header,
            options,
            lines,
            reader,
            writer,
            listener,
        )
    }
}
