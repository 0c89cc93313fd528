//! From the bytes of a script to the page.

ghost use Rattle.std.specs.Prelude.{◌≡◌, IfOk, OnOk, IsErrOf, false, map};
ghost use Rattle.run_tell.specs.Json.{object_text};
ghost use Rattle.uni_record.specs.Event.{events_shown};
ghost use Rattle.uni_script.specs.Objects.{spoken};
ghost use Rattle.uni_script.specs.Replay.{HasFault, IsFaultOfScript};
ghost use Rattle.uni_script.specs.ScriptRun.{session_of_record};
ghost use Rattle.uni_script.specs.Scripts.{scripts_of};
ghost use Rattle.uni_script.specs.declared.fault.BenchFault.{BenchFault as Fault};
ghost use Rattle.uni_script.specs.declared.grammar.Version.{Version};
ghost use Rattle.run_play.specs.Play.{any_refused, graph_members};
ghost use Rattle.run_play.specs.Play.{IsPageOf, IsPageOfSession, IsPlayed};

use crate::edges::edge_texts;
use crate::fault::{PlayFault, of_graph};
use crate::plan::{has_one_era, plan_of};
use ready_objects::Spoken;
use run_graph::{Plan, explore};
use run_tell::{END, MIDDLE, Member, START, Value, list_of, object_of, page_text};
use std::alloc::{AllocError, Global};
use uni_record::Recorded;
use uni_script::{
    ObjectName, Options, PlacedRemark, Remark, ScriptRecord, ScriptRun, TextIn, run_of_script,
};

/// The most worlds that a page can have.
pub const MOST_WORLDS: usize = 20_000;

/// Whether a command was refused.
fn any_refused(remarks: &[PlacedRemark]) -> bool
    ensures { result ≡ any_refused remarks.now }
{
    for one in remarks {
        if let Remark::Refused { .. } = one.remark {
            return true;
        }
    }
    false
}

/// A graph with what its page needs beside it, and the text of a goal, as JSON.
///
/// An `Err` says that memory was refused.
fn graph_text<O: Spoken + Copy>(
    alloc: Global,
    name: &str,
    plan: &Plan<O>,
    goal: &[u8],
    edges: &[Vec<u8>],
) -> Result<Vec<u8>, AllocError>
    ensures { IfOk result (λ text. text.items ≡ object_text (graph_members name.now plan.now.processes plan.now.row
        (O.state_text (O.sequential plan.now.object).initial) goal.now (map (λ e. e.items) edges.now))) }
{
    let list = list_of(alloc, edges)?;
    let mut state = Vec::new(alloc);
    O::push_state(&mut state, &plan.object.start(alloc)?)?;
    let members = [
        Member("object", Value::Text(name.as_bytes())),
        Member("processes", Value::Number(plan.processes)),
        Member("row", Value::Number(plan.row)),
        Member("state", Value::Text(&state)),
        Member("goal", Value::Text(goal)),
        Member("edges", Value::Json(&list)),
    ];
    object_of(alloc, &members)
}

/// The page of the calls of a run on an object of this name, with a goal.
///
/// Errors, in this order: `Eras`, `TooManyWorlds`; else `Memory`.
fn page_of_record<O: Spoken + Copy>(
    alloc: Global,
    name: &str,
    goal: &[u8],
    recorded: &Recorded<O>,
) -> Result<Vec<u8>, PlayFault>
    ensures page { IfOk result (λ text. IsPageOf (spoken O.sequential O.language recorded.now.world.object)
        O.state_text name.now goal.now recorded.now.processes recorded.now.world.row recorded.now.first
        (events_shown recorded.now.events) text.items) }
    ensures memory { (e : Fault) → IsErrOf result (PlayFault.Script e) → e ≡ Fault.Memory }
{
    recorded.promise();
    if recorded.first() != 1 || recorded.processes() == 0 || !has_one_era(recorded) {
        return Err(PlayFault::Eras);
    }
    let plan = plan_of(alloc, recorded)?;
    let graph = match explore(alloc, &plan, MOST_WORLDS) {
        Ok(graph) => graph,
        Err(fault) => return Err(of_graph(fault)),
    };
    let edges = edge_texts(alloc, &plan, &graph)?;
    let json = graph_text(alloc, name, &plan, goal, &edges)?;
    let page = page_text(alloc, START, b"", MIDDLE, &json, END)?;
    Ok(page)
}

/// The page of the calls of a script's run, by its object, with a goal.
///
/// Errors, in this order: `Refused`, `Eras`, `TooManyWorlds`; else `Memory`.
fn page_of_run(
    alloc: Global,
    goal: &[u8],
    run: &ScriptRun<ScriptRecord>,
) -> Result<Vec<u8>, PlayFault>
    ensures accepted { OnOk result (any_refused run.now.remarks.items ≡ false) }
    ensures page { IfOk result (λ text. (version : Version)
        → IsPageOfSession goal.now (session_of_record version run.now.record) text.items) }
    ensures memory { (e : Fault) → IsErrOf result (PlayFault.Script e) → e ≡ Fault.Memory }
{
    if any_refused(&run.remarks) {
        return Err(PlayFault::Refused);
    }
    match &run.record {
        ScriptRecord::Queue(recorded) => {
            page_of_record(alloc, ObjectName::Queue.word(), goal, recorded)
        }
        ScriptRecord::Directory(recorded) => {
            page_of_record(alloc, ObjectName::Directory.word(), goal, recorded)
        }
        ScriptRecord::Book(recorded) => {
            page_of_record(alloc, ObjectName::Book.word(), goal, recorded)
        }
        ScriptRecord::Sticky(recorded) => {
            page_of_record(alloc, ObjectName::Sticky.word(), goal, recorded)
        }
    }
}

/// The page of all schedules of the calls of the script that a reader has, with the text of a goal, as the program
/// `goal` takes it. Any text is one; an empty one asks for nothing.
///
/// Errors, in this order: the first fault of the script, or `Read` where the reader failed; `Refused` where a
/// command of it is refused; `Eras` where it ends an era, or begins at another number than 1; `TooManyWorlds`; and
/// `Memory` at any place.
pub fn page_of<I: TextIn>(alloc: Global, goal: &[u8], reader: &mut I) -> Result<Vec<u8>, PlayFault>
    requires { I.has_failed reader.old ≡ false }
    ensures page { IfOk result (λ text. IsPlayed goal.now (I.remaining reader.old) text.items) }
    ensures fault { (e : Fault) → IsErrOf result (PlayFault.Script e) → IsFaultOfScript e
        → HasFault (scripts_of 1048576) (I.remaining reader.old) e }
{
    let run = run_of_script(alloc, reader, &Options::default())?;
    page_of_run(alloc, goal, &run)
}
