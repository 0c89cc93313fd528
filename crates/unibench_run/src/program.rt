//! The program over its ends, and its statuses.

ghost use Rattle.std.specs.Prelude.{◌≡◌, ◌≢◌, ◌≤◌, ◌⊎◌, ◌↔◌, true, false, None, Some};
ghost use Rattle.std.specs.Prelude.{IsErrOf, OnOk, OnErr, map};
ghost use Rattle.std.specs.Io.KnownBytes.{Appends};
ghost use Rattle.uni_script.specs.Ends.{AppendsPrefix};
ghost use Rattle.uni_record.specs.Refusals.{IsHistoryLimit};
ghost use Rattle.unibench_run.specs.CommandLine.{AsksFor, AsksForReplay, IsRefused};
ghost use Rattle.uni_script.specs.Schedules.{IsPlan};
ghost use Rattle.unibench_run.specs.Runs.{IsInRange, IsRandomRun, IsReplayRun, IsRunOf, IsStatusOfEnds, IsThreadsRun};
ghost use Rattle.uni_script.specs.Statuses.{TellsFault};
ghost use Rattle.script_advice.specs.Told.{TellsMore};
ghost use Rattle.unibench_run.specs.Statuses.{IsStatusFor, IsStatusOfThreads, Tells, TellsThreadsFault};
ghost use Rattle.unibench_run.specs.Statuses.{status_of_threads};
ghost use Rattle.unibench_run.specs.Threads.{IsThreadsPlan, OfAgreed, refusal_of};

use crate::hints::{fault_of_names, tip_for};
use crate::language::write_language;
use crate::request::{Form, Plan, RandomPlan, Request, read_words};
use crate::threads::{ThreadsFault, push_agrees, push_threads_fault, run_plan};
use crate::watch::Watch;
use command_line::answer_words;
use rand_core::SeedableRng;
use rand_xoshiro::Xoshiro256PlusPlus;
use script_advice::{KeepsText, report_explained};
use std::alloc::{AllocError, Global};
use std::convert::AsStr;
use std::sync::Wait;
use std::thread::Threads;
use uni_script::{
    Failed, Options, TextIn, TextOut, bench, report_fault, schedule, tell, write_all,
};

/// Runs the program over its argument texts, the program's name first; the answer is the status
/// that it ends with. The runtime is told how far threads are.
///
/// The status is 0 where all went well, also for the help or the version, which go to `output`.
/// It is 2 for a bad script, a bad command line, an object that isn't there in a form of threads or
/// calls that are too many for it, 3 where `input` or `output` failed, 4 where memory was refused,
/// and 5 where threads and their record or their object don't agree; the text that says so goes to
/// `faults`, as far as that takes it.
pub fn run<R: Threads + Wait + Watch + Sync, S: AsStr, I: KeepsText, O: TextOut, F: TextOut>(
    rt: &R,
    alloc: Global,
    words: &[S],
    input: &mut I,
    output: &mut O,
    faults: &mut F,
) -> u8
    requires input { I.has_failed input.old ≡ false }
    requires output { O.has_failed output.old ≡ false }
    requires faults { F.has_failed faults.old ≡ false }
    ensures statuses { IsStatusFor (map S.text words.now) result }
    ensures ends { IsStatusOfEnds (I.has_failed input.new) (O.has_failed output.new) result }
    ensures asked { (r : Request) → AsksFor (map S.text words.now) r
        → IsRunOf r (I.remaining input.old) (I.remaining input.new) (O.contents output.old) (O.contents output.new)
        (O.has_failed output.new) result }
    ensures silent { (r : Request) → AsksFor (map S.text words.now) r → result ≡ 0 → faults.new ≡ faults.old }
    ensures told { (r : Request) → AsksFor (map S.text words.now) r → result ≢ 0
        → Tells r (F.contents faults.old) (F.contents faults.new) (F.has_failed faults.new) result }
    ensures unread { ¬ (AsksForReplay (map S.text words.now)) → input.new ≡ input.old }
    ensures refused { IsRefused (map S.text words.now)
        → ((result ≡ 2) ⊎ (result ≡ 4)) × (output.new ≡ output.old) }
{
    match read_words(alloc, words) {
        Ok(Some(request)) => run_request(rt, alloc, request, input, output, faults),
        Ok(None) => refuse_name(alloc, words, output, faults),
        Err(error) => answer_words(alloc, &error, tip_for(&error, words), output, faults),
    }
}

/// Does what is asked for; the answer is the status.
fn run_request<R: Threads + Wait + Watch + Sync, I: KeepsText, O: TextOut, F: TextOut>(
    rt: &R,
    alloc: Global,
    request: Request,
    input: &mut I,
    output: &mut O,
    faults: &mut F,
) -> u8
    requires request { IsInRange request }
    requires input { I.has_failed input.old ≡ false }
    requires output { O.has_failed output.old ≡ false }
    ensures statuses { (result ≤ 5) × (result ≢ 1) }
    ensures closing { result ≡ 5 → (plan : Plan) × (request ≡ Request.Threads plan) × (plan.form ≢ Form.Words) }
    ensures ends { IsStatusOfEnds (I.has_failed input.new) (O.has_failed output.new) result }
    ensures run { IsRunOf request (I.remaining input.old) (I.remaining input.new) (O.contents output.old)
        (O.contents output.new) (O.has_failed output.new) result }
    ensures silent { result ≡ 0 → faults.new ≡ faults.old }
    ensures told { result ≢ 0 → Tells request (F.contents faults.old) (F.contents faults.new)
        (F.has_failed faults.new) result }
    ensures unread { ((options : Options) → (request ≢ Request.Replay options) × (request ≢ Request.Explained options))
        → input.new ≡ input.old }
{
    match request {
        Request::Replay(options) => replay(alloc, &options, input, output, faults),
        Request::Explained(options) => replay_explained(alloc, &options, input, output, faults),
        Request::Random(plan) => random(alloc, &plan, output, faults),
        Request::Threads(plan) => threads(rt, alloc, &plan, output, faults),
        Request::Language(object) => write_language(alloc, object, output, faults),
    }
}

/// Runs the threads of a plan, and writes to `output` that they agree; the answer is the status.
///
/// The status is 0 where all went well, 2 where the object isn't there in the form or the calls are
/// too many for it, 3 where `output` failed, 4 where memory was refused, and 5 where what the threads
/// were told isn't what the record under a lock or the object of several words has; the text that
/// says so goes to `faults`, as far as that takes it. Over words it is never 5.
fn threads<R: Threads + Wait + Watch + Sync, O: TextOut, F: TextOut>(
    rt: &R,
    alloc: Global,
    plan: &Plan,
    output: &mut O,
    faults: &mut F,
) -> u8
    requires plan { IsThreadsPlan plan.now }
    requires output { O.has_failed output.old ≡ false }
    ensures run { IsThreadsRun plan.now (O.contents output.old) (O.contents output.new)
        (O.has_failed output.new) result }
    ensures silent { result ≡ 0 → faults.new ≡ faults.old }
    ensures told { result ≢ 0 → TellsThreadsFault (refusal_of plan.now) (F.contents faults.old)
        (F.contents faults.new) (F.has_failed faults.new) result }
{
    match write_agreed(rt, alloc, plan, output) {
        Ok(()) => 0,
        Err(fault) => report_threads(alloc, fault, faults),
    }
}

/// Runs the threads of a plan, and writes to `output` that they agree.
fn write_agreed<R: Threads + Wait + Watch + Sync, O: TextOut>(
    rt: &R,
    alloc: Global,
    plan: &Plan,
    output: &mut O,
) -> Result<(), ThreadsFault>
    requires plan { IsThreadsPlan plan.now }
    requires output { O.has_failed output.old ≡ false }
    ensures there { IsErrOf result ThreadsFault.NoSuchObject
        ↔ (refusal_of plan.now ≡ Some ThreadsFault.NoSuchObject) }
    ensures few { IsErrOf result ThreadsFault.CallsTooMany
        ↔ (refusal_of plan.now ≡ Some ThreadsFault.CallsTooMany) }
    ensures ok { OnOk result ((O.has_failed output.new ≡ false)
        × OfAgreed plan.now (Appends (O.contents output.old) (O.contents output.new))) }
    ensures failed { IsErrOf result ThreadsFault.Write ↔ (O.has_failed output.new ≡ true) }
    ensures prefix { IsErrOf result ThreadsFault.Write
        → OfAgreed plan.now (AppendsPrefix (O.contents output.old) (O.contents output.new)) }
    ensures kept { OnErr result (O.has_failed output.new ≡ false → output.new ≡ output.old) }
    ensures closing { (fault : ThreadsFault) → IsErrOf result fault →
        status_of_threads fault ≡ 5 → plan.now.form ≢ Form.Words }
{
    let replies = run_plan(rt, alloc, plan)?;
    let mut line = Vec::new(alloc);
    push_agrees(&mut line, plan.processes, replies)?;
    match write_all(output, line.as_slice()) {
        Ok(()) => Ok(()),
        Err(Failed) => Err(ThreadsFault::Write),
    }
}

/// Says what went wrong with threads, as far as the end takes it; the answer is the status. Where the
/// text of a closing's fault is refused memory, that is what is told, with its status.
fn report_threads<F: TextOut>(alloc: Global, fault: ThreadsFault, faults: &mut F) -> u8
    ensures status { IsStatusOfThreads fault result }
    ensures told { TellsThreadsFault (Some fault) (F.contents faults.old) (F.contents faults.new)
        (F.has_failed faults.new) result }
{
    match fault {
        ThreadsFault::NoSuchObject => {
            tell(
                faults,
                b"no such object in this form\n\
lock and any have queue, directory, book and sticky; words sticky and tally; small all but directory and tally\n",
            );
            2
        }
        ThreadsFault::CallsTooMany => {
            tell(faults, b"calls too many\n");
            2
        }
        ThreadsFault::Write => {
            tell(faults, b"cannot write\n");
            3
        }
        ThreadsFault::Memory => {
            tell(faults, b"out of memory\n");
            4
        }
        ThreadsFault::Differs(_)
        | ThreadsFault::LastState
        | ThreadsFault::SeatMissing(_)
        | ThreadsFault::SeatPending(_)
        | ThreadsFault::OtherRecord
        | ThreadsFault::Audit(_) => report_closing(alloc, fault, faults),
    }
}

/// Runs the script on `input`, and writes its answers to `output`; the answer is the status.
///
/// The status is 0 where all went well, 2 for a bad script, 3 where `input` or `output` failed, and
/// 4 where memory was refused; the text that says so goes to `faults`, as far as that takes it. No
/// audit finds a fault.
fn replay<I: TextIn, O: TextOut, F: TextOut>(
    alloc: Global,
    options: &Options,
    input: &mut I,
    output: &mut O,
    faults: &mut F,
) -> u8
    requires history { IsHistoryLimit options.now.history }
    requires input { I.has_failed input.old ≡ false }
    requires output { O.has_failed output.old ≡ false }
    ensures statuses { (result ≤ 4) × (result ≢ 1) }
    ensures run { IsReplayRun options.now (I.remaining input.old) (I.remaining input.new)
        (O.contents output.old) (O.contents output.new) (O.has_failed output.new) result }
    ensures ends { IsStatusOfEnds (I.has_failed input.new) (O.has_failed output.new) result }
    ensures silent { result ≡ 0 → faults.new ≡ faults.old }
    ensures told { result ≢ 0 → TellsFault (F.contents faults.old) (F.contents faults.new)
        (F.has_failed faults.new) result }
{
    match bench(alloc, input, output, options) {
        Ok(_) => 0,
        Err(fault) => report_fault(alloc, fault, faults),
    }
}

/// Runs the script on `input`, and writes its answers to `output`; where a line is bad, what goes to `faults` says
/// why. The answer is the status.
///
/// The status is 0 where all went well, 2 for a bad script, 3 where `input` or `output` failed, and
/// 4 where memory was refused; the text that says so goes to `faults`, as far as that takes it. No
/// audit finds a fault.
fn replay_explained<I: KeepsText, O: TextOut, F: TextOut>(
    alloc: Global,
    options: &Options,
    input: &mut I,
    output: &mut O,
    faults: &mut F,
) -> u8
    requires history { IsHistoryLimit options.now.history }
    requires input { I.has_failed input.old ≡ false }
    requires output { O.has_failed output.old ≡ false }
    ensures statuses { (result ≤ 4) × (result ≢ 1) }
    ensures run { IsReplayRun options.now (I.remaining input.old) (I.remaining input.new)
        (O.contents output.old) (O.contents output.new) (O.has_failed output.new) result }
    ensures ends { IsStatusOfEnds (I.has_failed input.new) (O.has_failed output.new) result }
    ensures silent { result ≡ 0 → faults.new ≡ faults.old }
    ensures told { result ≢ 0 → TellsMore (F.contents faults.old) (F.contents faults.new)
        (F.has_failed faults.new) result }
{
    input.keep(alloc);
    match bench(alloc, input, output, options) {
        Ok(_) => 0,
        Err(fault) => report_explained(alloc, fault, input.kept(), faults),
    }
}

/// Says which option has a value that it doesn't take, and which names there are, as far as `faults` takes it; the
/// answer is the status, 2, or 4 where memory was refused.
fn refuse_name<S: AsStr, O: TextOut, F: TextOut>(
    alloc: Global,
    words: &[S],
    output: &mut O,
    faults: &mut F,
) -> u8
    requires output { O.has_failed output.old ≡ false }
    ensures status { (result ≡ 2) ⊎ (result ≡ 4) }
    ensures kept { output.new ≡ output.old }
{
    match fault_of_names(alloc, words) {
        Some(error) => answer_words(alloc, &error, None, output, faults),
        None => {
            tell(faults, b"no such object or form\n");
            2
        }
    }
}

/// Writes the schedule that is drawn from the seed of a plan to `output`; the answer is the status.
///
/// The status is 0 where all went well, 3 where `output` failed, and 4 where memory was refused; the
/// text that says so goes to `faults`, as far as that takes it.
fn random<O: TextOut, F: TextOut>(
    alloc: Global,
    plan: &RandomPlan,
    output: &mut O,
    faults: &mut F,
) -> u8
    requires plan { IsPlan plan.now.schedule }
    requires output { O.has_failed output.old ≡ false }
    ensures run { IsRandomRun plan.now (O.contents output.old) (O.contents output.new)
        (O.has_failed output.new) result }
    ensures silent { result ≡ 0 → faults.new ≡ faults.old }
    ensures told { result ≢ 0 → TellsFault (F.contents faults.old) (F.contents faults.new)
        (F.has_failed faults.new) result }
{
    let mut words = Xoshiro256PlusPlus::seed_from_u64(plan.seed);
    match schedule(alloc, &mut words, output, &plan.schedule) {
        Ok(()) => 0,
        Err(fault) => report_fault(alloc, fault, faults),
    }
}

/// Says which fault a closing or its audit has, or that memory was refused to its text.
fn report_closing<F: TextOut>(alloc: Global, fault: ThreadsFault, faults: &mut F) -> u8
    requires { status_of_threads fault ≡ 5 }
    ensures status { (result ≡ 5) ⊎ (result ≡ 4) }
    ensures told { TellsThreadsFault (Some fault) (F.contents faults.old) (F.contents faults.new)
        (F.has_failed faults.new) result }
{
    let mut line = Vec::new(alloc);
    match push_threads_fault(&mut line, fault) {
        Ok(()) => {
            tell(faults, line.as_slice());
            5
        }
        Err(AllocError) => {
            tell(faults, b"out of memory\n");
            4
        }
    }
}
