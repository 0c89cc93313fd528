//! Threads that make calls on one object.

ghost use Rattle.std.specs.Prelude.{◌↔◌, ◌≡◌, ◌≢◌, ◌++◌, ◌*◌, ◌<◌, ◌≤◌, ◌^◌};
ghost use Rattle.std.specs.Prelude.{ℕ, List, [], ◌∷◌, All, IfOk, IsErrOf, IsOk, Ok, OnOk, Some, length, map};
ghost use Rattle.std.specs.Prelude.{slice_get, vec_len, ⊤};
ghost use Rattle.std.specs.List.{range_with_len};
ghost use Rattle.uni_words.specs.Belongs.{object_of, processes_of, row_of};
ghost use Rattle.uni_words.specs.Compare.{Agrees, IsFirstFault};
ghost use Rattle.uni_words.specs.Log.{entry_shown};
ghost use Rattle.unibench_run.specs.Draws.{below_1000, call_in, seed_of};
ghost use Rattle.unibench_run.specs.Statuses.{status_of_threads};
ghost use Rattle.unibench_run.specs.Threads.{AreDone, AreTold, HasMadeWords, IsCounted, IsDone};
ghost use Rattle.unibench_run.specs.Threads.{are_too_many, events_of, has_form};
ghost use Rattle.unibench_run.specs.Threads.{IsRunOfThreads, IsThreadsPlan};
ghost use Rattle.unibench_run.specs.Threads.{agrees_line, line_of_fault, refusal_of, text_of_fault, told_to};
ghost use Rattle.unibench_run.specs.declared.threads.Done.{Done};
ghost use Rattle.unibench_run.specs.declared.threads.Job.{Job};

use crate::any::run_any;
use crate::lock::{MOST_EVENTS, events_of, run_under_lock};
use crate::request::{Form, Plan, ThreadsObject};
use crate::small::{MOST_KEPT_CALLS, run_named};
use crate::watch::Watch;
use rand_core::SeedableRng;
use rand_xoshiro::Xoshiro256PlusPlus;
use ready_objects::{BookObject, DirectoryObject, QueueObject, StickyObject};
use seq_object::CallId;
use std::alloc::{AllocError, Global};
use std::io::Write;
use std::sync::Wait;
use std::thread::Threads;
use std::{fmt, thread};
use uni_model::MAX_ROW;
use uni_record::Verdict;
use uni_script::{BenchFault, Drawn};
use uni_words::{
    WordEntry, WordLog, WordObject, WordSeat, WordSticky, WordTally, differs, read_log,
};

/// Why a run of threads ended early.
#[derive(Clone, Copy, Debug, PartialEq, Eq)]
pub enum ThreadsFault {
    /// The form has no such object.
    NoSuchObject,
    /// Under a lock, the events of all calls may not fit into a history.
    CallsTooMany,
    /// Memory was refused.
    Memory,
    /// The output failed.
    Write,
    /// What the threads were told isn't what the log has, at this call first; or it is the first call, by
    /// process, that a thread under a lock was to make and hasn't made.
    Differs(CallId),
    /// The calls of an object of several words that are made again don't lead to its last state.
    LastState,
    /// Under a lock, the seat of this process, the least of such, isn't there once.
    SeatMissing(u64),
    /// Under a lock, this process, the least of such, has a call pending.
    SeatPending(u64),
    /// Under a lock, the record isn't of as many processes as it was opened for. It never comes.
    OtherRecord,
    /// Under a lock, an audit of the entries and of the returns found this. It never does.
    Audit(Verdict),
}

impl From<AllocError> for ThreadsFault {
    ghost use Rattle.std.specs.Prelude.{◌≡◌};
    ghost use Rattle.unibench_run.specs.declared.threads.ThreadsFault.TheVariants.{Memory};

    ghost from_gives = { λ _ fault. fault ≡ Memory };

    fn from(_: AllocError) -> ThreadsFault {
        ThreadsFault::Memory
    }
}

impl fmt::Display for ThreadsFault {
    ghost output = { λ fault. Some (text_of_fault fault) };

    fn fmt<W: fmt::Write>(&self, f: &mut fmt::Formatter<W>) -> fmt::Result {
        match self {
            ThreadsFault::NoSuchObject => write!(
                f,
                "no such object in this form\n\
lock and any have queue, directory, book and sticky; words sticky and tally; small all but directory and tally"
            ),
            ThreadsFault::CallsTooMany => write!(f, "calls too many"),
            ThreadsFault::Memory => write!(f, "out of memory"),
            ThreadsFault::Write => write!(f, "cannot write"),
            ThreadsFault::Differs(call) => write!(f, "close: call {call} differs"),
            ThreadsFault::LastState => write!(f, "close: the last state differs"),
            ThreadsFault::SeatMissing(p) => write!(f, "close: seat {p} missing"),
            ThreadsFault::SeatPending(p) => write!(f, "close: seat {p} pending"),
            ThreadsFault::OtherRecord => write!(f, "close: another record"),
            ThreadsFault::Audit(verdict) => write!(f, "{}", BenchFault::Audit(*verdict)),
        }
    }
}

/// A seat that has made no call, with the seed of the words that its thread draws.
#[derive(Drop)]
pub(crate) struct Job<S: Drop> {
    pub(crate) seat: S,
    pub(crate) seed: u64,
}

/// The jobs of the seats, in order: the first draws from the seed, each further one from the next.
///
/// An `Err` says that memory was refused.
pub(crate) fn jobs_of<S: Drop>(
    alloc: Global,
    seats: Vec<S>,
    seed: u64,
) -> Result<Vec<Job<S>>, AllocError>
    ensures seats { IfOk result (λ jobs. map (λ job. job.seat) jobs.items ≡ seats.items) }
    ensures seeds { IfOk result (λ jobs. map (λ job. job.seed) jobs.items
        ≡ map (seed_of seed) (range_with_len 0 (length jobs.items))) }
{
    let mut jobs = Vec::new(alloc);
    for seat in seats {
        let process = jobs.len() as u64;
        jobs.push(Job {
            seat,
            seed: seed.wrapping_add(process),
        })?;
    }
    Ok(jobs)
}

/// What jobs came to, in order.
///
/// An `Err` says that memory was refused, to a thread or here.
pub(crate) fn all_done<T: Drop>(
    alloc: Global,
    done: Vec<Result<T, AllocError>>,
) -> Result<Vec<T>, AllocError>
    ensures { IfOk result (λ all. done.items ≡ map Ok all.items) }
{
    let mut all = Vec::new(alloc);
    for one in done {
        let one = one?;
        all.push(one)?;
    }
    Ok(all)
}

/// A seat whose calls are made, with what its thread was told: each call with its reply.
#[derive(Drop)]
pub(crate) struct Done<S: Drop, A: Drop> {
    pub(crate) seat: S,
    pub(crate) told: Vec<A>,
}

/// An object on which threads make calls, each by a seat of its own.
pub(crate) trait Seated: Drop {
    /// A seat.
    type Seat: Drop;

    /// A call.
    type Call;

    /// A call, with what was told of it.
    type Told: Drop;

    /// What a thread keeps beside its seat, for all its calls.
    type Room: Drop;

    /// Each seat can make so many calls.
    ghost is_fit: { Self → (calls : ℕ) → Type 0 };

    /// The room is wide enough for a call and its reply.
    ghost is_room: { Self → Self.Room → Type 0 };

    /// The seat is that of a process, and has made these calls alone, each of which was told this.
    ghost has_made: { Self → (process : ℕ) → List Self.Told → Self.Seat → Type 0 };

    /// The call of it.
    ghost call_in: { Self.Told → Self.Call };

    /// The call that a word stands for.
    ghost call_of_word: { ℕ → Self.Call };

    /// Such a room. An `Err` says that memory was refused.
    fn room(&self, alloc: Global) -> Result<Self::Room, AllocError>
        requires { (calls : ℕ) × is_fit self.now calls }
        ensures { IfOk result (is_room self.now) };

    /// Makes the call that a word stands for: the call, and what is told of it. An `Err` says that memory was refused.
    fn make_call(
        &self,
        alloc: Global,
        seat: &mut Self::Seat,
        room: &mut Self::Room,
        word: u64,
    ) -> Result<Self::Told, AllocError>
        requires room { is_room self.now room.old }
        requires more { (process : ℕ) × (calls : ℕ) × (told : List Self.Told) × is_fit self.now calls
            × has_made self.now process told seat.old × (length told < calls) }
        ensures room { OnOk result (is_room self.now room.new) }
        ensures drawn { IfOk result (λ call. call_in call ≡ call_of_word word) }
        ensures made { IfOk result (λ call. (process : ℕ) (told : List Self.Told)
            → has_made self.now process told seat.old → has_made self.now process (told ++ call ∷ []) seat.new) };
}

/// Makes so many calls by a seat, those that the words of its seed stand for, one word a call.
///
/// An `Err` says that memory was refused.
fn make_calls<W: Watch, C: Seated>(
    watch: &W,
    alloc: Global,
    shared: &C,
    job: Job<C::Seat>,
    calls: u64,
) -> Result<Done<C::Seat, C::Told>, AllocError>
    requires fit { C.is_fit shared.now calls }
    requires fresh { (process : ℕ) × C.has_made shared.now process [] job.seat }
    ensures { (process : ℕ) → C.has_made shared.now process [] job.seat
        → IfOk result (IsDone (C.has_made shared.now) C.call_in C.call_of_word calls job.seed process) }
{
    let Job { mut seat, seed } = job;
    let mut room = shared.room(alloc)?;
    let mut words = Xoshiro256PlusPlus::seed_from_u64(seed);
    let mut told = Vec::with_capacity(alloc, calls as usize)?;
    for _ in 0..calls {
        let call = shared.make_call(alloc, &mut seat, &mut room, words.draw())?;
        told.push(call)?;
        watch.made();
    }
    Ok(Done { seat, told })
}

/// Makes the calls of a plan on an object, each seat's in a thread of its own where one can be made: what came of
/// each, in order. The first seat's calls are drawn from the seed of the plan, each further one's from the next.
///
/// An `Err` says that memory was refused, to a thread or here.
pub(crate) fn make_all_calls<R: Threads + Watch + Sync, C: Seated + Sync>(
    rt: &R,
    alloc: Global,
    shared: &C,
    seats: Vec<C::Seat>,
    plan: &Plan,
) -> Result<Vec<Done<C::Seat, C::Told>>, AllocError>
where
    C::Seat: Send,
    C::Told: Send,
    C::Room: Send,
    requires fit { C.is_fit shared.now plan.now.calls }
    requires many { length seats.items ≡ plan.now.processes }
    requires fresh { (p : ℕ) (seat : _) → slice_get seats.items p ≡ Some seat → C.has_made shared.now p [] seat }
    ensures { IfOk result (λ done. AreDone (C.has_made shared.now) C.call_in C.call_of_word plan.now.processes
        plan.now.calls plan.now.seed done.items) }
{
    let jobs = jobs_of(alloc, seats, plan.seed)?;
    let calls = plan.calls;
    let done = thread::map_vec(
        rt,
        jobs,
        &|job: Job<C::Seat>| -> Result<Done<C::Seat, C::Told>, AllocError>
            requires fit { C.is_fit shared.now calls }
            requires fresh { (p : ℕ) × C.has_made shared.now p [] job.seat }
            ensures { (p : ℕ) → C.has_made shared.entry.now p [] job.seat
                → IfOk result (IsDone (C.has_made shared.entry.now) C.call_in C.call_of_word calls job.seed p) }
        { make_calls(rt, alloc, shared, job, calls) },
    )?;
    all_done(alloc, done)
}

/// An invocation is below 1000.
impl<O: WordObject> Seated for WordLog<O> {
    type Seat = WordSeat;

    type Call = u64;

    type Told = (u64, u32);

    type Room = ();

    ghost is_fit = { λ log calls. calls ≡ row_of log };

    ghost is_room = { λ log room. ⊤ };

    ghost has_made = { HasMadeWords };

    ghost call_in = { call_in };

    ghost call_of_word = { below_1000 };

    fn room(&self, _alloc: Global) -> Result<(), AllocError> {
        Ok(())
    }

    fn make_call(
        &self,
        _alloc: Global,
        seat: &mut WordSeat,
        _room: &mut (),
        word: u64,
    ) -> Result<(u64, u32), AllocError> {
        let inv = word % 1000;
        let Ok(answer) = seat.apply(self, inv) else {
            unreachable!()
        };
        Ok((inv, answer.reply))
    }
}

/// The seats, and what their threads were told, in order.
///
/// An `Err` says that memory was refused.
pub(crate) fn parted<S: Drop, A: Drop>(
    alloc: Global,
    done: Vec<Done<S, A>>,
) -> Result<(Vec<S>, Vec<Vec<A>>), AllocError>
    ensures seats { IfOk result (λ parts. parts.0.items ≡ map (λ one. one.seat) done.items) }
    ensures told { IfOk result (λ parts. parts.1.items ≡ map (λ one. one.told) done.items) }
{
    let mut seats = Vec::new(alloc);
    let mut lists = Vec::new(alloc);
    for one in done {
        let Done { seat, told } = one;
        seats.push(seat)?;
        lists.push(told)?;
    }
    Ok((seats, lists))
}

/// How many replies there are in all lists.
fn replies_in(lists: &[Vec<(u64, u32)>]) -> u64
    requires few { length lists.now ≤ 64 }
    requires short { All (λ told. vec_len told ≤ 4096) lists.now }
    ensures { (each : ℕ) → All (λ told. vec_len told ≡ each) lists.now → result ≡ length lists.now * each }
{
    let mut replies = 0;
    for told in lists {
        replies += told.len() as u64;
    }
    replies
}

/// How many replies there are in all lists, each of which has so many, where a log agrees with them.
///
/// An `Err` is the first call in which they differ.
fn count_agreed<O: WordObject>(
    object: &O,
    entries: &[WordEntry],
    lists: &[Vec<(u64, u32)>],
    calls: u64,
) -> Result<u64, ThreadsFault>
    requires few { (length lists.now ≤ 64) × (calls ≤ 4096) }
    requires whole { All (λ told. vec_len told ≡ calls) lists.now }
    ensures replies { IfOk result (λ replies. replies ≡ length lists.now * calls) }
    ensures agrees { IsOk result ↔ Agrees (O.sequential object.now) (map entry_shown entries.now)
        (map (λ told. told.items) lists.now) }
    ensures differs { (fault : ThreadsFault) → IsErrOf result fault → (call : CallId)
        × (fault ≡ ThreadsFault.Differs call)
        × IsFirstFault (O.sequential object.now) (map entry_shown entries.now)
        (map (λ told. told.items) lists.now) call }
{
    match differs(object, entries, lists) {
        Some(call) => Err(ThreadsFault::Differs(call)),
        None => Ok(replies_in(lists)),
    }
}

/// What the threads of a run over words were told, by process, and how many replies that is.
#[derive(Drop)]
struct Agreed {
    replies: u64,
    lists: Vec<Vec<(u64, u32)>>,
}

/// Closes a log with the seats of all its processes, which have made the calls of a plan, and compares it
/// with what the threads were told: the lists of these, and how many replies that is. They agree.
fn close_words<O: WordObject>(
    alloc: Global,
    object: &O,
    log: WordLog<O>,
    done: Vec<Done<WordSeat, (u64, u32)>>,
    plan: &Plan,
) -> Result<Agreed, ThreadsFault>
    requires object { object.now ≡ object_of log }
    requires processes { processes_of log ≡ plan.now.processes }
    requires done { AreDone (HasMadeWords log) call_in below_1000 plan.now.processes plan.now.calls plan.now.seed
        done.items }
    requires few { (plan.now.processes ≤ 64) × (1 ≤ plan.now.processes) × (plan.now.calls ≤ 4096) }
    ensures replies { IfOk result (λ agreed. agreed.replies ≡ plan.now.processes * plan.now.calls) }
    ensures told { IfOk result (λ agreed.
        AreTold (O.sequential object.now) plan.now.processes plan.now.calls plan.now.seed
        (map (λ own. own.items) agreed.lists.items)) }
    ensures faults { (fault : ThreadsFault) → IsErrOf result fault → fault ≡ ThreadsFault.Memory }
{
    let (seats, lists) = parted(alloc, done)?;
    let words = log.close_all(seats);
    let entries = read_log(alloc, &words)?;
    let replies = count_agreed(object, &entries, &lists, plan.calls)?;
    Ok(Agreed { replies, lists })
}

/// Makes the calls of a plan on an object of words, each seat's in a thread of its own where one can
/// be made. The log agrees with what the threads were told, which is the result: the lists that they gave
/// back when they were joined, by process.
fn run_on_words<R: Threads + Watch + Sync, O: WordObject + Copy + Sync>(
    rt: &R,
    alloc: Global,
    object: O,
    plan: &Plan,
) -> Result<Agreed, ThreadsFault>
    requires row { plan.now.calls ≤ 4096 }
    ensures replies { IfOk result (λ agreed. agreed.replies ≡ plan.now.processes * plan.now.calls) }
    ensures told { IfOk result (λ agreed.
        AreTold (O.sequential object) plan.now.processes plan.now.calls plan.now.seed
        (map (λ own. own.items) agreed.lists.items)) }
    ensures faults { (fault : ThreadsFault) → IsErrOf result fault → fault ≡ ThreadsFault.Memory }
{
    let Ok((log, seats)) = WordLog::open(alloc, object, plan.processes, plan.calls) else {
        return Err(ThreadsFault::Memory);
    };
    let done = make_all_calls(rt, alloc, &log, seats, plan)?;
    close_words(alloc, &object, log, done, plan)
}

/// Whether there is an object in a form.
fn has_form(form: Form, object: ThreadsObject) -> bool
    ensures { result ≡ has_form form object }
{
    match form {
        Form::Words => matches!(object, ThreadsObject::Sticky | ThreadsObject::Tally),
        Form::Lock | Form::Any => matches!(
            object,
            ThreadsObject::Queue
                | ThreadsObject::Directory
                | ThreadsObject::Book
                | ThreadsObject::Sticky
        ),
        Form::Small => matches!(
            object,
            ThreadsObject::Counter
                | ThreadsObject::Counters
                | ThreadsObject::Register
                | ThreadsObject::Stack
                | ThreadsObject::Map
                | ThreadsObject::Queue
                | ThreadsObject::Book
                | ThreadsObject::Sticky
        ),
    }
}

/// Whether the calls of a plan are too many for its form.
fn are_too_many(plan: &Plan) -> bool
    requires { IsThreadsPlan plan.now }
    ensures { result ≡ are_too_many plan.now.form plan.now.calls (events_of plan.now)
        (plan.now.processes * plan.now.calls) }
{
    match plan.form {
        Form::Words => plan.calls > MAX_ROW,
        Form::Lock => plan.calls > MAX_ROW || events_of(plan) > MOST_EVENTS,
        Form::Small | Form::Any => plan.processes * plan.calls > MOST_KEPT_CALLS,
    }
}

/// What a plan is refused for before anything is opened.
fn refusal_of(plan: &Plan) -> Option<ThreadsFault>
    requires { IsThreadsPlan plan.now }
    ensures { result ≡ refusal_of plan.now }
{
    if !has_form(plan.form, plan.object) {
        Some(ThreadsFault::NoSuchObject)
    } else if are_too_many(plan) {
        Some(ThreadsFault::CallsTooMany)
    } else {
        None
    }
}

/// Makes the calls of a plan: how many replies the threads were given.
pub fn run_plan<R: Threads + Wait + Watch + Sync>(
    rt: &R,
    alloc: Global,
    plan: &Plan,
) -> Result<u64, ThreadsFault>
    requires { IsThreadsPlan plan.now }
    ensures replies { IfOk result (IsCounted plan.now) }
    ensures there { IsErrOf result ThreadsFault.NoSuchObject
        ↔ (refusal_of plan.now ≡ Some ThreadsFault.NoSuchObject) }
    ensures few { IsErrOf result ThreadsFault.CallsTooMany
        ↔ (refusal_of plan.now ≡ Some ThreadsFault.CallsTooMany) }
    ensures written { IsErrOf result ThreadsFault.Write → ⊥ }
    ensures audited { (verdict : Verdict) → IsErrOf result (ThreadsFault.Audit verdict) → ⊥ }
    ensures closing { (fault : ThreadsFault) → IsErrOf result fault →
        status_of_threads fault ≡ 5 → plan.now.form ≢ Form.Words }
{
    if let Some(fault) = refusal_of(plan) {
        return Err(fault);
    }
    rt.begins(plan.processes * plan.calls);
    match (plan.form, plan.object) {
        (Form::Words, ThreadsObject::Sticky) => {
            Ok(run_on_words(rt, alloc, WordSticky, plan)?.replies)
        }
        (Form::Words, ThreadsObject::Tally) => {
            Ok(run_on_words(rt, alloc, WordTally, plan)?.replies)
        }
        (Form::Lock, ThreadsObject::Queue) => run_under_lock(rt, alloc, QueueObject, plan),
        (Form::Lock, ThreadsObject::Directory) => run_under_lock(rt, alloc, DirectoryObject, plan),
        (Form::Lock, ThreadsObject::Book) => run_under_lock(rt, alloc, BookObject, plan),
        (Form::Lock, ThreadsObject::Sticky) => run_under_lock(rt, alloc, StickyObject, plan),
        (Form::Small, _) => run_named(rt, alloc, plan),
        (Form::Any, _) => run_any(rt, alloc, plan),
        (Form::Words | Form::Lock, _) => unreachable!(),
    }
}

/// Writes the line of threads that agree after a text.
///
/// An `Err` says that memory was refused.
pub fn push_agrees(text: &mut Vec<u8>, threads: u64, replies: u64) -> Result<(), AllocError>
    ensures { OnOk result (text.new.items ≡ text.old.items ++ agrees_line threads replies) }
{
    writeln!(text, "threads {threads} calls {replies} agrees").map_err(|_| AllocError)
}

/// Writes the text of a fault of threads and the end of its line after a text.
///
/// An `Err` says that memory was refused.
pub fn push_threads_fault(text: &mut Vec<u8>, fault: ThreadsFault) -> Result<(), AllocError>
    ensures { OnOk result (text.new.items ≡ text.old.items ++ line_of_fault fault) }
{
    writeln!(text, "{fault}").map_err(|_| AllocError)
}
