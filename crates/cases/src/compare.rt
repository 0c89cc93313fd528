//! What a run of a program writes, beside what it should.

ghost use Rattle.std.specs.Prelude.{◌≡◌, ◌≢◌, ◌≤◌, ◌↔◌, ℕ, List, [], true, false, Some, IfOk};
ghost use Rattle.std.specs.Prelude.{map};
ghost use Rattle.uni_script.specs.declared.options.Options.{Options};
ghost use Rattle.unibench_run.specs.CommandLine.{AsksFor};
ghost use Rattle.unibench_run.specs.Runs.{IsRunOf};
ghost use Rattle.unibench_run.specs.Statuses.{Tells};
ghost use Rattle.unidraw_run.specs.Drawn.{form_of_words, IsDrawn};
ghost use Rattle.cases.specs.Comparing.{AsksForReplayOf, IsAnsweredBy};

use script_advice::KeepsText;
use std::alloc::Global;
use std::convert::AsStr;
use std::sync::Wait;
use std::thread::Threads;
use uni_script::{Checked, TextOut};
use unibench_run::{Request, Watch};
use unidraw_run::Form;

/// What a run is to write, and how it is to end.
#[derive(Drop)]
pub struct Wanted {
    /// What is to be written.
    pub answers: Vec<u8>,
    /// What is to be told on the third stream.
    pub fault: Vec<u8>,
    /// The status.
    pub status: u8,
}

/// Whether a run that ended with this status wrote this output, and told this of a fault, as it should.
///
/// An `Err` is a status above 2: memory was refused, an end failed, or threads didn't agree.
fn is_wanted(status: u8, output: &[u8], told: &[u8], wanted: &Wanted) -> Result<bool, u8>
    ensures few { IfOk result (λ _. status ≤ 2) }
    ensures same { IfOk result (λ same. same ≡ true
        ↔ (status ≡ wanted.now.status) × (output.now ≡ wanted.now.answers.items)
        × (told.now ≡ wanted.now.fault.items)) }
{
    if status > 2 {
        return Err(status);
    }
    Ok(
        status == wanted.status
            && output == wanted.answers.as_slice()
            && told == wanted.fault.as_slice(),
    )
}

/// Whether `unibench`, over these words and what a reader has, writes and tells what it should, and ends so.
///
/// An `Err` is a status above 2: memory was refused, an end failed, or threads didn't agree.
pub fn is_run<R: Threads + Wait + Watch + Sync, S: AsStr, I: KeepsText>(
    rt: &R,
    alloc: Global,
    words: &[S],
    input: &mut I,
    wanted: &Wanted,
) -> Result<bool, u8>
    requires { I.has_failed input.old ≡ false }
    ensures run { (r : Request) → AsksFor (map S.text words.now) r → IfOk result (λ same. same ≡ true
        → IsRunOf r (I.remaining input.old) (I.remaining input.new) (Some [])
        (Some wanted.now.answers.items) false wanted.now.status) }
    ensures told { (r : Request) → AsksFor (map S.text words.now) r → wanted.now.status ≢ 0
        → IfOk result (λ same. same ≡ true
        → Tells r (Some []) (Some wanted.now.fault.items) false wanted.now.status) }
    ensures good { (options : Options) (script : List ℕ)
        → AsksForReplayOf (map S.text words.now) options (I.remaining input.old) script
        → wanted.now.status ≡ 0 → wanted.now.fault.items ≡ []
        → IfOk result (λ same. same ≡ true ↔ IsAnsweredBy options script wanted.now.answers.items) }
{
    let mut output = Checked::new(Vec::new(alloc));
    let mut told = Checked::new(Vec::new(alloc));
    let status = unibench_run::run(rt, alloc, words, input, &mut output, &mut told);
    if told.failed() {
        return Err(3);
    }
    is_wanted(
        status,
        output.end().as_slice(),
        told.end().as_slice(),
        wanted,
    )
}

/// Whether `unidraw`, over these words and what a reader has, writes and tells what it should, and ends so.
///
/// An `Err` is a status above 2: memory was refused, or an end failed.
pub fn is_drawn<S: AsStr, I: KeepsText>(
    alloc: Global,
    words: &[S],
    input: &mut I,
    wanted: &Wanted,
) -> Result<bool, u8>
    requires { I.has_failed input.old ≡ false }
    ensures drawn { (form : Form) → form_of_words (map S.text words.now) ≡ Some form
        → IfOk result (λ same. same ≡ true
        → IsDrawn form (I.remaining input.old) (Some []) (Some wanted.now.answers.items) wanted.now.status) }
{
    let mut picture = Checked::new(Vec::new(alloc));
    let mut told = Checked::new(Vec::new(alloc));
    let status = unidraw_run::run(alloc, words, input, &mut picture, &mut told);
    is_wanted(
        status,
        picture.end().as_slice(),
        told.end().as_slice(),
        wanted,
    )
}
