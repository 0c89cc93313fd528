//! Opening a log.
ghost use Rattle.std.specs.Prelude.{◌≡◌, ◌≢◌, ◌↔◌, ◌⊎◌, ◌<◌, ◌≤◌, IfOk};
ghost use Rattle.std.specs.Prelude.{IsSome};
ghost use Rattle.std.specs.declared.option.Option.TheVariants.{None};
ghost use Rattle.word_objects.specs.Machine.{machine_fault};
ghost use Rattle.universal_c.specs.Calls.{HasOpened};
ghost use Rattle.universal_c.specs.Meaning.{tables_of};
ghost use Rattle.universal_c.specs.declared.object.Object.TheVariants.{Tally, Sticky, Register, Machine};

use crate::handle::Handle;
use crate::held::{Held, Opened};
use crate::object::Object;
use crate::status::{BAD_COUNT, BAD_ROW, BAD_TABLE, DONE, MEMORY};
use std::alloc::{AllocError, Global};
use std::sync::Arc;
use uni_model::{MAX_PROCESSES, MAX_ROW};
use uni_words::{WordLog, WordOpenFault};
use word_objects::{WordMachine, table_fault};

/// Puts what is held into a handle, and drops what the handle had.
pub(crate) fn put(alloc: Global, out: &mut Handle, held: Held) -> u32
    ensures status { (result ≡ 0) ⊎ (result ≡ 3) }
    ensures done { result ≡ 0 → out.new.value ≡ Some held }
    ensures same { result ≢ 0 → out.new ≡ out.old }
{
    match Box::new(alloc, held) {
        Ok(held) => {
            *out = Handle::of(held);
            DONE
        }
        Err(_) => MEMORY,
    }
}

/// Opens a log of an object, with the statuses of `universal_open_tally`.
#[tactic(auto, using(crate::proofs::Seats::counted))]
fn open(alloc: Global, object: Object, n: u64, k: u64, log: &mut Handle) -> u32
    ensures count { (result ≡ 1) ↔ ((n ≡ 0) ⊎ (64 < n)) }
    ensures row { (result ≡ 2) ↔ ((1 ≤ n) × (n ≤ 64) × ((k ≡ 0) ⊎ (4096 < k))) }
    ensures status { result ≤ 3 }
    ensures unchanged { result ≢ 0 → log.new ≡ log.old }
    ensures opened { result ≡ 0 → HasOpened log.new.value object n k }
{
    match WordLog::open(alloc, object, n, k) {
        Ok((opened, seats)) => match Arc::new(alloc, opened) {
            Ok(shared) => put(alloc, log, Held::Log(Opened { log: shared, seats })),
            Err(_) => MEMORY,
        },
        Err(WordOpenFault::BadCount) => BAD_COUNT,
        Err(WordOpenFault::BadRow) => BAD_ROW,
        Err(WordOpenFault::Memory) => MEMORY,
    }
}

/// Opens a log of a tally, for n processes that can make k calls each.
/// 1: `n` isn't from 1 to 64. 2: `k` isn't from 1 to 4096. 3: memory was refused. After each the
/// handle is as before; else what it had is dropped.
#[unsafe(no_mangle)]
pub extern "C" fn universal_open_tally(alloc: Global, n: u64, k: u64, log: &mut Handle) -> u32
    ensures count { (result ≡ 1) ↔ ((n ≡ 0) ⊎ (64 < n)) }
    ensures row { (result ≡ 2) ↔ ((1 ≤ n) × (n ≤ 64) × ((k ≡ 0) ⊎ (4096 < k))) }
    ensures status { result ≤ 3 }
    ensures unchanged { result ≢ 0 → log.new ≡ log.old }
    ensures opened { result ≡ 0 → HasOpened log.new.value Tally n k }
{
    open(alloc, Object::Tally, n, k, log)
}

/// Opens a log of a sticky register, with the statuses of `universal_open_tally`.
#[unsafe(no_mangle)]
pub extern "C" fn universal_open_sticky(alloc: Global, n: u64, k: u64, log: &mut Handle) -> u32
    ensures count { (result ≡ 1) ↔ ((n ≡ 0) ⊎ (64 < n)) }
    ensures row { (result ≡ 2) ↔ ((1 ≤ n) × (n ≤ 64) × ((k ≡ 0) ⊎ (4096 < k))) }
    ensures status { result ≤ 3 }
    ensures unchanged { result ≢ 0 → log.new ≡ log.old }
    ensures opened { result ≡ 0 → HasOpened log.new.value Sticky n k }
{
    open(alloc, Object::Sticky, n, k, log)
}

/// Opens a log of a register, with the statuses of `universal_open_tally`.
#[unsafe(no_mangle)]
pub extern "C" fn universal_open_register(alloc: Global, n: u64, k: u64, log: &mut Handle) -> u32
    ensures count { (result ≡ 1) ↔ ((n ≡ 0) ⊎ (64 < n)) }
    ensures row { (result ≡ 2) ↔ ((1 ≤ n) × (n ≤ 64) × ((k ≡ 0) ⊎ (4096 < k))) }
    ensures status { result ≤ 3 }
    ensures unchanged { result ≢ 0 → log.new ≡ log.old }
    ensures opened { result ≡ 0 → HasOpened log.new.value Register n k }
{
    open(alloc, Object::Register, n, k, log)
}

/// The machine of two tables, which are copied. Error: memory was refused.
pub(crate) fn machine_of(
    alloc: Global,
    states: u32,
    invocations: u32,
    next: &[u32],
    reply: &[u32],
) -> Result<WordMachine, AllocError>
    requires { machine_fault (tables_of states invocations next.now reply.now) ≡ None }
    ensures { IfOk result (λ machine. machine ≡ tables_of states invocations next.now reply.now) }
{
    let next = Vec::from_slice(alloc, next)?;
    let reply = Vec::from_slice(alloc, reply)?;
    match WordMachine::new(states, invocations, next, reply) {
        Ok(machine) => Ok(machine),
        Err(_) => unreachable!(),
    }
}

/// Opens a log of the machine of two tables, which are copied.
/// 8: the tables are wrong. Else the statuses are those of `universal_open_tally`.
#[unsafe(no_mangle)]
pub extern "C" fn universal_open_machine(
    alloc: Global,
    n: u64,
    k: u64,
    states: u32,
    invocations: u32,
    next: &[u32],
    reply: &[u32],
    log: &mut Handle,
) -> u32
    ensures table { (result ≡ 8) ↔ IsSome (machine_fault (tables_of states invocations next.now reply.now)) }
    ensures count { (result ≡ 1) ↔
        ((machine_fault (tables_of states invocations next.now reply.now) ≡ None) × ((n ≡ 0) ⊎ (64 < n))) }
    ensures row { (result ≡ 2) ↔ ((machine_fault (tables_of states invocations next.now reply.now) ≡ None)
        × (1 ≤ n) × (n ≤ 64) × ((k ≡ 0) ⊎ (4096 < k))) }
    ensures status { (result ≤ 3) ⊎ (result ≡ 8) }
    ensures unchanged { result ≢ 0 → log.new ≡ log.old }
    ensures opened { result ≡ 0 →
        HasOpened log.new.value (Machine (tables_of states invocations next.now reply.now)) n k }
{
    if table_fault(states, invocations, next, reply).is_some() {
        return BAD_TABLE;
    }
    if n < 1 || n > MAX_PROCESSES {
        return BAD_COUNT;
    }
    if k < 1 || k > MAX_ROW {
        return BAD_ROW;
    }
    match machine_of(alloc, states, invocations, next, reply) {
        Ok(machine) => open(alloc, Object::Machine(machine), n, k, log),
        Err(_) => MEMORY,
    }
}
