//! Opening a small object.
ghost use Rattle.std.specs.Prelude.{IsSome, ◌≡◌, ◌≢◌, ◌↔◌, ◌⊎◌, ◌<◌, ◌≤◌};
ghost use Rattle.std.specs.declared.option.Option.TheVariants.{None};
ghost use Rattle.word_objects.specs.Machine.{machine_fault};
ghost use Rattle.universal_c.specs.Meaning.{tables_of};
ghost use Rattle.universal_c.specs.SmallCalls.{HasOpenedSmall};
ghost use Rattle.universal_c.specs.SmallMeaning.{IsNarrow, state_words};
ghost use Rattle.universal_c.specs.declared.small_kind.SmallKind.TheVariants.{Book, Counter, Counters, Machine};
ghost use Rattle.universal_c.specs.declared.small_kind.SmallKind.TheVariants.{Map, Queue, Register, Stack};

use crate::handle::Handle;
use crate::held::{Held, SmallOpened};
use crate::open::{machine_of, put};
use crate::small_kind::SmallKind;
use crate::status::{BAD_CAPACITY, BAD_COUNT, BAD_TABLE, MEMORY};
use small_objects::{SmallCounters, SmallMap, SmallQueue, SmallStack};
use std::alloc::Global;
use std::sync::Arc;
use uni_model::MAX_PROCESSES;
use uni_small::{SmallOpenFault, SmallShared};
use word_objects::table_fault;

/// Opens a small object of this kind, with the statuses of `universal_open_queue`.
#[tactic(auto, using(crate::proofs::Seats::counted_small, crate::specs::SmallMeaning::state_long))]
pub(crate) fn open(alloc: Global, kind: SmallKind, n: u64, object: &mut Handle) -> u32
    requires { IsNarrow kind }
    ensures count { (result ≡ 1) ↔ ((n ≡ 0) ⊎ (64 < n)) }
    ensures capacity { (result ≡ 10) ↔ ((1 ≤ n) × (n ≤ 64) × (65536 < state_words kind)) }
    ensures status { (result ≡ 0) ⊎ (result ≡ 1) ⊎ (result ≡ 3) ⊎ (result ≡ 10) }
    ensures unchanged { result ≢ 0 → object.new ≡ object.old }
    ensures opened { result ≡ 0 → HasOpenedSmall object.new.value kind n }
{
    match SmallShared::open(alloc, kind, n) {
        Ok((opened, seats)) => match Arc::new(alloc, opened) {
            Ok(shared) => put(alloc, object, Held::Small(SmallOpened { shared, seats })),
            Err(_) => MEMORY,
        },
        Err(SmallOpenFault::BadCount) => BAD_COUNT,
        Err(SmallOpenFault::BadWidth) => BAD_CAPACITY,
        Err(SmallOpenFault::Memory) => MEMORY,
    }
}

/// Opens a counter of 64 bits, for n processes.
/// 1: `n` isn't from 1 to 64. 3: memory was refused. After either the handle is as before; else what it had
/// is dropped.
#[unsafe(no_mangle)]
pub extern "C" fn universal_open_counter(alloc: Global, n: u64, object: &mut Handle) -> u32
    ensures count { (result ≡ 1) ↔ ((n ≡ 0) ⊎ (64 < n)) }
    ensures status { (result ≡ 0) ⊎ (result ≡ 1) ⊎ (result ≡ 3) }
    ensures unchanged { result ≢ 0 → object.new ≡ object.old }
    ensures opened { result ≡ 0 → HasOpenedSmall object.new.value Counter n }
{
    open(alloc, SmallKind::Counter, n, object)
}

/// Opens a register of 64 bits, with the statuses of `universal_open_counter`.
#[unsafe(no_mangle)]
pub extern "C" fn universal_open_register64(alloc: Global, n: u64, object: &mut Handle) -> u32
    ensures count { (result ≡ 1) ↔ ((n ≡ 0) ⊎ (64 < n)) }
    ensures status { (result ≡ 0) ⊎ (result ≡ 1) ⊎ (result ≡ 3) }
    ensures unchanged { result ≢ 0 → object.new ≡ object.old }
    ensures opened { result ≡ 0 → HasOpenedSmall object.new.value Register n }
{
    open(alloc, SmallKind::Register, n, object)
}

/// Opens a book of sixteen accounts, with the statuses of `universal_open_counter`.
#[unsafe(no_mangle)]
pub extern "C" fn universal_open_book(alloc: Global, n: u64, object: &mut Handle) -> u32
    ensures count { (result ≡ 1) ↔ ((n ≡ 0) ⊎ (64 < n)) }
    ensures status { (result ≡ 0) ⊎ (result ≡ 1) ⊎ (result ≡ 3) }
    ensures unchanged { result ≢ 0 → object.new ≡ object.old }
    ensures opened { result ≡ 0 → HasOpenedSmall object.new.value Book n }
{
    open(alloc, SmallKind::Book, n, object)
}

/// Opens an array of so many counters, with the statuses of `universal_open_queue`: 10 where there are more
/// than 65,536.
#[unsafe(no_mangle)]
pub extern "C" fn universal_open_counters(
    alloc: Global,
    n: u64,
    count: u32,
    object: &mut Handle,
) -> u32
    ensures count { (result ≡ 1) ↔ ((n ≡ 0) ⊎ (64 < n)) }
    ensures capacity { (result ≡ 10) ↔ ((1 ≤ n) × (n ≤ 64) × (65536 < count)) }
    ensures status { (result ≡ 0) ⊎ (result ≡ 1) ⊎ (result ≡ 3) ⊎ (result ≡ 10) }
    ensures unchanged { result ≢ 0 → object.new ≡ object.old }
    ensures opened { result ≡ 0 → HasOpenedSmall object.new.value (Counters (record { count = count })) n }
{
    let count = count as u64;
    open(
        alloc,
        SmallKind::Counters(SmallCounters { count }),
        n,
        object,
    )
}

/// Opens a queue of at most `capacity` numbers, for n processes.
/// 1: `n` isn't from 1 to 64. 10: `capacity` is more than 65,534. 3: memory was refused. After each the handle
/// is as before; else what it had is dropped.
#[unsafe(no_mangle)]
pub extern "C" fn universal_open_queue(
    alloc: Global,
    n: u64,
    capacity: u32,
    object: &mut Handle,
) -> u32
    ensures count { (result ≡ 1) ↔ ((n ≡ 0) ⊎ (64 < n)) }
    ensures capacity { (result ≡ 10) ↔ ((1 ≤ n) × (n ≤ 64) × (65534 < capacity)) }
    ensures status { (result ≡ 0) ⊎ (result ≡ 1) ⊎ (result ≡ 3) ⊎ (result ≡ 10) }
    ensures unchanged { result ≢ 0 → object.new ≡ object.old }
    ensures opened { result ≡ 0 → HasOpenedSmall object.new.value (Queue (record { capacity = capacity })) n }
{
    open(alloc, SmallKind::Queue(SmallQueue { capacity }), n, object)
}

/// Opens a stack of at most `capacity` numbers, with the statuses of `universal_open_queue`: 10 where `capacity` is
/// more than 65,535.
#[unsafe(no_mangle)]
pub extern "C" fn universal_open_stack(
    alloc: Global,
    n: u64,
    capacity: u32,
    object: &mut Handle,
) -> u32
    ensures count { (result ≡ 1) ↔ ((n ≡ 0) ⊎ (64 < n)) }
    ensures capacity { (result ≡ 10) ↔ ((1 ≤ n) × (n ≤ 64) × (65535 < capacity)) }
    ensures status { (result ≡ 0) ⊎ (result ≡ 1) ⊎ (result ≡ 3) ⊎ (result ≡ 10) }
    ensures unchanged { result ≢ 0 → object.new ≡ object.old }
    ensures opened { result ≡ 0 → HasOpenedSmall object.new.value (Stack (record { capacity = capacity })) n }
{
    open(alloc, SmallKind::Stack(SmallStack { capacity }), n, object)
}

/// Opens a map of at most `capacity` keys, with the statuses of `universal_open_queue`: 10 where `capacity` is
/// more than 32,767.
#[unsafe(no_mangle)]
pub extern "C" fn universal_open_map(
    alloc: Global,
    n: u64,
    capacity: u32,
    object: &mut Handle,
) -> u32
    ensures count { (result ≡ 1) ↔ ((n ≡ 0) ⊎ (64 < n)) }
    ensures capacity { (result ≡ 10) ↔ ((1 ≤ n) × (n ≤ 64) × (32767 < capacity)) }
    ensures status { (result ≡ 0) ⊎ (result ≡ 1) ⊎ (result ≡ 3) ⊎ (result ≡ 10) }
    ensures unchanged { result ≢ 0 → object.new ≡ object.old }
    ensures opened { result ≡ 0 → HasOpenedSmall object.new.value (Map (record { capacity = capacity })) n }
{
    open(alloc, SmallKind::Map(SmallMap { capacity }), n, object)
}

/// Opens the machine of two tables, which are copied.
/// 8: the tables are wrong. Else the statuses are those of `universal_open_counter`.
#[unsafe(no_mangle)]
pub extern "C" fn universal_open_small_machine(
    alloc: Global,
    n: u64,
    states: u32,
    invocations: u32,
    next: &[u32],
    reply: &[u32],
    object: &mut Handle,
) -> u32
    ensures table { (result ≡ 8) ↔ IsSome (machine_fault (tables_of states invocations next.now reply.now)) }
    ensures count { (result ≡ 1) ↔
        ((machine_fault (tables_of states invocations next.now reply.now) ≡ None) × ((n ≡ 0) ⊎ (64 < n))) }
    ensures status { (result ≡ 0) ⊎ (result ≡ 1) ⊎ (result ≡ 3) ⊎ (result ≡ 8) }
    ensures unchanged { result ≢ 0 → object.new ≡ object.old }
    ensures opened { result ≡ 0 →
        HasOpenedSmall object.new.value (Machine (tables_of states invocations next.now reply.now)) n }
{
    if table_fault(states, invocations, next, reply).is_some() {
        return BAD_TABLE;
    }
    if n < 1 || n > MAX_PROCESSES {
        return BAD_COUNT;
    }
    match machine_of(alloc, states, invocations, next, reply) {
        Ok(machine) => open(alloc, SmallKind::Machine(machine), n, object),
        Err(_) => MEMORY,
    }
}
