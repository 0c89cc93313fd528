//! What a caller states of the words and the buffers, and what a step tells.
ghost use Rattle.std.specs.Prelude.{◌≡◌, ◌+◌, ◌*◌, Option, ℕ};
ghost use Rattle.triple_buffers.specs.Buffer.{IsSmall};
ghost use Rattle.triple_buffers.specs.Contents.{Contents};

use crate::layout::Layout;
use atomic_table::{Play, Seat, Split, Table, TableRule};
use std::alloc::Global;
use std::collections::LinkedList;
use std::marker::PhantomData;

/// The caller's rule: a fact of what lies in the words and in the buffers, and of what each seat knows. It may read
/// a key, which is fixed at the opening.
pub trait BufferRule<T, V, K> {
    ghost holds: { K → Contents T V → Type 0 };

    /// What the first seat knows.
    ghost first: { K → V };
}

/// What a step on a word tells: of its operands, the view before, the number found and the view after.
pub trait WordPlay<V> {
    ghost then: { (first second : ℕ) → V → ℕ → V → Type 0 };
}

/// What a write tells: of the view before, the party that it is for, the value and the view after.
pub trait WritePlay<T, V> {
    ghost then: { V → (to : ℕ) → T → V → Type 0 };
}

/// What a take tells: of the view before, the party that wrote, the value found and the view after.
pub trait TakePlay<T, V> {
    ghost then: { V → (from : ℕ) → Option T → V → Type 0 };
}

/// Of a party: which slot of each of its buffers it has, of those that it writes and of those that it takes from, by
/// the other party; the slot that is out with it; and how many steps on words it has made. No value of it is made.
pub struct Ends {
    pub backs: LinkedList<u64, Global>,
    pub fronts: LinkedList<u64, Global>,
    pub out: Option<u64>,
    pub steps: u64,
}

/// What a seat of the table knows: it is that of the parties from the first on. No value of it is made.
pub struct Sight<V> {
    pub layout: Layout,
    pub first: u64,
    pub count: u64,
    pub ends: Ends,
    pub client: V,
}

/// What the table is told once.
#[derive(Drop)]
pub struct Setup<K> {
    pub about: K,
    pub layout: Layout,
}

/// The rule of the table: what it shows keeps the caller's rule.
pub struct Shows<P> {
    rule: PhantomData<P>,
}

impl<T, V, K, P: BufferRule<T, V, K>> TableRule<Option<T>, Sight<V>, Setup<K>> for Shows<P> {
    ghost use Rattle.triple_buffers.specs.Buffer.{ShowsContents};
    ghost use Rattle.triple_buffers.specs.Seats.{first_sight};

    ghost holds = { λ key. ShowsContents key.layout (P.holds key.about) };

    ghost first = { λ key. first_sight key.layout (P.first key.about) };
}

/// A step on a word of the caller's.
pub struct OnWord<M> {
    play: PhantomData<M>,
}

impl<T, V, M: WordPlay<V>> Play<Option<T>, Sight<V>> for OnWord<M> {
    ghost use Rattle.triple_buffers.specs.Seats.{HasStepped};

    ghost then = { HasStepped M.then };
}

/// The taking of the slot that is written next.
pub struct Opens;

impl<T, V> Play<Option<T>, Sight<V>> for Opens {
    ghost use Rattle.triple_buffers.specs.Seats.{HasOpened};

    ghost then = { HasOpened };
}

/// The swap that ends a write.
pub struct Writes<M> {
    play: PhantomData<M>,
}

impl<T, V, M: WritePlay<T, V>> Play<Option<T>, Sight<V>> for Writes<M> {
    ghost use Rattle.triple_buffers.specs.Seats.{HasWritten};

    ghost then = { HasWritten M.then };
}

/// The look whether there is a value.
pub struct Looks<M> {
    play: PhantomData<M>,
}

impl<T, V, M: TakePlay<T, V>> Play<Option<T>, Sight<V>> for Looks<M> {
    ghost use Rattle.triple_buffers.specs.Seats.{HasLooked};

    ghost then = { HasLooked M.then };
}

/// The swap of a take.
pub struct Takes<M> {
    play: PhantomData<M>,
}

impl<T, V, M: TakePlay<T, V>> Play<Option<T>, Sight<V>> for Takes<M> {
    ghost use Rattle.triple_buffers.specs.Seats.{HasTaken};

    ghost then = { HasTaken M.then };
}

/// The first party apart from the others.
pub struct FirstOf<M> {
    split: PhantomData<M>,
}

impl<V, M: Split<V>> Split<Sight<V>> for FirstOf<M> {
    ghost use Rattle.triple_buffers.specs.Seats.{first_alone, others};

    ghost left = { λ v. others v (M.left v.client) };

    ghost right = { λ v. first_alone v (M.right v.client) };
}

/// The table.
pub type BufferTable<T, V, K, P> = Table<Option<T>, Sight<V>, Setup<K>, Shows<P>, Global>;

/// A seat of the table.
pub type BufferSeat<T, V> = Seat<Option<T>, Sight<V>>;

/// Words, and a buffer of each party for each party, under the caller's rule.
#[derive(Drop)]
pub struct Buffers<T, V, K, P: BufferRule<T, V, K>> {
    pub(crate) setup: Setup<K>,
    pub(crate) table: BufferTable<T, V, K, P>,
    pub ghost same: { table.shared.key ≡ setup },
    pub ghost wide: { table.shared.table_id.words ≡ setup.layout.words + setup.layout.parties * setup.layout.parties },
    pub ghost many: { table.shared.table_id.slots ≡ 3 * (setup.layout.parties * setup.layout.parties) },
    pub ghost small: { IsSmall setup.layout },
}
