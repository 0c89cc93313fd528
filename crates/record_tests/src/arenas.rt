//! Both forms of arena: each call, with what it leaves worked out by hand.

ghost use Rattle.std.specs.Prelude.{◌≡◌, ◌<◌, ◌≤◌, IsSome, IsSomeAnd};
ghost use Rattle.cell_arena.specs.Arena.{cell_of, processes_of};

use cell_arena::{ArenaFault, CellId, Cells, ColumnCells, RowCells, of_is_injective};
use std::alloc::Global;
use std::process::Abort;
use std::test::Fail;

/// A cell's number, invocation, cell before, next cell, and state with response.
type Fields = (
    u64,
    Option<u32>,
    Option<u32>,
    Option<u32>,
    Option<(u64, Option<u8>)>,
);

/// The index of a cell, where there is one.
fn index_of(cell: Option<CellId>) -> Option<u32> {
    match cell {
        Some(cell) => Some(cell.index()),
        None => None,
    }
}

/// Reads each field of a cell.
fn fields<C: Cells<Inv = u32, State = u64, Resp = u8>>(arena: &C, id: CellId) -> Fields
    requires { IsSome (C.cell arena.now id) }
{
    (
        arena.seq(id),
        arena.inv(id).copied(),
        index_of(arena.before(id)),
        index_of(arena.after(id)),
        arena.new_of(id).copied(),
    )
}

/// The fields of a cell are these.
fn has_fields<C: Cells<Inv = u32, State = u64, Resp = u8>>(
    rt: &impl Abort,
    arena: &C,
    id: CellId,
    want: Fields,
)
    requires { IsSome (C.cell arena.now id) }
{
    assert!(rt; fields(arena, id) == want);
}

/// The fields of the anchor are these.
fn anchor_has<C: Cells<Inv = u32, State = u64, Resp = u8>>(
    rt: &impl Abort,
    arena: &C,
    want: Fields,
) {
    arena.shape();
    has_fields(rt, arena, CellId::anchor(), want);
}

/// There is room for so many cells of processes 0 and 1.
fn has_room<C: Cells<Inv = u32, State = u64, Resp = u8>>(
    rt: &impl Abort,
    arena: &C,
    first: u64,
    second: u64,
)
    requires { 2 ≤ C.processes arena.now }
{
    assert!(rt; (arena.room(0), arena.room(1)) == (first, second));
}

/// A cell's name has this index.
fn has_index(rt: &impl Abort, n: u64, owner: u64, nth: u64, index: u32)
    requires processes { n ≤ 64 }
    requires owner { owner < n }
    requires nth { nth < 4096 }
{
    assert!(rt;
        CellId::of(n, owner, nth).index() == index,
        "cell {nth} of {owner} among {n}"
    );
}

#[test]
fn cells_have_names(rt: HostRuntime) {
    of_is_injective();
    assert!(rt; CellId::anchor().index() == 0, "the anchor");
    has_index(&rt, 1, 0, 0, 1);
    has_index(&rt, 1, 0, 5, 6);
    has_index(&rt, 3, 2, 0, 3);
    has_index(&rt, 3, 0, 1, 4);
    has_index(&rt, 64, 63, 4095, 262144);
}

/// Makes a cell, which there is room and memory for.
fn made<C: Cells<Inv = u32, State = u64, Resp = u8>>(
    rt: &impl Abort,
    alloc: Global,
    arena: &mut C,
    p: u64,
    inv: u32,
) -> CellId
    requires { p < C.processes arena.old }
    ensures there { IsSome (C.cell arena.new result) }
    ensures processes { C.processes arena.new ≡ C.processes arena.old }
{
    match arena.make(alloc, p, inv) {
        Ok(id) => id,
        Err(_) => panic!(rt; "refused"),
    }
}

/// Makes a cell with this name, in which nothing but its invocation is written.
fn makes<C: Cells<Inv = u32, State = u64, Resp = u8>>(
    rt: &impl Abort,
    alloc: Global,
    arena: &mut C,
    p: u64,
    inv: u32,
    name: CellId,
) -> CellId
    requires { p < C.processes arena.old }
    ensures there { IsSome (C.cell arena.new result) }
    ensures processes { C.processes arena.new ≡ C.processes arena.old }
{
    let cell = made(rt, alloc, arena, p, inv);
    assert!(rt; cell == name);
    has_fields(rt, arena, cell, (0, Some(inv), None, None, None));
    cell
}

/// Process 1, whose row is full, makes no cell.
fn makes_none<C: Cells<Inv = u32, State = u64, Resp = u8>>(
    rt: &impl Abort,
    alloc: Global,
    arena: &mut C,
)
    requires { 2 ≤ C.processes arena.old }
    ensures processes { C.processes arena.new ≡ C.processes arena.old }
{
    assert!(rt; arena.make(alloc, 1, 74) == Err((ArenaFault::RowFull(1), 74)));
}

/// Makes cells until the row of process 1 is full. The answer is the last of them.
fn makes_cells<C: Cells<Inv = u32, State = u64, Resp = u8>>(
    rt: &impl Abort,
    alloc: Global,
    arena: &mut C,
) -> CellId
    requires { 2 ≤ C.processes arena.old }
    ensures there { IsSome (C.cell arena.new result) }
    ensures processes { C.processes arena.new ≡ C.processes arena.old }
{
    makes(rt, alloc, arena, 0, 70, CellId::of(2, 0, 0));
    makes(rt, alloc, arena, 1, 72, CellId::of(2, 1, 0));
    makes(rt, alloc, arena, 1, 73, CellId::of(2, 1, 1));
    makes_none(rt, alloc, arena);
    has_room(rt, arena, 1, 0);
    makes(rt, alloc, arena, 0, 71, CellId::of(2, 0, 1))
}

/// Writes the number of a new cell, and the cell before it.
fn writes<C: Cells<Inv = u32, State = u64, Resp = u8>>(rt: &impl Abort, arena: &mut C, id: CellId)
    requires { IsSome (C.cell arena.old id) }
    ensures there { IsSome (C.cell arena.new id) }
    ensures processes { C.processes arena.new ≡ C.processes arena.old }
{
    arena.set_seq(id, 2);
    has_fields(rt, arena, id, (2, Some(71), None, None, None));
    arena.set_before(id, CellId::anchor());
    has_fields(rt, arena, id, (2, Some(71), Some(0), None, None));
}

/// Proposes a next cell twice, and then a state.
fn proposes<C: Cells<Inv = u32, State = u64, Resp = u8>>(rt: &impl Abort, arena: &mut C, id: CellId)
    requires { IsSome (C.cell arena.old id) }
    ensures there { IsSome (C.cell arena.new id) }
    ensures processes { C.processes arena.new ≡ C.processes arena.old }
{
    assert!(rt; arena.decide_after(id, CellId::of(2, 0, 0)).index() == 1);
    assert!(rt; arena.decide_after(id, CellId::of(2, 1, 1)).index() == 1);
    has_fields(rt, arena, id, (2, Some(71), Some(0), Some(1), None));
    assert!(rt; *arena.decide_new(id, (11, Some(5))) == (11, Some(5)));
    has_fields(
        rt,
        arena,
        id,
        (2, Some(71), Some(0), Some(1), Some((11, Some(5)))),
    );
}

/// Begins the next era, once a cell has a number and a state.
fn clears<C: Cells<Inv = u32, State = u64, Resp = u8>>(rt: &impl Abort, arena: &mut C, last: CellId)
    requires last { IsSome (C.cell arena.old last) }
    ensures processes { C.processes arena.new ≡ C.processes arena.old }
{
    arena.set_seq(last, 3);
    assert!(rt; *arena.decide_new(last, (98, None)) == (11, Some(5)));
    arena.clear_to(last);
}

/// Makes the first cells of the next era.
fn makes_cells_again<C: Cells<Inv = u32, State = u64, Resp = u8>>(
    rt: &impl Abort,
    alloc: Global,
    arena: &mut C,
)
    requires { 2 ≤ C.processes arena.old }
{
    anchor_has(rt, arena, (3, None, None, None, Some((11, None))));
    has_room(rt, arena, 2, 2);
    makes(rt, alloc, arena, 1, 74, CellId::of(2, 1, 0));
    makes(rt, alloc, arena, 0, 75, CellId::of(2, 0, 0));
}

/// Each call of an arena of two processes with rows of two cells, in two eras.
fn two_eras<C: Cells<Inv = u32, State = u64, Resp = u8>>(
    rt: &impl Abort,
    alloc: Global,
    arena: &mut C,
)
    requires { 2 ≤ C.processes arena.old }
{
    anchor_has(rt, arena, (1, None, None, None, Some((10, None))));
    let last = makes_cells(rt, alloc, arena);
    writes(rt, arena, last);
    proposes(rt, arena, last);
    clears(rt, arena, last);
    makes_cells_again(rt, alloc, arena);
}

#[test]
fn two_eras_in_rows(rt: HostRuntime) -> Result<(), Fail> {
    let mut arena = RowCells::opened(rt.alloc(), 2, 2, 10, 1)?;
    two_eras(&rt, rt.alloc(), &mut arena);
    Ok(())
}

#[test]
fn two_eras_in_columns(rt: HostRuntime) -> Result<(), Fail> {
    let mut arena = ColumnCells::opened(rt.alloc(), 2, 2, 10, 1)?;
    two_eras(&rt, rt.alloc(), &mut arena);
    Ok(())
}

/// Process 0 makes a cell with this number and state. The answer is the cell.
fn threaded<C: Cells<Inv = u32, State = u64, Resp = u8>>(
    rt: &impl Abort,
    alloc: Global,
    arena: &mut C,
    seq: u64,
    state: u64,
) -> CellId
    requires { (1 ≤ seq) × (1 ≤ C.processes arena.old) }
    ensures last { IsSomeAnd (C.cell arena.new result) (λ c. (0 < c.seq) × IsSome c.new) }
    ensures shape { (C.processes arena.new ≡ C.processes arena.old)
        × (C.Cells.row arena.new ≡ C.Cells.row arena.old) }
{
    let last = match arena.make(alloc, 0, 80) {
        Ok(id) => id,
        Err(_) => panic!(rt; "refused"),
    };
    arena.set_seq(last, seq);
    arena.decide_new(last, (state, Some(6)));
    last
}

/// A cell still has the number and the state that it was given.
fn is_as_threaded(
    rt: &impl Abort,
    arena: &ColumnCells<u64, u32, u8>,
    last: CellId,
    seq: u64,
    state: u64,
)
    requires { IsSome (cell_of arena.now last) }
{
    assert!(rt; arena.seq(last) == seq, "another number");
    assert!(rt;
        arena.new_of(last) == Some(&(state, Some(6))),
        "another state"
    );
}

/// An era of `m` processes has begun after a cell with this number and state: the last process
/// makes its first cell.
fn is_begun(
    rt: &impl Abort,
    alloc: Global,
    arena: &mut ColumnCells<u64, u32, u8>,
    m: u64,
    seq: u64,
    state: u64,
)
    requires count { (1 ≤ m) × (m ≤ 64) }
    requires processes { processes_of arena.old ≡ m }
    ensures { processes_of arena.new ≡ m }
{
    anchor_has(rt, arena, (seq, None, None, None, Some((state, None))));
    let owner = m - 1;
    assert!(rt; arena.room(owner) == 2, "of {m}");
    makes(rt, alloc, arena, owner, 81, CellId::of(m, owner, 0));
}

/// Begins an era of `m` processes after a cell with this number and state. Where memory is refused
/// the arena is as it was.
fn renews(
    rt: &impl Abort,
    alloc: Global,
    arena: &mut ColumnCells<u64, u32, u8>,
    m: u64,
    seq: u64,
    state: u64,
)
    requires before { (1 ≤ seq) × (1 ≤ processes_of arena.old) }
    requires processes { (1 ≤ m) × (m ≤ 64) }
    ensures { 1 ≤ processes_of arena.new }
{
    let last = threaded(rt, alloc, arena, seq, state);
    match arena.clear_for(alloc, last, m) {
        Ok(()) => is_begun(rt, alloc, arena, m, seq, state),
        Err(_) => is_as_threaded(rt, arena, last, seq, state),
    }
}

/// Eras of three processes, of one and of two.
fn renews_thrice(rt: &impl Abort, alloc: Global, arena: &mut ColumnCells<u64, u32, u8>)
    requires { 1 ≤ processes_of arena.old }
{
    renews(rt, alloc, arena, 3, 2, 20);
    renews(rt, alloc, arena, 1, 3, 30);
    renews(rt, alloc, arena, 2, 4, 40);
}

#[test]
fn eras_of_more_and_fewer_processes(rt: HostRuntime) -> Result<(), Fail> {
    let mut arena = ColumnCells::opened(rt.alloc(), 2, 2, 10, 1)?;
    renews_thrice(&rt, rt.alloc(), &mut arena);
    Ok(())
}
