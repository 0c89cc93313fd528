//! Objects that are opened, and their seats.

ghost use Rattle.std.specs.Prelude.{◌≡◌, All, length};
ghost use Rattle.uni_any.specs.Seats.{IsSeatOf};

use seq_object::SeqObject;
use stack::StackResp;
use std::alloc::Global;
use std::process::Abort;
use uni_any::{AnySeat, AnyShared, Row};

/// An object of so many processes, and their seats.
pub(crate) fn opened<O: SeqObject>(
    rt: &impl Abort,
    alloc: Global,
    object: O,
    n: u64,
) -> (AnyShared<O>, Vec<AnySeat<O>>)
    ensures count { length result.1.items ≡ n }
    ensures own { All (IsSeatOf result.0) result.1.items }
{
    let Ok(opened) = AnyShared::open(alloc, object, n) else {
        panic!(rt; "not opened")
    };
    opened
}

/// The last seat, taken out.
pub(crate) fn last<O: SeqObject>(
    rt: &impl Abort,
    shared: &AnyShared<O>,
    seats: &mut Vec<AnySeat<O>>,
) -> AnySeat<O>
    requires { All (IsSeatOf shared.now) seats.old.items }
    ensures rest { All (IsSeatOf shared.now) seats.new.items }
    ensures last { IsSeatOf shared.now result }
{
    let Some(seat) = seats.pop() else {
        panic!(rt; "no seat")
    };
    seat
}

/// The last two seats, taken out, in order.
pub(crate) fn last_two<O: SeqObject>(
    rt: &impl Abort,
    shared: &AnyShared<O>,
    seats: &mut Vec<AnySeat<O>>,
) -> (AnySeat<O>, AnySeat<O>)
    requires { All (IsSeatOf shared.now) seats.old.items }
    ensures rest { All (IsSeatOf shared.now) seats.new.items }
    ensures two { IsSeatOf shared.now result.0 × IsSeatOf shared.now result.1 }
{
    let second = last(rt, shared, seats);
    (last(rt, shared, seats), second)
}

/// Whether so many calls of a process are in, and this was the reply to the last one.
pub(crate) fn is_row(
    rows: &[Row<StackResp>],
    p: usize,
    applied: u64,
    reply: Option<StackResp>,
) -> bool {
    match rows.get(p) {
        Some(row) => row.applied == applied && row.reply == reply,
        None => false,
    }
}
