//! Logs, where no script says it: the places of calls, states and cells, and numbers that begin higher.

use crate::acts::{Act, Fact, call, does_all, opened_at, plays};

#[test]
fn calls_states_and_cells_lie_along_the_list(rt: HostRuntime) {
    let acts = [
        Act::Begins(call(0, 0), 10),
        Act::Goes(0, 10),
        Act::Begins(call(1, 0), 30),
        Act::Goes(1, 14),
        Act::Ends(0, 0),
        Act::Begins(call(0, 1), 20),
        Act::Goes(0, 1),
        Act::Ends(1, 20),
        Act::Shows(Fact::PlaceOf(call(0, 0), Some(0))),
        Act::Shows(Fact::PlaceOf(call(0, 1), Some(1))),
        Act::Shows(Fact::PlaceOf(call(1, 0), Some(2))),
        Act::Shows(Fact::PlaceOf(call(0, 2), None)),
        Act::Shows(Fact::State(0, Some(0))),
        Act::Shows(Fact::State(1, Some(10))),
        Act::Shows(Fact::State(2, Some(20))),
        Act::Shows(Fact::State(3, Some(30))),
        Act::Shows(Fact::State(4, None)),
        // Back is forward reversed.
        Act::Shows(Fact::Cells(0, Some(0), Some(2))),
        Act::Shows(Fact::Cells(1, Some(1), Some(3))),
        Act::Shows(Fact::Cells(2, Some(3), Some(1))),
        Act::Shows(Fact::Cells(3, Some(2), Some(0))),
        Act::Shows(Fact::Cells(4, None, None)),
    ];
    plays(&rt, rt.alloc(), 2, 8, &acts);
}

#[test]
fn a_linked_call_has_no_state_yet(rt: HostRuntime) {
    let acts = [
        Act::Shows(Fact::Cells(0, Some(0), Some(0))),
        Act::Shows(Fact::Cells(1, None, None)),
        Act::Begins(call(0, 0), 7),
        Act::Goes(0, 8),
        Act::Shows(Fact::State(0, Some(0))),
        Act::Shows(Fact::State(1, None)),
        Act::Goes(0, 1),
        Act::Shows(Fact::State(1, Some(7))),
        Act::Shows(Fact::State(2, None)),
    ];
    plays(&rt, rt.alloc(), 1, 8, &acts);
}

#[test]
fn numbers_go_on_from_the_anchors(rt: HostRuntime) {
    let acts = [
        Act::Begins(call(0, 0), 7),
        Act::Ends(0, 9),
        Act::Shows(Fact::OneEntry(6, call(0, 0), 9)),
    ];
    let mut world = opened_at(&rt, rt.alloc(), 1, 1, 9, 5);
    does_all(&rt, rt.alloc(), &mut world, &acts);
}
