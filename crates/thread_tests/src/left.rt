//! Seats that are left and taken over.

use crate::small::{last, opened};
use small_objects::SmallCounter;
use std::process::Abort;

/// A counter's seat that has added 5 is left, and taken over: no call of it is ended, and it goes on behind that one.
#[test]
fn a_seat_is_left_and_taken_over(rt: HostRuntime) {
    let (shared, mut seats) = opened(&rt, rt.alloc(), SmallCounter, 2);
    let mut seat = last(&rt, &shared, &mut seats);
    assert!(rt; shared.invocation_width() == 1);
    assert!(rt; shared.reply_width() == 1);
    let mut reply = [7];
    assert!(rt; seat.apply_announced(&shared, &[5], &mut reply).is_ok());
    assert!(rt; reply[0] == 0);
    let made = seat.made();
    assert!(rt; made == 1);
    reply[0] = 7;
    let Ok((mut seat, ended)) = seat
        .leave()
        .take_over(rt.alloc(), &shared, made, &mut reply)
    else {
        panic!(rt; "no memory")
    };
    assert!(rt; ended.is_none());
    assert!(rt; reply[0] == 7);
    assert!(rt; seat.apply(&shared, &[3], &mut reply).is_ok());
    assert!(rt; reply[0] == 5);
    assert!(rt; seat.made() == 2);
}
