//! The laws of scripts and of marks, at one object.

use ready_objects::QueueObject;
use run_replay::{bars_have_the_replies, dots_are_the_log, dots_lie_in_bars};
use uni_script::finish_returns;

#[test]
fn laws_hold_of_a_queue() {
    finish_returns::<QueueObject>();
    dots_are_the_log::<QueueObject>();
    dots_lie_in_bars::<QueueObject>();
    bars_have_the_replies::<QueueObject>();
}
