//! The wait-free universal construction as a machine over shared places (Herlihy 1991, section 4),
//! with its laws over every schedule.
//!
//! The definitions are in `specs/`; the functions here have empty bodies, and their contracts are
//! the laws. They hold for every object and every number of processes.
#![tactic(auto)]

mod laws;
mod limits;

pub use laws::{
    agrees_with_completion, bound_is_met, changes_one_place, counts_steps, ends_at_its_cell,
    era_leaves_anchor, event_is_atomic, event_keeps_helping, event_keeps_invariant,
    event_keeps_settled, has_floor, is_bounded, is_linearizable, is_local, is_one_list,
    is_strongly_linearizable, is_universal, is_wait_free, joined_log_holds_responses,
    joined_log_is_legal, joined_log_only_grows, keeps_invariant, keeps_real_time, keeps_settled,
    links_soon, log_is_legal, log_only_grows, observes_completion, observes_linearizable,
    opening_is_sound, simulates, step_sees_settled, takes_one_turn_alone, trims_change_nothing,
};
pub use limits::{MAX_PROCESSES, MAX_ROW, MAX_SEQ, most_steps};
