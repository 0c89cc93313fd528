//! The laws of the construction, at one object, and of the objects that are ready.

use ready_objects::{book_is_conserved, proposals_agree};
use seq_object::{SwapRegister, legal_by_places};
use uni_model::{
    changes_one_place, counts_steps, era_leaves_anchor, event_is_atomic, event_keeps_helping,
    event_keeps_invariant, event_keeps_settled, has_floor, is_bounded, is_linearizable,
    is_one_list, is_universal, joined_log_holds_responses, joined_log_is_legal,
    joined_log_only_grows, keeps_invariant, keeps_real_time, keeps_settled, links_soon,
    log_is_legal, log_only_grows, opening_is_sound, simulates, step_sees_settled,
    trims_change_nothing,
};

#[test]
fn laws_hold_of_an_object() {
    changes_one_place::<SwapRegister>();
    counts_steps::<SwapRegister>();
    era_leaves_anchor::<SwapRegister>();
    event_is_atomic::<SwapRegister>();
    event_keeps_helping::<SwapRegister>();
    event_keeps_invariant::<SwapRegister>();
    event_keeps_settled::<SwapRegister>();
    has_floor::<SwapRegister>();
    is_bounded::<SwapRegister>();
    is_linearizable::<SwapRegister>();
    is_one_list::<SwapRegister>();
    is_universal::<SwapRegister>();
    joined_log_holds_responses::<SwapRegister>();
    joined_log_is_legal::<SwapRegister>();
    joined_log_only_grows::<SwapRegister>();
    keeps_invariant::<SwapRegister>();
    keeps_real_time::<SwapRegister>();
    keeps_settled::<SwapRegister>();
    links_soon::<SwapRegister>();
    log_is_legal::<SwapRegister>();
    log_only_grows::<SwapRegister>();
    opening_is_sound::<SwapRegister>();
    simulates::<SwapRegister>();
    step_sees_settled::<SwapRegister>();
    trims_change_nothing::<SwapRegister>();
    legal_by_places::<SwapRegister>();
    book_is_conserved();
    proposals_agree();
}
