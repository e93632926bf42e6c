//! Keys of a zone, and what the steps of each roll do to one key: the states of a key's roles, and
//! the table of the six rolls.
//!
//! `dnssec_keyset` re-exports what its callers name, and itself uses the rest.
#![tactic(auto)]

mod at_key;
mod column;
mod facts_for_proofs;
mod key;
mod kind;
mod roll;
mod setting;
mod table;

pub use at_key::{
    apply_setting, end_phase, is_checked, mark_new, mark_old, unmark_new, unmark_old,
};
pub use column::Column;
pub use dnssec_base::{
    Error, KeyTimestamps, Stamp, UnixTime, default_stamps_are_none, equal_errors_are_one,
    equal_moments_are_one, moments_are_in_order_of_time, stamp_named,
};
pub use facts_for_proofs::{
    default_states_are_unused, equal_kinds_are_one, equal_phases_are_one, equal_states_are_one,
};
pub use key::{Key, new_key};
pub use kind::{Available, KeyState, KeyType, is_kept_at_parent, is_kept_present};
pub use roll::{Action, Half, PhaseEnd, RollState, RollType, Side, Want};
pub use setting::Setting;
pub use table::{roll_name, side_of, stamp_read, wait_moves_kept};
