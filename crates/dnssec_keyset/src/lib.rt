//! The keys that sign one DNS zone, and the steps of their rollover.
//!
//! A [`KeySet`] keeps the keys of a zone by their public references, and the rolls in progress. A
//! caller adds keys and starts a roll. It reports each change of the roll once all servers have it,
//! and goes on once old data has left the caches. At the end it ends the roll. Each call answers
//! the actions that are now due, or a named refusal. A refused call changes nothing. The rolls are
//! those of RFC 6781, section 4.1.
#![tactic(auto)]

mod key_calls;
mod roll;
mod set;
mod wait;

pub use dnssec_base::{Name, NameError, SecurityAlgorithm, Timestamp};
pub use dnssec_key::{
    Action, Available, Error, Half, Key, KeyState, KeyTimestamps, KeyType, RollState, RollType,
    UnixTime, default_stamps_are_none, default_states_are_unused, equal_errors_are_one,
    equal_kinds_are_one, equal_moments_are_one, equal_phases_are_one, equal_states_are_one,
    moments_are_in_order_of_time,
};
pub use set::KeySet;
pub use wait::WaitEnd;
