//! How the start of a roll marks the keys that it lists.
use dnssec_key::{RollType, UnixTime};

/// How the start of a roll marks a key: as old, or as a new one of this roll at this moment.
#[derive(Clone, Copy)]
pub enum KeyMark {
    AsOld,
    AsNew(RollType, UnixTime),
}
