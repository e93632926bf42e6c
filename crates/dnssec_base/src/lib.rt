//! The lower layers of a key set: zone names, the numbers of DNSSEC algorithms with the names of
//! six, timestamps, moments, the stamps of a key, and errors with their texts.
//!
//! A contract sees each of them as a plain value: a name as its wire bytes; an algorithm, a
//! timestamp and a moment as numbers; stamps as moments. `specs/` says what a wire name is, which
//! text spells it and where a fault stands in a text: read `WireName`, `NameText` and then
//! `NameLaws`. `AlgorithmNames`, `Moment`, `Stamps` and `ErrorTexts` have the rest.
#![tactic(auto)]

mod algorithm;
mod error;
mod facts_for_proofs;
mod name;
mod text;
mod time;
mod timestamp;

pub use algorithm::SecurityAlgorithm;
pub use error::Error;
pub use facts_for_proofs::{
    default_stamps_are_none, equal_algorithms_are_one, equal_errors_are_one, equal_moments_are_one,
    moments_are_in_order_of_time,
};
pub use name::{
    Name, NameError, one_fault_stands_first, prints_its_spelling, spells_no_fault, spells_one_name,
    spells_unless_fault,
};
pub use time::{KeyTimestamps, Stamp, UnixTime, new_stamps, stamp_named, write_stamp};
pub use timestamp::Timestamp;
