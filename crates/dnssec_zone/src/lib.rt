//! The parts of a key set: the keys of a zone by their references, its rolls in progress, and what
//! the starts of rolls listed. Also why a start is refused, and from when on a wait is over.
//!
//! `dnssec_keyset` puts them together. Only `keys` changes the map of keys. It hands the map to
//! `derived`, `wait_end`, `ends` and `over` to read, and one key at a time to change. `check` and
//! `rolls` read the map by `Keys::as_map`. Only `rolls` changes the map of the rolls' phases.
#![tactic(auto)]

mod check;
mod derived;
mod ends;
mod index;
mod keys;
mod mark;
mod over;
mod rolls;
mod wait_end;

pub use check::{NewKeys, may_go_over};
pub use index::AlgorithmSet;
pub use keys::Keys;
pub use mark::KeyMark;
pub use rolls::{Lists, Part, Rolls, all_rolls, go_together, same_part};
