//! The sets that caches may hold: keys as small numbers, sets as bits, and whether two sets fit in
//! a chain of trust.

mod adds;
mod held;

pub(crate) use adds::Table;
pub(crate) use held::{Bits, BitsDraft, OpenSet, WORD, is_in_word, put};
