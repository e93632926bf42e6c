//! Facts of comparisons, orders and defaults. These functions do nothing: each is there for its
//! contract, a law that a caller's proof knows once the caller has called the function.
ghost use Rattle.std.specs.Prelude.{◌≡◌, ◌↔◌, IsTrue};
ghost use Rattle.std.specs.Ordering.{nat_cmp};
ghost use Rattle.dnssec_base.specs.Stamps.{no_stamps};

use crate::{Error, KeyTimestamps, SecurityAlgorithm, UnixTime};

/// A law for proofs, which does nothing when it runs: `==` holds of two algorithms exactly if their
/// numbers are equal.
pub fn equal_algorithms_are_one(a: &SecurityAlgorithm, b: &SecurityAlgorithm)
    ensures { IsTrue (⟦<SecurityAlgorithm as PartialEq>⟧.eq a.now b.now) ↔ (a.now ≡ b.now) }
{}

/// A law for proofs, which does nothing when it runs: of two moments the earlier one is the lesser.
pub fn moments_are_in_order_of_time(a: &UnixTime, b: &UnixTime)
    ensures { ⟦<UnixTime as Ord>⟧.cmp a.now b.now ≡ nat_cmp a.now b.now }
{}

/// A law for proofs, which does nothing when it runs: `==` holds of two moments exactly if they are
/// as long after the start of 1970, to the nanosecond.
pub fn equal_moments_are_one(a: &UnixTime, b: &UnixTime)
    ensures { IsTrue (⟦<UnixTime as PartialEq>⟧.eq a.now b.now) ↔ (a.now ≡ b.now) }
{}

/// A law for proofs, which does nothing when it runs: `==` holds of two refusals exactly if they
/// are of one kind and, for `Wait`, name the same time that is left.
pub fn equal_errors_are_one(a: &Error, b: &Error)
    ensures { IsTrue (⟦<Error as PartialEq>⟧.eq a.now b.now) ↔ (a.now ≡ b.now) }
{}

/// A law for proofs, which does nothing when it runs: the default of `KeyTimestamps` has no stamp
/// at all, also none of the key's creation.
pub fn default_stamps_are_none(a: &KeyTimestamps)
    ensures { ⟦<KeyTimestamps as Default>⟧.is_default a.now → a.now ≡ no_stamps }
{}
