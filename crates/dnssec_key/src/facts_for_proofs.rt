//! Facts of comparisons and defaults. These functions do nothing: each is there for its contract, a
//! law that a caller's proof knows once the caller has called the function.
ghost use Rattle.std.specs.Prelude.{◌≡◌, ◌↔◌, IsTrue, false};
ghost use Rattle.dnssec_key.specs.Key.{new_state};

use crate::{KeyState, KeyType, RollState};

/// A law for proofs, which does nothing when it runs: `==` holds of two states of a role exactly if
/// all their flags are equal.
pub fn equal_states_are_one(a: &KeyState, b: &KeyState)
    ensures { IsTrue (⟦<KeyState as PartialEq>⟧.eq a.now b.now) ↔ (a.now ≡ b.now) }
{}

/// A law for proofs, which does nothing when it runs: `==` holds of two kinds of keys exactly if
/// they are the same kind and all flags of each role are equal.
pub fn equal_kinds_are_one(a: &KeyType, b: &KeyType)
    ensures { IsTrue (⟦<KeyType as PartialEq>⟧.eq a.now b.now) ↔ (a.now ≡ b.now) }
{}

/// A law for proofs, which does nothing when it runs: `==` holds of two phases of rolls exactly if
/// they are the same phase with the same TTL.
pub fn equal_phases_are_one(a: &RollState, b: &RollState)
    ensures { IsTrue (⟦<RollState as PartialEq>⟧.eq a.now b.now) ↔ (a.now ≡ b.now) }
{}

/// A law for proofs, which does nothing when it runs: the default state of a role has no flag set,
/// so the role isn't available to a roll either.
pub fn default_states_are_unused(a: &KeyState)
    ensures { ⟦<KeyState as Default>⟧.is_default a.now → a.now ≡ new_state false }
{}
