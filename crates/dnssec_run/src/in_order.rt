//! The keys in an order that no hash decides.
ghost use Rattle.std.specs.Prelude.{◌≡◌, IfOk, map};
ghost use Rattle.std.specs.FinMap as fin;
ghost use Rattle.dnssec_zone.specs.Keys.{keys_in_map};
ghost use Rattle.dnssec_run.specs.InOrder.{entry_of};

use dnssec_keyset::Key;
use std::alloc::{AllocError, Global};
use std::collections::HashMap;

/// The keys of a key set with their references, in the order of the references' bytes. Only the
/// list takes memory, from `alloc`.
///
/// # Errors
///
/// If there is no memory.
///
/// ```rust
/// for (reference, _) in keys_in_order(alloc, keyset.keys())? {
///     perform(reference);
/// }
/// ```
pub fn keys_in_order(
    alloc: Global,
    keys: &HashMap<String, Key>,
) -> Result<Vec<(&String, &Key)>, AllocError>
    ensures { IfOk result (λ entries.
        map entry_of entries.items ≡ fin.entries (keys_in_map keys.now)) }
{
    let mut entries = keys.iter().collect::<Vec<_>>(alloc)?;
    entries.sort_unstable_by(|one, other| one.0.cmp(other.0));
    Ok(entries)
}
