//! The order of the references in a walk over many keys, kept from one call to the next.
ghost use Rattle.std.specs.Prelude.{◌≡◌, IfOk, IfSome, string_bytes};
ghost use Rattle.std.specs.HashMap as hash;
ghost use Rattle.std.specs.Option.{option_map};
ghost use Rattle.dnssec_run.specs.Recorder.{AreFound};

use dnssec_keyset::Key;
use std::alloc::{AllocError, Global};
use std::collections::HashMap;

/// The order of the keys of a set: the places of their references in a walk over the map.
#[derive(Drop)]
pub(crate) struct WalkOrder {
    pub(crate) places: Vec<usize>,
    /// Whether a key came or went since.
    pub(crate) is_stale: bool,
}

impl WalkOrder {
    /// No order yet. It counts as stale, so that the first walk sorts the references.
    pub(crate) fn new(alloc: Global) -> Self {
        WalkOrder {
            places: Vec::new(alloc),
            is_stale: true,
        }
    }

    /// The keys of a key set with their references, in the order in which the map gives them. If
    /// `self` is stale, as a key came or went since the last walk, it also sorts the references by
    /// their bytes and keeps their order in `self`, which isn't stale any more. Most places are as
    /// before, so the sort begins with the last order.
    ///
    /// It fails only if there is no memory. The order is then as it was.
    pub(crate) fn walk<'a>(
        &mut self,
        alloc: Global,
        keys: &'a HashMap<String, Key>,
    ) -> Result<Vec<(&'a String, &'a Key)>, AllocError>
        ensures { IfOk result (λ entries. AreFound (hash.get_by_text keys.now)
            entries.items) }
    {
        let entries = keys.iter().collect::<Vec<_>>(alloc)?;
        if self.is_stale {
            let mut placed = Vec::with_capacity(alloc, entries.len())?;
            for place in &self.places {
                if let Some((reference, _)) = entries.get(*place) {
                    placed.push((*reference, *place))?;
                }
            }
            for place in self.places.len()..entries.len() {
                if let Some((reference, _)) = entries.get(place) {
                    placed.push((*reference, place))?;
                }
            }
            placed.sort_by(|one, other| one.0.cmp(other.0))?;
            self.places = placed.iter().map(|(_, place)| *place).collect(alloc)?;
            self.is_stale = false;
        }
        Ok(entries)
    }
}

/// The key with this reference, with that reference as the key set has it, or `None` if there is
/// none. `entries` are those of a walk over the keys, and `places` has the places at which the
/// references stand there in their order, by their rank in it. If the key doesn't stand there, it
/// is looked up.
pub(crate) fn entry_at<'a>(
    keys: &'a HashMap<String, Key>,
    entries: &[(&'a String, &'a Key)],
    places: &[usize],
    rank: usize,
    reference: &String,
) -> Option<(&'a String, &'a Key)>
    requires { AreFound (hash.get_by_text keys.now) entries.now }
    ensures key { option_map (λ e. e.1.now) result
        ≡ hash.get_by_text keys.now (string_bytes reference.now) }
    ensures same { IfSome result (λ e. string_bytes e.0.now ≡ string_bytes reference.now) }
{
    let place = places.get(rank).copied().unwrap_or(rank);
    match entries.get(place) {
        Some((found, key)) if **found == *reference => Some((*found, *key)),
        _ => keys.get_key_value(reference.as_str()),
    }
}
