//! Whether each key of a record is known by the position of its add, as in the record of a run.
ghost use Rattle.std.specs.Prelude.{◌≡◌, map, true};
ghost use Rattle.std.specs.List.{list_all};
ghost use Rattle.dnssec_run.specs.Changes.{list_at};
ghost use Rattle.dnssec_run.specs.declared.lists.Shown.{Shown as AnyShown};
ghost use Rattle.dnssec_run.specs.{Published.id_of, Safe.position_at};
ghost use Rattle.dnssec_judge.specs.Reading.{is_told};

use dnssec_run::{Entry, PublishedKey, Shown, keys_at};
use std::alloc::{AllocError, Global};
use std::collections::BTreeMap;

/// The keys of a record, by the positions of their adds. It fails only if there is no memory.
pub(crate) fn keys_of<'a>(
    alloc: Global,
    entries: &'a [Entry],
) -> Result<BTreeMap<usize, &'a PublishedKey>, AllocError> {
    let mut keys = BTreeMap::new(alloc);
    for entry in entries {
        let sets = &entry.published;
        for list in [
            &sets.ds,
            &sets.dnskey,
            &sets.dnskey_signers,
            &sets.zone_signers,
        ] {
            for key in list {
                keys.insert(key.added, key)?;
            }
        }
    }
    Ok(keys)
}

/// Whether each key that is published after call `n` is the one that `keys` has by its add.
pub(crate) fn are_told(keys: &BTreeMap<usize, &PublishedKey>, entries: &[Entry], n: usize) -> bool
    ensures { result ≡ true → (list : AnyShown) →
        list_all (is_told keys.now) (list_at list (position_at entries.now n)) ≡ true }
{
    let ds = all_told(keys, keys_at(entries, n, Shown::Ds));
    let dnskey = all_told(keys, keys_at(entries, n, Shown::Dnskey));
    let signers = all_told(keys, keys_at(entries, n, Shown::DnskeySigners));
    let zone = all_told(keys, keys_at(entries, n, Shown::ZoneSigners));
    ds & dnskey & signers & zone
}

/// The same of the keys of one list. No call stands at position 0, so it has no add.
fn all_told(keys: &BTreeMap<usize, &PublishedKey>, list: &[PublishedKey]) -> bool
    ensures { result ≡ true → list_all (is_told keys.now) (map id_of list.now) ≡ true }
{
    for key in list {
        if key.added == 0 || !is_told(keys, key) {
            return false;
        }
    }
    true
}

/// Whether this is the key that `keys` has by its add.
fn is_told(keys: &BTreeMap<usize, &PublishedKey>, key: &PublishedKey) -> bool
    ensures { result ≡ is_told keys.now (id_of key.now) }
{
    match keys.get(&key.added) {
        Some(other) => **other == *key,
        None => false,
    }
}
