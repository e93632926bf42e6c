//! What changes in the published lists from one entry of a record to the next.
ghost use Rattle.std.specs.Prelude.{◌≡◌, ◌+◌, ◌<◌, ◌||◌, ℕ, map, length, false, not, true};
ghost use Rattle.std.specs.Prelude.{◌==◌, IfOk, IfSome};
ghost use Rattle.std.specs.Option.{option_copied, option_map_or};
ghost use Rattle.std.specs.{BTreeSet.contains, List.All, List.list_any, Ordering.nat_cmp};
ghost use Rattle.dnssec_run.specs.Between.{IsBetween, in_lists, lists_at};
ghost use Rattle.dnssec_run.specs.Changes.{LeadTo, add_of, has_added, list_at, moves_in};
ghost use Rattle.dnssec_run.specs.Origins.{same_ids, same_set, set_at};
ghost use Rattle.dnssec_run.specs.Published.{id_of};
ghost use Rattle.dnssec_run.specs.Safe.{blank, kind_of, position_at, position_of};

use crate::caches::SetKind;
use crate::lists::{ByList, Change, Shown, is_other};
use crate::record::{Entry, PublishedKey};
use std::alloc::{AllocError, Global};
use std::collections::BTreeSet;

/// The changes that lead from what is published after call `n` to what is after the next, one for
/// each key that comes into a list or leaves it. `None` if no such changes do, as when keys change
/// places in a list.
pub fn changes_after(
    alloc: Global,
    entries: &[Entry],
    n: usize,
) -> Result<Option<Vec<Change>>, AllocError>
    requires { n < length entries.now }
    ensures { IfOk result (λ found. IfSome found (λ changes. LeadTo add_of changes.items
        (position_at entries.now n) (position_at entries.now (n + 1)))) }
{
    let before = AddLists::at(alloc, entries, n)?;
    let now = AddLists::at(alloc, entries, n + 1)?;
    let moved = before.moved(alloc, &now)?;
    let changes = before.changes(alloc, &now, &moved)?;
    let slice = changes.as_slice();
    let changed = changed_adds(alloc, slice)?;
    if !lead(entries, n, Shown::Ds, &before.ds, &now.ds, &changed)
        || !lead(
            entries,
            n,
            Shown::Dnskey,
            &before.dnskey,
            &now.dnskey,
            &changed,
        )
        || !lead(
            entries,
            n,
            Shown::DnskeySigners,
            &before.signers,
            &now.signers,
            &changed,
        )
        || !lead(
            entries,
            n,
            Shown::ZoneSigners,
            &before.zone,
            &now.zone,
            &changed,
        )
        || !tell(slice, entries, n, SetKind::Ds)
        || !tell(slice, entries, n, SetKind::Dnskey)
        || !tell(slice, entries, n, SetKind::ZoneSigners)
    {
        return Ok(None);
    }
    Ok(Some(changes))
}

/// The four lists of a position, by the positions at which their keys were added.
#[derive(Drop)]
struct AddLists {
    ds: BTreeSet<usize>,
    dnskey: BTreeSet<usize>,
    signers: BTreeSet<usize>,
    zone: BTreeSet<usize>,
}

impl AddLists {
    /// The lists of position `n`. It fails only if there is no memory.
    fn at(alloc: Global, entries: &[Entry], n: usize) -> Result<Self, AllocError>
        ensures { IfOk result (λ lists. (a : ℕ) →
            in_lists lists a ≡ lists_at (position_at entries.now n) a) }
    {
        Ok(AddLists {
            ds: adds(alloc, keys_at(entries, n, Shown::Ds))?,
            dnskey: adds(alloc, keys_at(entries, n, Shown::Dnskey))?,
            signers: adds(alloc, keys_at(entries, n, Shown::DnskeySigners))?,
            zone: adds(alloc, keys_at(entries, n, Shown::ZoneSigners))?,
        })
    }

    /// The adds of the keys that are in a list only here, or only in `now`, each once.
    fn moved(&self, alloc: Global, now: &AddLists) -> Result<Vec<usize>, AllocError> {
        let mut moved = Vec::new(alloc);
        push_others(&mut moved, &self.ds, &now.ds)?;
        push_others(&mut moved, &self.dnskey, &now.dnskey)?;
        push_others(&mut moved, &self.signers, &now.signers)?;
        push_others(&mut moved, &self.zone, &now.zone)?;
        moved.sort_unstable();
        moved.dedup();
        Ok(moved)
    }

    /// What changes from these lists to `now` of the keys with these adds.
    fn changes(
        &self,
        alloc: Global,
        now: &AddLists,
        moved: &[usize],
    ) -> Result<Vec<Change>, AllocError>
        ensures { IfOk result (λ changes. All (IsBetween self.now now.now) changes.items) }
    {
        let mut changes = Vec::new(alloc);
        for added in moved {
            let added = *added;
            changes.push(Change {
                added,
                was: self.with(added),
                shown: now.with(added),
            })?;
        }
        Ok(changes)
    }

    /// Which of the lists have the key that was added at this position.
    fn with(&self, added: usize) -> ByList
        ensures { result ≡ in_lists self.now added }
    {
        ByList::by_flags(
            self.ds.contains(&added),
            self.dnskey.contains(&added),
            self.signers.contains(&added),
            self.zone.contains(&added),
        )
    }
}

/// Appends to `moved` the adds that only one of the two sets has. It fails only if there is no
/// memory.
fn push_others(
    moved: &mut Vec<usize>,
    one: &BTreeSet<usize>,
    other: &BTreeSet<usize>,
) -> Result<(), AllocError> {
    // By `push`: after a refusal `extend` asks for less, and goes on.
    for added in one.symmetric_difference(other) {
        moved.push(*added)?;
    }
    Ok(())
}

/// The positions at which these keys were added. It fails only if there is no memory.
fn adds(alloc: Global, keys: &[PublishedKey]) -> Result<BTreeSet<usize>, AllocError>
    ensures { IfOk result (λ set. (a : ℕ) →
        contains nat_cmp set a ≡ has_added (map id_of keys.now) a) }
{
    let mut set = BTreeSet::new(alloc);
    for key in keys {
        set.insert(key.added)?;
    }
    Ok(set)
}

/// The same of the keys of changes.
fn changed_adds(alloc: Global, changes: &[Change]) -> Result<BTreeSet<usize>, AllocError>
    ensures { IfOk result (λ set. (a : ℕ) →
        contains nat_cmp set a ≡ list_any (λ c. c.added == a) changes.now) }
{
    let mut set = BTreeSet::new(alloc);
    for change in changes {
        set.insert(change.added)?;
    }
    Ok(set)
}

/// Whether a list has the same adds after call `n` as after the next, except those in `changed`.
/// They are `before` and `now`.
fn lead(
    entries: &[Entry],
    n: usize,
    list: Shown,
    before: &BTreeSet<usize>,
    now: &BTreeSet<usize>,
    changed: &BTreeSet<usize>,
) -> bool
    requires { n < length entries.now }
    ensures { result ≡ true → (a : ℕ) →
        contains nat_cmp before.now a ≡ has_added (list_at list (position_at entries.now n)) a →
        contains nat_cmp now.now a ≡ has_added (list_at list (position_at entries.now (n + 1))) a →
        contains nat_cmp changed.now a ≡ false →
        contains nat_cmp now.now a ≡ contains nat_cmp before.now a }
{
    let left = have(now, changed, keys_at(entries, n, list));
    let came = have(before, changed, keys_at(entries, n + 1, list));
    left & came
}

/// Whether one of the two sets has the add of each of `keys`.
fn have(one: &BTreeSet<usize>, other: &BTreeSet<usize>, keys: &[PublishedKey]) -> bool
    ensures { result ≡ true → (a : ℕ) → has_added (map id_of keys.now) a ≡ true →
        (contains nat_cmp one.now a || contains nat_cmp other.now a) ≡ true }
{
    for key in keys {
        if !one.contains(&key.added) && !other.contains(&key.added) {
            return false;
        }
    }
    true
}

/// Whether the `changes` move a key of this kind exactly if another set of the kind is published
/// after the call that follows call `n`.
fn tell(changes: &[Change], entries: &[Entry], n: usize, kind: SetKind) -> bool
    requires { n < length entries.now }
    ensures { result ≡ true → same_set (set_at (kind_of kind) (position_at entries.now n))
        (set_at (kind_of kind) (position_at entries.now (n + 1)))
        ≡ not (list_any (moves_in (kind_of kind)) changes.now) }
{
    let is_other = is_other(changes, kind);
    match kind {
        SetKind::Ds => is_same(entries, n, Shown::Ds) != is_other,
        SetKind::Dnskey => {
            let keys = is_same(entries, n, Shown::Dnskey);
            (keys & is_same(entries, n, Shown::DnskeySigners)) != is_other
        }
        SetKind::ZoneSigners => is_same(entries, n, Shown::ZoneSigners) != is_other,
    }
}

/// Whether a list has the same keys after call `n` and after the next, in the same order.
fn is_same(entries: &[Entry], n: usize, list: Shown) -> bool
    requires { n < length entries.now }
    ensures { result ≡ same_ids (list_at list (position_at entries.now n))
        (list_at list (position_at entries.now (n + 1))) }
{
    keys_at(entries, n, list) == keys_at(entries, n + 1, list)
}

/// The keys of one of the four lists, the one that `shown` names, as published after call `n`.
/// There are none if `n` is 0, which stands for the new key set, or is past the end.
pub fn keys_at(entries: &[Entry], n: usize, shown: Shown) -> &[PublishedKey]
    ensures { map id_of result.now ≡ list_at shown (position_at entries.now n) }
{
    match entry_at(entries, n) {
        None => &[],
        Some(entry) => match shown {
            Shown::Ds => entry.published.ds.as_slice(),
            Shown::Dnskey => entry.published.dnskey.as_slice(),
            Shown::DnskeySigners => entry.published.dnskey_signers.as_slice(),
            Shown::ZoneSigners => entry.published.zone_signers.as_slice(),
        },
    }
}

/// The entry of call `n`, which is `entries[n - 1]`. `None` if `n` is 0, which stands for the new
/// key set before any call, or is past the end.
#[tactic(auto, unfolding(crate::specs::Safe::position_at))]
pub fn entry_at(entries: &[Entry], n: usize) -> Option<&Entry>
    ensures { position_at entries.now n ≡ option_map_or position_of (option_copied result) blank }
{
    if n == 0 {
        return None;
    }
    entries.get(n - 1)
}
