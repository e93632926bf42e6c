//! What is known of many keys, in a tree by their references.
ghost use Rattle.std.specs.Prelude.{◌≡◌, ◌++◌, ℕ, List, None, Some, IfOk, OnOk, map, string_bytes};
ghost use Rattle.std.specs.Prelude.{if◌then◌else◌, true};
ghost use Rattle.std.specs.HashMap as hash;
ghost use Rattle.std.specs.{BTreeMap.get_by_text, Option.option_map, Str.bytes_eq};
ghost use Rattle.dnssec_run.specs.Adds.{IsAscending, all_changes, by_text, changed_by, listed_of};
ghost use Rattle.dnssec_run.specs.Adds.{fits_in_order, listing_of, reread, set_listing};

use crate::lists::{ByList, Change, KeyListing, Known, note_change};
use crate::walk_order::{WalkOrder, entry_at};
use dnssec_keyset::Key;
use std::alloc::{AllocError, Global};
use std::collections::{BTreeMap, HashMap};

/// A tree with the keys of a list. It fails only if there is no memory.
pub(crate) fn tree_of(
    alloc: Global,
    keys: Vec<Known>,
) -> Result<BTreeMap<String, KeyListing>, AllocError>
    requires { IsAscending (map listed_of keys.items) }
    ensures same { IfOk result (λ tree. (q : List ℕ) →
        get_by_text tree q ≡ listing_of (map listed_of keys.items) q) }
    ensures fits { IfOk result (λ tree. fits_in_order (by_text tree.entries) ≡ true) }
{
    let mut tree = BTreeMap::new(alloc);
    for Known { listing, reference } in keys {
        tree.insert(reference, listing)?;
    }
    measure(&tree);
    Ok(tree)
}

/// How many keys a tree has. If it is asked that, it says of itself that they are in order, and no
/// more than a list can have. So it is asked after each change.
#[inline(always)]
pub(crate) fn measure(tree: &BTreeMap<String, KeyListing>) -> usize
    ensures { fits_in_order (by_text tree.now.entries) ≡ true }
{
    tree.len()
}

/// A list with the keys of a tree, without room to spare. It fails only if there is no memory.
pub(crate) fn list_of(
    alloc: Global,
    tree: &BTreeMap<String, KeyListing>,
) -> Result<Vec<Known>, AllocError>
    ensures ascending { IfOk result (λ keys. IsAscending (map listed_of keys.items)) }
    ensures same { IfOk result (λ keys. (q : List ℕ) →
        listing_of (map listed_of keys.items) q ≡ get_by_text tree.now q) }
{
    let mut keys = Vec::with_capacity(alloc, tree.len())?;
    for (reference, listing) in tree.iter() {
        keys.push(Known {
            listing: *listing,
            reference: reference.clone()?,
        })?;
    }
    Ok(keys)
}

/// Puts a key into the tree, in place of the key that has the same reference, if there is one. It
/// fails only if there is no memory, and the tree is then as it was.
pub(crate) fn put_in_tree(
    tree: &mut BTreeMap<String, KeyListing>,
    reference: String,
    listing: KeyListing,
) -> Result<(), AllocError>
    ensures put { OnOk result ((q : List ℕ) → get_by_text tree.new q
        ≡ (if bytes_eq (string_bytes reference) q then Some listing
        else get_by_text tree.old q)) }
    ensures fits { fits_in_order (by_text tree.new.entries) ≡ true }
{
    let put = tree.insert(reference, listing);
    measure(tree);
    put?;
    Ok(())
}

/// Notes that each list in `touched` has the key with this reference if `is` says so, and else
/// doesn't have it. Answers what this changes, or `None` if it changes nothing, as if there is no
/// such key.
#[inline(never)]
pub(crate) fn set_in_tree(
    tree: &mut BTreeMap<String, KeyListing>,
    reference: &str,
    touched: ByList,
    is: ByList,
) -> Option<Change>
    ensures change { result ≡ changed_by touched is (get_by_text tree.old reference.now) }
    ensures set { (q : List ℕ) → get_by_text tree.new q ≡ (if bytes_eq reference.now q
        then option_map (set_listing touched is) (get_by_text tree.old q)
        else get_by_text tree.old q) }
{
    let Some(listing) = tree.get_mut(reference) else {
        return None;
    };
    let shown = listing.shown.choose(touched, is);
    listing.show(shown)
}

/// Reads from the flags of each key which lists have it, and appends to `changes` what this
/// changes, in the order of the references. A key that isn't in the key set stays as it is. `order`
/// keeps that order for the next call. It fails only if there is no memory, and all these are then
/// of no more use.
#[inline(never)]
pub(crate) fn read_many(
    alloc: Global,
    keys: &HashMap<String, Key>,
    order: &mut WalkOrder,
    tree: &mut BTreeMap<String, KeyListing>,
    changes: &mut Vec<Change>,
) -> Result<(), AllocError>
    ensures read { OnOk result ((q : List ℕ) → get_by_text tree.new q
        ≡ option_map (reread (hash.get_by_text keys.now q)) (get_by_text tree.old q)) }
    ensures changes { OnOk result (changes.new.items ≡ changes.old.items
        ++ all_changes (hash.get_by_text keys.now) (by_text tree.old.entries)) }
{
    let entries = order.walk(alloc, keys)?;
    let mut moved = Vec::new(alloc);
    let mut rank = 0usize;
    for (reference, listing) in tree.iter() {
        let found = entry_at(keys, &entries, &order.places, rank, reference);
        rank = rank.saturating_add(1);
        let Some((reference, key)) = found else {
            continue;
        };
        let mut now = *listing;
        if let Some(change) = now.show(ByList::showing(key.keytype())) {
            note_change(changes, change)?;
            moved.push((reference, key))?;
        }
    }
    // Few keys change at a time. A tree lends all its values to be changed only one by one.
    for (reference, key) in &moved {
        if let Some(listing) = tree.get_mut(reference.as_str()) {
            listing.shown = ByList::showing(key.keytype());
        }
    }
    Ok(())
}
