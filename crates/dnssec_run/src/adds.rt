//! What is known of each key that is there, by its reference.
ghost use Rattle.std.specs.Prelude.{◌≡◌, ◌≤◌, ◌+◌, ◌++◌, ℕ, List, None, Some, IfOk, IfSome, OnErr};
ghost use Rattle.std.specs.Prelude.{OnOk, map, string_bytes, vec_len, if◌then◌else◌};
ghost use Rattle.std.specs.HashMap as hash;
ghost use Rattle.std.specs.{List.insert, Option.option_map, Str.bytes_eq};
ghost use Rattle.dnssec_run.specs.Adds.{IsAscending, IsAt, IsInOrder, all_changes, changed_by};
ghost use Rattle.dnssec_run.specs.Adds.{entries_in, in-order-prop, listed_of, listing_in};
ghost use Rattle.dnssec_run.specs.Adds.{listing_of, new_listing, reread, reread_at, set_listing};

use crate::lists::{ByList, Change, KeyListing, Known, note_change};
use crate::many::{list_of, measure, put_in_tree, read_many, set_in_tree, tree_of};
use crate::walk_order::WalkOrder;
use dnssec_keyset::Key;
use std::alloc::{AllocError, Global};
use std::collections::{BTreeMap, HashMap};
use std::mem;

/// Up to this many keys stand in a list without room to spare.
pub(crate) const FEW: usize = 8;

/// Keys with what is known of them, in the order of their references.
#[derive(Drop)]
pub(crate) enum Kept {
    /// At most `FEW`, in a list without room to spare. A tree takes room for eleven at once.
    Few(Vec<Known>),
    Many(BTreeMap<String, KeyListing>),
}

/// What is known of each key that is there.
#[derive(Drop)]
pub(crate) struct Adds {
    pub(crate) kept: Kept,
    ghost in_order: { IsInOrder kept } by { in-order-prop kept },
}

impl Adds {
    /// No key is there. Keys take their memory from `alloc` as they come.
    pub(crate) fn new(alloc: Global) -> Self
        ensures { (q : List ℕ) → listing_in result.kept q ≡ None }
    {
        Adds {
            kept: Kept::Few(Vec::new(alloc)),
        }
    }

    /// A copy with the same keys, without room to spare if they are few. It takes its memory from
    /// `alloc`, and fails only if there is none.
    pub(crate) fn try_clone(&self, alloc: Global) -> Result<Self, AllocError>
        ensures { IfOk result (λ copy. (q : List ℕ) →
            listing_in copy.kept q ≡ listing_in self.now.kept q) }
    {
        let kept = match &self.kept {
            Kept::Few(keys) => Kept::Few(copy_of(alloc, keys)?),
            Kept::Many(tree) if tree.len() <= FEW => Kept::Few(list_of(alloc, tree)?),
            Kept::Many(tree) => {
                let copy = tree.clone()?;
                measure(&copy);
                Kept::Many(copy)
            }
        };
        Ok(Adds { kept })
    }

    /// Puts the key with this reference in, which was added at position `added`, and which no list
    /// has. Other keys stay. It fails only if there is no memory, and the keys are then of no more
    /// use.
    pub(crate) fn put(
        &mut self,
        alloc: Global,
        reference: String,
        added: usize,
    ) -> Result<(), AllocError>
        ensures { OnOk result ((q : List ℕ) → listing_in self.new.kept q
            ≡ (if bytes_eq (string_bytes reference) q then Some (new_listing added)
            else listing_in self.old.kept q)) }
    {
        if self.is_full() {
            self.make_tree(alloc)?;
        }
        let shown = ByList::NONE;
        let listing = KeyListing { added, shown };
        match &mut self.kept {
            Kept::Few(keys) => put_in(keys, reference, listing)?,
            Kept::Many(tree) => put_in_tree(tree, reference, listing)?,
        }
        Ok(())
    }

    /// Takes the key with this reference out, if it is there. Other keys stay.
    pub(crate) fn take(&mut self, reference: &str)
        ensures { (q : List ℕ) → listing_in self.new.kept q
            ≡ (if bytes_eq reference.now q then None else listing_in self.old.kept q) }
    {
        match &mut self.kept {
            Kept::Few(keys) => take_out(keys, reference),
            Kept::Many(tree) => {
                tree.remove(reference);
                measure(tree);
            }
        }
    }

    /// Notes that each list in `touched` has the key with this reference if `is` says so, and else
    /// doesn't have it. Other lists and other keys stay. Answers what this changes, or `None` if it
    /// changes nothing, as if there is no such key.
    #[inline(always)]
    pub(crate) fn set(&mut self, reference: &str, touched: ByList, is: ByList) -> Option<Change>
        ensures change { result ≡ changed_by touched is (listing_in self.old.kept reference.now) }
        ensures set { (q : List ℕ) → listing_in self.new.kept q
            ≡ (if bytes_eq reference.now q
            then option_map (set_listing touched is) (listing_in self.old.kept q)
            else listing_in self.old.kept q) }
    {
        match &mut self.kept {
            Kept::Few(keys) => set_in(keys, reference, touched, is),
            Kept::Many(tree) => {
                let change = set_in_tree(tree, reference, touched, is);
                measure(tree);
                change
            }
        }
    }

    /// Reads from the flags of each key of the key set which lists have it. Appends to `changes`
    /// what this changes, in the order of the references. `order` keeps that order for the next
    /// call. It fails only if there is no memory, and all these are then of no more use.
    #[inline(always)]
    pub(crate) fn read(
        &mut self,
        alloc: Global,
        keys: &HashMap<String, Key>,
        order: &mut WalkOrder,
        changes: &mut Vec<Change>,
    ) -> Result<(), AllocError>
        ensures changes { OnOk result (changes.new.items ≡ changes.old.items
            ++ all_changes (hash.get_by_text keys.now) (entries_in self.old.kept)) }
        ensures read { OnOk result ((q : List ℕ) → listing_in self.new.kept q
            ≡ option_map (reread (hash.get_by_text keys.now q)) (listing_in self.old.kept q)) }
    {
        match &mut self.kept {
            Kept::Few(list) => read_few(keys, list, changes),
            Kept::Many(tree) => {
                let read = read_many(alloc, keys, order, tree, changes);
                measure(tree);
                read
            }
        }
    }

    /// Whether one more key would be too many for a list.
    fn is_full(&self) -> bool {
        match &self.kept {
            Kept::Few(keys) => keys.len() >= FEW,
            Kept::Many(_) => false,
        }
    }

    /// Keeps the same keys in a tree from now on. It fails only if there is no memory, and the keys
    /// are then of no more use.
    fn make_tree(&mut self, alloc: Global) -> Result<(), AllocError>
        ensures { OnOk result ((q : List ℕ) →
            listing_in self.new.kept q ≡ listing_in self.old.kept q) }
    {
        let kept = mem::replace(&mut self.kept, Kept::Few(Vec::new(alloc)));
        self.kept = match kept {
            Kept::Few(keys) => Kept::Many(tree_of(alloc, keys)?),
            Kept::Many(tree) => Kept::Many(tree),
        };
        Ok(())
    }
}

/// A copy of the list `keys`, without room to spare. It takes its memory from `alloc`, and fails
/// only if there is none.
fn copy_of(alloc: Global, keys: &[Known]) -> Result<Vec<Known>, AllocError>
    ensures { IfOk result (λ copies. map listed_of copies.items ≡ map listed_of keys.now) }
{
    let mut copies = Vec::with_capacity(alloc, keys.len())?;
    for key in keys {
        copies.push(Known {
            listing: key.listing,
            reference: String::from_str(alloc, &key.reference)?,
        })?;
    }
    Ok(copies)
}

/// The index of the key with this reference in the list `keys`, or `None` if it isn't there.
#[inline(always)]
fn place_of(keys: &[Known], reference: &str) -> Option<usize>
    ensures some { IfSome result (λ place. IsAt keys.now place reference.now) }
    ensures none { result ≡ None → listing_of (map listed_of keys.now) reference.now ≡ None }
{
    for (place, key) in keys.iter().enumerate() {
        if key.reference.as_str() == reference {
            return Some(place);
        }
    }
    None
}

/// Notes in the list `keys` that each list in `touched` has the key with this reference if `is`
/// says so, and else doesn't have it. Answers what this changes, or `None` if it changes nothing,
/// as if there is no such key.
#[inline(always)]
fn set_in(keys: &mut Vec<Known>, reference: &str, touched: ByList, is: ByList) -> Option<Change>
    requires { IsAscending (map listed_of keys.old.items) }
    ensures ascending { IsAscending (map listed_of keys.new.items) }
    ensures change { result
        ≡ changed_by touched is (listing_of (map listed_of keys.old.items) reference.now) }
    ensures set { (q : List ℕ) → listing_of (map listed_of keys.new.items) q
        ≡ (if bytes_eq reference.now q
        then option_map (set_listing touched is) (listing_of (map listed_of keys.old.items) q)
        else listing_of (map listed_of keys.old.items) q) }
{
    let Some(place) = place_of(keys, reference) else {
        return None;
    };
    let listing = &mut keys[place].listing;
    let shown = listing.shown.choose(touched, is);
    listing.show(shown)
}

/// Puts a key into the list `keys` at its place in the order of the references, in place of the key
/// that has the same reference, if there is one. The list gets no room to spare. It fails only if
/// there is no memory, and the list is then as it was.
fn put_in(keys: &mut Vec<Known>, reference: String, listing: KeyListing) -> Result<(), AllocError>
    requires { IsAscending (map listed_of keys.old.items) }
    ensures ascending { IsAscending (map listed_of keys.new.items) }
    ensures put { OnOk result ((q : List ℕ) → listing_of (map listed_of keys.new.items) q
        ≡ (if bytes_eq (string_bytes reference) q then Some listing
        else listing_of (map listed_of keys.old.items) q)) }
{
    let found = keys.binary_search_by(|key| key.reference.as_str().cmp(reference.as_str()));
    let key = Known { listing, reference };
    match found {
        Ok(place) => keys[place] = key,
        Err(place) => {
            keys.reserve_exact(1)?;
            keys.insert(place, key)?;
        }
    }
    Ok(())
}

/// Takes the key with this reference out of the list `keys`, if it is there.
fn take_out(keys: &mut Vec<Known>, reference: &str)
    requires { IsAscending (map listed_of keys.old.items) }
    ensures ascending { IsAscending (map listed_of keys.new.items) }
    ensures taken { (q : List ℕ) → listing_of (map listed_of keys.new.items) q
        ≡ (if bytes_eq reference.now q then None
        else listing_of (map listed_of keys.old.items) q) }
{
    if let Ok(place) = keys.binary_search_by(|key| key.reference.as_str().cmp(reference)) {
        keys.remove(place);
    }
}

/// Reads from the flags of each key of the list `list` which lists have it, and appends to
/// `changes` what this changes. A key that isn't in the key set stays as it is. It fails only if
/// there is no memory, and both lists are then of no more use.
fn read_few(
    keys: &HashMap<String, Key>,
    list: &mut Vec<Known>,
    changes: &mut Vec<Change>,
) -> Result<(), AllocError>
    requires { IsAscending (map listed_of list.old.items) }
    ensures ascending { IsAscending (map listed_of list.new.items) }
    ensures read { OnOk result (map listed_of list.new.items
        ≡ map (reread_at (hash.get_by_text keys.now)) (map listed_of list.old.items)) }
    ensures changes { OnOk result (changes.new.items ≡ changes.old.items
        ++ all_changes (hash.get_by_text keys.now) (map listed_of list.old.items)) }
{
    for known in list.iter_mut() {
        let Some(key) = seek(keys, &known.reference) else {
            continue;
        };
        let change = known.listing.show(ByList::showing(key.keytype()));
        if let Some(change) = change {
            note_change(changes, change)?;
        }
    }
    Ok(())
}

/// The key with this reference, or `None` if there is none. It walks over all keys first: if these
/// are few, that costs less than a look-up.
fn seek<'a>(keys: &'a HashMap<String, Key>, reference: &String) -> Option<&'a Key>
    ensures { option_map (λ k. k.now) result
        ≡ hash.get_by_text keys.now (string_bytes reference.now) }
{
    for (found, key) in keys.iter() {
        if *found == *reference {
            return Some(key);
        }
    }
    keys.get(reference.as_str())
}
