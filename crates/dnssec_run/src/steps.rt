//! What the next report of each roll counts from, by a whole record: the roll's last step, and
//! since when the sets are published that the step left.
ghost use Rattle.std.specs.Prelude.{◌≡◌, map, if◌then◌else◌};
ghost use Rattle.dnssec_run.specs.Origins.{same_ids, same_set, set_at};
ghost use Rattle.dnssec_run.specs.Published.{id_of};
ghost use Rattle.dnssec_run.specs.Safe.{SetKind as AnyKind, kind_of, position_at};
ghost use Rattle.dnssec_run.specs.Steps.{AreStepsOf, origin_in};

use crate::caches::SetKind;
use crate::record::{Entry, PublishedKey};
use crate::running::{Origins, Steps};

impl Steps {
    /// The last step of each roll by a whole record: its last accepted start or end of its first
    /// wait. With it come the origins of the sets that were then published: the positions of the
    /// calls that brought them. A roll without such a call has no step.
    pub fn of_record(entries: &[Entry]) -> Self
        ensures { AreStepsOf entries.now result }
    {
        let mut steps = Steps::new();
        let mut origins = Origins::first();
        for (index, entry) in entries.iter().enumerate() {
            origins = origins.after(entries, index, index + 1);
            steps.note(entry.mark, index + 1, origins);
        }
        steps
    }
}

impl Origins {
    /// The origins before the first call: each set came at position 0, where nothing is published.
    fn first() -> Self
        ensures { (kind : AnyKind) → origin_in result kind ≡ 0 }
    {
        Origins {
            ds: 0,
            dnskey: 0,
            zone: 0,
        }
    }

    /// The origins of the sets that are published at position `at` of the record `entries`. `self`
    /// has those of the position `before`, which comes right before it. A kind of sets that is the
    /// same at both keeps its origin, and any other has the origin `at`.
    fn after(self, entries: &[Entry], before: usize, at: usize) -> Self
        ensures { (kind : AnyKind) → origin_in result kind
            ≡ (if same_set (set_at kind (position_at entries.now before))
            (set_at kind (position_at entries.now at)) then origin_in self kind else at) }
    {
        Origins {
            ds: self.after_of(SetKind::Ds, entries, before, at),
            dnskey: self.after_of(SetKind::Dnskey, entries, before, at),
            zone: self.after_of(SetKind::ZoneSigners, entries, before, at),
        }
    }

    /// The origin of the set of this kind that is published at position `at` of the record
    /// `entries`: the position of the call that brought it. `self` has the origins at the position
    /// `before`, which comes right before it. The answer is `at` if the keys of the set, or those
    /// that sign it, differ between the two positions, and else the origin in `self`.
    fn after_of(self, kind: SetKind, entries: &[Entry], before: usize, at: usize) -> usize
        ensures { result ≡ (if same_set (set_at (kind_of kind) (position_at entries.now before))
            (set_at (kind_of kind) (position_at entries.now at))
            then origin_in self (kind_of kind) else at) }
    {
        let (keys, signers) = set_at(kind, entries, before);
        let (next_keys, next_signers) = set_at(kind, entries, at);
        if are_same(keys, next_keys) && are_same(signers, next_signers) {
            self.of(kind)
        } else {
            at
        }
    }
}

/// The set of this kind that is published at a position of the record, as two lists of keys: its
/// keys, and the keys that sign it, which only a DNSKEY set has here. Positions count from 1. Both
/// lists are empty at position 0, and after the record's end.
fn set_at(kind: SetKind, entries: &[Entry], position: usize) -> (&[PublishedKey], &[PublishedKey])
    ensures { (map id_of result.0.now, map id_of result.1.now)
        ≡ set_at (kind_of kind) (position_at entries.now position) }
{
    let Some(index) = position.checked_sub(1) else {
        return (&[], &[]);
    };
    match entries.get(index) {
        Some(entry) => entry.published.of(kind),
        None => (&[], &[]),
    }
}

/// Whether the two lists have the same keys in the same order. A key is the same only if it has the
/// same reference and was added by the same call.
fn are_same(one: &[PublishedKey], other: &[PublishedKey]) -> bool
    ensures { result ≡ same_ids (map id_of one.now) (map id_of other.now) }
{
    let mut rest = one;
    for key in other {
        let Some((first, others)) = rest.split_first() else {
            return false;
        };
        if *first != *key {
            return false;
        }
        rest = others;
    }
    rest.is_empty()
}
