//! What a run leaves: its entries, with what was published at each position.
ghost use Rattle.std.specs.Prelude.{◌≡◌, map};
ghost use Rattle.dnssec_run.specs.Origins.{set_in};
ghost use Rattle.dnssec_run.specs.Published.{id_of};
ghost use Rattle.dnssec_run.specs.Safe.{kind_of};

use crate::caches::SetKind;
use dnssec_keyset::{Action, Error, KeySet, RollType, UnixTime};
use std::alloc::Global;

/// What a call answered.
#[derive(Debug, Drop, PartialEq)]
pub enum Reply {
    /// An add, a setter or a deletion was accepted.
    Done,
    /// A call on a roll was accepted, and these actions are due.
    Actions(Vec<Action>),
    /// The call was refused, and changed nothing.
    Refused(Error),
}

/// A key of a record: a reference, and the position of the call that added it. A reference that is
/// used again after a deletion is another key.
#[derive(Debug, Drop, PartialEq)]
pub struct PublishedKey {
    /// The position of its add, counted from 1. It stands first, so that keys are compared by it
    /// before their references.
    pub added: usize,
    pub reference: String,
}

/// What is published at a position. Each list is in the order of its references' bytes, and has no
/// key twice.
#[derive(Debug, Drop, PartialEq)]
pub struct Published {
    /// The keys that have to have a DS record at the parent.
    pub ds: Vec<PublishedKey>,
    /// The keys of the DNSKEY set.
    pub dnskey: Vec<PublishedKey>,
    /// The keys that sign the DNSKEY set.
    pub dnskey_signers: Vec<PublishedKey>,
    /// The keys that sign the zone.
    pub zone_signers: Vec<PublishedKey>,
}

impl Published {
    /// The published set of this kind as two lists of keys: its keys, and the keys that sign it.
    /// The second list is empty unless it is the DNSKEY set. For `ZoneSigners` the first one has
    /// the keys that sign the zone.
    pub fn of(&self, kind: SetKind) -> (&[PublishedKey], &[PublishedKey])
        ensures { (map id_of result.0.now, map id_of result.1.now)
            ≡ set_in (kind_of kind) self.now }
    {
        match kind {
            SetKind::Ds => (self.ds.as_slice(), &[]),
            SetKind::Dnskey => (self.dnskey.as_slice(), self.dnskey_signers.as_slice()),
            SetKind::ZoneSigners => (self.zone_signers.as_slice(), &[]),
        }
    }
}

/// What an accepted call means for the caches that hold what was published before.
#[derive(Clone, Copy, Debug, PartialEq)]
pub enum Mark {
    /// Any other call, and each refused one. It may change what is published, as the end of a
    /// second wait or a setter does.
    Other,
    /// A start of the roll, or the end of its first wait: what its next report counts from.
    Step(RollType),
    /// A report of the roll, with the TTL that it was given, in seconds. If the report is true, no
    /// cache holds older data for longer than that.
    Report {
        roll: RollType,
        /// Whether it is the second report of the roll.
        second: bool,
        ttl: u32,
    },
}

/// One position of a record: a call's reply, and what was published after it.
#[derive(Debug, Drop, PartialEq)]
pub struct Entry {
    pub reply: Reply,
    /// The moment that the call was given as `now`, also if it was refused. The creation of a key
    /// is no such moment, nor is the time of a stamp that is set by hand.
    pub moment: Option<UnixTime>,
    pub mark: Mark,
    pub published: Published,
}

/// What a call came to: its entry without the sets.
#[derive(Drop)]
pub struct Outcome {
    pub reply: Reply,
    /// The moment that the call was given as `now`, as in its entry.
    pub moment: Option<UnixTime>,
    pub mark: Mark,
    /// Whether the call may have changed what is published: its reply asks to publish a set, or it
    /// set a key by hand and so changed a set. If not, the sets are those of the position before.
    pub may_publish: bool,
}

/// A key set after its calls, with one entry for each: `entries[i]` is that of position `i + 1`.
#[derive(Drop)]
pub struct Run {
    pub keyset: KeySet,
    pub entries: Vec<Entry>,
}
