//! Calls as values.
ghost use Rattle.std.specs.Prelude.{◌≡◌, IfOk};
ghost use Rattle.std.specs.Option.{option_map};
ghost use Rattle.dnssec_keyset.specs.Step.{Step, reply_done, reply_list};
ghost use Rattle.dnssec_run.specs.Asked.{sets_shown};
ghost use Rattle.dnssec_run.specs.Recorder.{put_by, reference_deleted, reference_set};
ghost use Rattle.dnssec_run.specs.{Lists.at_list, Recorder.shown_by, Recorder.taken_by};
ghost use Rattle.dnssec_run.specs.Record.{call_of, mark_of, call_moment, reference_added, reply_of};
ghost use Rattle.dnssec_run.specs.declared.lists.Shown.{Shown};

use crate::lists::ByList;
use crate::record::{Mark, Reply};
use dnssec_base::SecurityAlgorithm;
use dnssec_keyset::{Action, Available, Error, KeySet, RollType, UnixTime};
use std::alloc::AllocError;

/// A call that can change a key set, with its arguments.
///
/// Each variant is named after the call of `KeySet` that it makes.
#[derive(Drop)]
pub enum Call<'a> {
    AddKeyKsk {
        pubref: String,
        privref: Option<String>,
        algorithm: SecurityAlgorithm,
        key_tag: u16,
        creation_ts: UnixTime,
        available: Available,
    },
    AddKeyZsk {
        pubref: String,
        privref: Option<String>,
        algorithm: SecurityAlgorithm,
        key_tag: u16,
        creation_ts: UnixTime,
        available: Available,
    },
    AddKeyCsk {
        pubref: String,
        privref: Option<String>,
        algorithm: SecurityAlgorithm,
        key_tag: u16,
        creation_ts: UnixTime,
        available: Available,
    },
    AddPublicKey {
        pubref: String,
        algorithm: SecurityAlgorithm,
        key_tag: u16,
        creation_ts: UnixTime,
        available: bool,
    },
    SetDecoupled {
        pubref: &'a str,
        value: bool,
    },
    SetPresent {
        pubref: &'a str,
        value: bool,
        now: UnixTime,
    },
    SetSigner {
        pubref: &'a str,
        value: bool,
    },
    SetAtParent {
        pubref: &'a str,
        value: bool,
    },
    SetStale {
        pubref: &'a str,
    },
    SetVisible {
        pubref: &'a str,
        time: UnixTime,
    },
    SetDsVisible {
        pubref: &'a str,
        time: UnixTime,
    },
    SetRrsigVisible {
        pubref: &'a str,
        time: UnixTime,
    },
    DeleteKey {
        pubref: &'a str,
    },
    StartRoll {
        rolltype: RollType,
        old: &'a [&'a str],
        new: &'a [&'a str],
        now: UnixTime,
    },
    Propagation1Complete {
        rolltype: RollType,
        ttl: u32,
        now: UnixTime,
    },
    CacheExpired1 {
        rolltype: RollType,
        now: UnixTime,
    },
    Propagation2Complete {
        rolltype: RollType,
        ttl: u32,
        now: UnixTime,
    },
    CacheExpired2 {
        rolltype: RollType,
        now: UnixTime,
    },
    RollDone {
        rolltype: RollType,
    },
    AbortRoll {
        rolltype: RollType,
    },
}

/// Which key a call adds or deletes.
#[derive(Drop)]
pub(crate) enum KeyChange<'a> {
    /// It adds the key with this reference.
    Adds(String),
    /// It deletes the key with this reference.
    Deletes(&'a str),
    /// It neither adds nor deletes a key.
    Nothing,
}

/// What a call means, read before it is made.
#[derive(Drop)]
pub(crate) struct Meaning<'a> {
    /// The moment that the call is given as `now`, if any.
    pub(crate) moment: Option<UnixTime>,
    /// What it means for the caches, if it is accepted.
    pub(crate) mark: Mark,
    /// The reference of the key that it sets by hand, if any.
    pub(crate) reference_set: Option<&'a str>,
    /// The published lists that show what it sets by hand.
    pub(crate) sets_shown: ByList,
    /// Whether these lists show that key after the call, if the call alone says so.
    pub(crate) is_shown: Option<bool>,
    /// Which key it adds or deletes, if it is accepted.
    pub(crate) change: KeyChange<'a>,
}

impl Meaning<'_> {
    /// What the end of a roll means: no moment, no key, and nothing for the caches.
    const NONE: Meaning<'static> = Meaning {
        moment: None,
        mark: Mark::Other,
        reference_set: None,
        sets_shown: ByList::NONE,
        is_shown: None,
        change: KeyChange::Nothing,
    };
}

impl<'a> Call<'a> {
    /// What the call means for a record. It is read from the arguments alone, before the call is
    /// made: the moment, the mark (what it means for caches), the key that is set by hand, the
    /// lists that show this, whether they then have the key, and the key that is added or deleted.
    ///
    /// # Errors
    ///
    /// If there is no memory for the reference of the key that it adds.
    // Inline, so that no meaning passes through memory.
    #[inline(always)]
    pub(crate) fn meaning(&self) -> Result<Meaning<'a>, AllocError>
        ensures moment { IfOk result (λ means. means.moment ≡ call_moment self.now) }
        ensures mark { IfOk result (λ means. means.mark ≡ mark_of self.now) }
        ensures only { IfOk result (λ means. option_map (λ r. r.now) means.reference_set
            ≡ reference_set (call_of self.now)) }
        ensures shown { IfOk result (λ means. (list : Shown) →
            at_list means.sets_shown list ≡ sets_shown list (call_of self.now)) }
        ensures says { IfOk result (λ means. means.is_shown ≡ shown_by (call_of self.now)) }
        ensures put { IfOk result (λ means. put_by means.change
            ≡ reference_added (call_of self.now)) }
        ensures taken { IfOk result (λ means. taken_by means.change
            ≡ reference_deleted (call_of self.now)) }
    {
        // By value: a borrowed field has the whole call copied, 47 instructions of each line.
        match *self {
            Call::AddKeyKsk { ref pubref, .. }
            | Call::AddKeyZsk { ref pubref, .. }
            | Call::AddKeyCsk { ref pubref, .. }
            | Call::AddPublicKey { ref pubref, .. } => Ok(Meaning {
                change: KeyChange::Adds(pubref.clone()?),
                ..Meaning::NONE
            }),
            Call::DeleteKey { pubref } => Ok(Meaning {
                change: KeyChange::Deletes(pubref),
                ..Meaning::NONE
            }),
            Call::SetDecoupled { pubref, .. }
            | Call::SetVisible { pubref, .. }
            | Call::SetDsVisible { pubref, .. }
            | Call::SetRrsigVisible { pubref, .. } => Ok(Meaning {
                reference_set: Some(pubref),
                ..Meaning::NONE
            }),
            Call::SetPresent { pubref, value, now } => Ok(Meaning {
                moment: Some(now),
                reference_set: Some(pubref),
                sets_shown: ByList::DNSKEY,
                is_shown: Some(value),
                ..Meaning::NONE
            }),
            Call::SetSigner { pubref, value } => Ok(Meaning {
                reference_set: Some(pubref),
                sets_shown: ByList::DNSKEY_SIGNERS.with(ByList::ZONE_SIGNERS),
                is_shown: if value { None } else { Some(false) },
                ..Meaning::NONE
            }),
            Call::SetAtParent { pubref, value } => Ok(Meaning {
                reference_set: Some(pubref),
                sets_shown: ByList::DS,
                is_shown: Some(value),
                ..Meaning::NONE
            }),
            Call::SetStale { pubref } => Ok(Meaning {
                reference_set: Some(pubref),
                sets_shown: ByList::ALL,
                is_shown: Some(false),
                ..Meaning::NONE
            }),
            Call::StartRoll { rolltype, now, .. } | Call::CacheExpired1 { rolltype, now } => {
                Ok(Meaning {
                    moment: Some(now),
                    mark: Mark::Step(rolltype),
                    ..Meaning::NONE
                })
            }
            Call::Propagation1Complete { rolltype, ttl, now }
            | Call::Propagation2Complete { rolltype, ttl, now } => Ok(Meaning {
                moment: Some(now),
                mark: Mark::Report {
                    roll: rolltype,
                    second: matches!(self, Call::Propagation2Complete { .. }),
                    ttl,
                },
                ..Meaning::NONE
            }),
            Call::CacheExpired2 { now, .. } => Ok(Meaning {
                moment: Some(now),
                ..Meaning::NONE
            }),
            Call::RollDone { .. } | Call::AbortRoll { .. } => Ok(Meaning::NONE),
        }
    }

    /// Makes the call on the key set, and answers its reply. A refused call leaves `set` as it was.
    // Inline, so that no call is copied for it. Adds, setters and the deletion share one answer,
    // so that only one is cleared.
    #[inline(always)]
    pub(crate) fn make(self, set: &mut KeySet) -> Reply
        ensures { Step set.old (call_of self.entry) (reply_of result) set.new }
    {
        reply_done(match self {
            Call::AddKeyKsk {
                pubref,
                privref,
                algorithm,
                key_tag,
                creation_ts,
                available,
            } => set.add_key_ksk(pubref, privref, algorithm, key_tag, creation_ts, available),
            Call::AddKeyZsk {
                pubref,
                privref,
                algorithm,
                key_tag,
                creation_ts,
                available,
            } => set.add_key_zsk(pubref, privref, algorithm, key_tag, creation_ts, available),
            Call::AddKeyCsk {
                pubref,
                privref,
                algorithm,
                key_tag,
                creation_ts,
                available,
            } => set.add_key_csk(pubref, privref, algorithm, key_tag, creation_ts, available),
            Call::AddPublicKey {
                pubref,
                algorithm,
                key_tag,
                creation_ts,
                available,
            } => set.add_public_key(pubref, algorithm, key_tag, creation_ts, available),
            Call::SetDecoupled { pubref, value } => set.set_decoupled(pubref, value),
            Call::SetPresent { pubref, value, now } => set.set_present(pubref, value, &now),
            Call::SetSigner { pubref, value } => set.set_signer(pubref, value),
            Call::SetAtParent { pubref, value } => set.set_at_parent(pubref, value),
            Call::SetStale { pubref } => set.set_stale(pubref),
            Call::SetVisible { pubref, time } => set.set_visible(pubref, time),
            Call::SetDsVisible { pubref, time } => set.set_ds_visible(pubref, time),
            Call::SetRrsigVisible { pubref, time } => set.set_rrsig_visible(pubref, time),
            Call::DeleteKey { pubref } => set.delete_key(pubref),
            Call::StartRoll {
                rolltype,
                old,
                new,
                now,
            } => return reply_list(set.start_roll(rolltype, old, new, &now)),
            Call::Propagation1Complete { rolltype, ttl, now } => {
                return reply_list(set.propagation1_complete(rolltype, ttl, &now));
            }
            Call::CacheExpired1 { rolltype, now } => {
                return reply_list(set.cache_expired1(rolltype, &now));
            }
            Call::Propagation2Complete { rolltype, ttl, now } => {
                return reply_list(set.propagation2_complete(rolltype, ttl, &now));
            }
            Call::CacheExpired2 { rolltype, now } => {
                return reply_list(set.cache_expired2(rolltype, &now));
            }
            Call::RollDone { rolltype } => return reply_list(set.roll_done(rolltype)),
            Call::AbortRoll { rolltype } => return reply_list(set.abort_roll(rolltype)),
        })
    }
}

/// The reply to an add, a setter or a deletion, from what the key set answered: `Done`, or the
/// cause of the refusal.
fn reply_done(answer: Result<(), Error>) -> Reply
    ensures { reply_of result ≡ reply_done answer }
{
    match answer {
        Ok(()) => Reply::Done,
        Err(cause) => Reply::Refused(cause),
    }
}

/// The reply to a call on a roll, from what the key set answered: the actions that are due, or the
/// cause of the refusal.
fn reply_list(answer: Result<Vec<Action>, Error>) -> Reply
    ensures { reply_of result ≡ reply_list answer }
{
    match answer {
        Ok(actions) => Reply::Actions(actions),
        Err(cause) => Reply::Refused(cause),
    }
}
