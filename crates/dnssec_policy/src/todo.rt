//! What to do next.
ghost use Rattle.std.specs.Prelude.{◌≡◌, ◌≢◌, ℕ, IfNone, IfSome};
ghost use Rattle.dnssec_keyset.specs.Step.{Call as AnyCall};
ghost use Rattle.dnssec_run.specs.Record.{call_of};
ghost use Rattle.dnssec_policy.specs.Code.{todo_of};
ghost use Rattle.dnssec_policy.specs.Next.{unless_by_hand, unless_lasting};
ghost use Rattle.dnssec_policy.specs.Stuck.{stuck};
ghost use Rattle.dnssec_policy.specs.Todo.{Make, cds_with, is_sooner, moment_of, rank, sooner};

use crate::by_hand::FirstByHand;
use crate::policy::KeyRole;
use crate::why::Why;
use dnssec_keyset::{Half, RollType, UnixTime};
use dnssec_run::{Call, SetKind};

/// What is asked of CDS and CDNSKEY.
#[derive(Clone, Copy, Debug, PartialEq)]
pub enum Cds {
    /// They go into the zone, for the keys that have to have a DS.
    In,
    /// They leave the zone.
    Out,
}

/// What to do next. A call is to be made with the moment at which it was said.
#[derive(Drop)]
pub enum Next<'a> {
    /// Make the report of this half of the roll, with this TTL in seconds.
    Report {
        roll: RollType,
        half: Half,
        ttl: u32,
    },
    /// Go on after the wait of this half of the roll.
    Wait {
        roll: RollType,
        half: Half,
    },
    /// End the roll.
    Done {
        roll: RollType,
    },
    /// Start the roll that takes out the keys `old` and takes in the keys `new`, by references.
    Start {
        roll: RollType,
        old: Vec<&'a str>,
        new: Vec<&'a str>,
    },
    /// Delete this key.
    Delete {
        reference: &'a str,
    },
    /// Note that the sets of this kind are published as they are due now, and publish them. With a
    /// DS set CDS goes in, until all servers of the parent give it.
    Publish {
        kind: SetKind,
    },
    /// Make a key of this role that the policy wants, and add it.
    NeedKey {
        role: KeyRole,
    },
    /// See whether all servers give what was published of this kind, and note it. Once they give a
    /// DS set CDS goes out, and it is noted only once no server gives CDS any more.
    Watch {
        kind: SetKind,
    },
    /// Do nothing before this nanosecond since 1970.
    NotBefore {
        moment: u128,
    },
    /// Do nothing, though the policy wants something.
    Stuck {
        why: Why,
    },
    /// Do nothing.
    Rest,
}

impl<'a> Next<'a> {
    /// The call to make: a report, the end of a wait or of a roll, a start, or a deletion. `None`
    /// for any other variant. `now` is the moment at which this was answered, and becomes that of
    /// the call if it has one.
    pub fn call(&self, now: UnixTime) -> Option<Call<'_>>
        ensures some { IfSome result (λ call. todo_of now self.now ≡ Make (call_of call)) }
        ensures none { IfNone result ((call : AnyCall) → todo_of now self.now ≢ Make call) }
    {
        match self {
            Next::Report {
                roll,
                half: Half::First,
                ttl,
            } => Some(Call::Propagation1Complete {
                rolltype: *roll,
                ttl: *ttl,
                now,
            }),
            Next::Report {
                roll,
                half: Half::Second,
                ttl,
            } => Some(Call::Propagation2Complete {
                rolltype: *roll,
                ttl: *ttl,
                now,
            }),
            Next::Wait {
                roll,
                half: Half::First,
            } => Some(Call::CacheExpired1 {
                rolltype: *roll,
                now,
            }),
            Next::Wait {
                roll,
                half: Half::Second,
            } => Some(Call::CacheExpired2 {
                rolltype: *roll,
                now,
            }),
            Next::Done { roll } => Some(Call::RollDone { rolltype: *roll }),
            Next::Start { roll, old, new } => Some(Call::StartRoll {
                rolltype: *roll,
                old: old.as_slice(),
                new: new.as_slice(),
                now,
            }),
            Next::Delete { reference } => Some(Call::DeleteKey { pubref: *reference }),
            _ => None,
        }
    }

    /// What to do with CDS and CDNSKEY when this is done, if anything. They go into the zone when a
    /// DS set is to be published (`In`). They leave it (`Out`) while that set is watched: once all
    /// servers of the parent give it, and before that is noted. `None` for anything else.
    pub fn cds(&self) -> Option<Cds>
        ensures { (now : ℕ) → result ≡ cds_with (todo_of now self.now) }
    {
        match self {
            Next::Publish { kind: SetKind::Ds } => Some(Cds::In),
            Next::Watch { kind: SetKind::Ds } => Some(Cds::Out),
            _ => None,
        }
    }

    /// What to answer if there is nothing to do: `Stuck` with the cause `why`, or `Rest` if `why`
    /// is `None`.
    pub(crate) fn without(why: Option<Why>) -> Next<'a>
        ensures { (now : ℕ) → todo_of now result ≡ stuck why }
    {
        match why {
            None => Next::Rest,
            Some(why) => Next::Stuck { why },
        }
    }

    /// `Stuck` with the cause `why`, if `self` is a moment to wait for and the cause stays until
    /// somebody acts, as all do but `TtlTooLong` and `Barred`. Otherwise `self` as it is, also if
    /// `why` is `None`. So nobody waits in vain.
    pub(crate) fn unless_lasting(self, why: Option<Why>) -> Next<'a>
        ensures { (now : ℕ) → todo_of now result ≡ unless_lasting why (todo_of now self.entry) }
    {
        match (why, self) {
            (Some(why), Next::NotBefore { .. }) if why.lasts() => Next::Stuck { why },
            (_, next) => next,
        }
    }

    /// `Stuck` with the position of the first call made by hand, if there was one, whatever `self`
    /// asks for. Otherwise `self` as it is.
    pub(crate) fn unless_by_hand(self, by_hand: FirstByHand) -> Next<'a>
        ensures { (now : ℕ) → todo_of now result ≡ unless_by_hand by_hand.at
            (todo_of now self.entry) }
    {
        match by_hand.position() {
            None => self,
            Some(at) => Next::Stuck {
                why: Why::ByHand { at },
            },
        }
    }

    /// How urgent this is: the smaller, the more urgent. 0 for a call, 1 to publish, 2 to make a
    /// key, 3 to watch, 4 for a moment to wait for, 5 for `Stuck`, and 6 for `Rest`.
    fn rank(&self) -> u8
        ensures { (now : ℕ) → result ≡ rank (todo_of now self.now) }
    {
        match self {
            Next::Report { .. }
            | Next::Wait { .. }
            | Next::Done { .. }
            | Next::Start { .. }
            | Next::Delete { .. } => 0,
            Next::Publish { .. } => 1,
            Next::NeedKey { .. } => 2,
            Next::Watch { .. } => 3,
            Next::NotBefore { .. } => 4,
            Next::Stuck { .. } => 5,
            Next::Rest => 6,
        }
    }

    /// The nanosecond since 1970 before which there is nothing to do, for a `NotBefore`. 0 for
    /// anything else.
    fn moment(&self) -> u128
        ensures { (now : ℕ) → result ≡ moment_of (todo_of now self.now) }
    {
        match self {
            Next::NotBefore { moment } => *moment,
            _ => 0,
        }
    }

    /// Whether `other` is more urgent than `self`, as its `rank` is smaller. Of two moments to wait
    /// for, the earlier is more urgent. False if both are equally urgent.
    fn is_sooner(&self, other: &Next<'_>) -> bool
        ensures { (now : ℕ) → result ≡ is_sooner (todo_of now self.now) (todo_of now other.now) }
    {
        let (one, two) = (self.rank(), other.rank());
        two < one || two == one && other.moment() < self.moment()
    }

    /// The more urgent of `self` and `other`, or `self` if both are equally urgent.
    pub(crate) fn or(self, other: Next<'a>) -> Next<'a>
        ensures { (now : ℕ) → todo_of now result ≡ sooner (todo_of now self.entry)
            (todo_of now other.entry) }
    {
        if self.is_sooner(&other) { other } else { self }
    }
}
