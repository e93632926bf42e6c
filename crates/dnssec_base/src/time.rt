//! Moments, and the stamps of a key: when it passed the stages of its life.
ghost use Rattle.std.specs.Prelude.{◌≡◌, ◌+◌, ◌-◌, ◌*◌, ◌^◌, ◌<◌, ◌↔◌, IsTrue, Some};
ghost use Rattle.std.specs.Duration.{as_nanos};
ghost use Rattle.dnssec_base.specs.Stamps.{stamp_named, no_stamps, with_stamp};

use crate::timestamp::Timestamp;
use std::marker::Model;
use std::ops::Add;
use std::time::Duration;

/// A moment: the time since the start of 1970.
///
/// Nothing here reads a clock. The caller reads its own, and hands the moment in.
///
/// ```rust
/// let reported = UnixTime::from(Timestamp::from(1_700_000_000));
/// let ttl = Duration::from_secs(3600);
/// if reported.fits(ttl) {
///     // What a cache took before the report, under at most this TTL, has expired by then.
///     let expired = reported + ttl;
/// }
/// ```
#[derive(Clone, Copy, Debug, PartialEq, Eq, PartialOrd, Ord)]
pub struct UnixTime {
    secs: u64,
    nanos: u32,
}

impl Model for UnixTime {
    ghost use Rattle.std.specs.Prelude.{ℕ};
    ghost use Rattle.std.specs.Coded.{coded_ℕ};

    ghost Value = { ℕ };

    ghost coded = { coded_ℕ };

    ghost use Rattle.dnssec_base.specs.Moment.{moment_of, IsMoment, inside_of, inside_of-moment_of};

    ghost view = { moment_of };

    ghost invariant = { IsMoment };

    ghost inverse = { inside_of };

    ghost inverse_ok = { inside_of-moment_of };
}

impl From<Duration> for UnixTime {
    ghost from_gives = { λ since moment. moment ≡ as_nanos since };

    /// The moment that lies the duration `since` after the start of 1970.
    fn from(since: Duration) -> Self {
        UnixTime {
            secs: since.as_secs(),
            nanos: since.subsec_nanos(),
        }
    }
}

impl From<Timestamp> for UnixTime {
    ghost from_gives = { λ timestamp moment. moment ≡ timestamp * 1_000_000_000 };

    /// The moment that a DNSSEC timestamp names: so many whole seconds after the start of 1970.
    fn from(timestamp: Timestamp) -> Self {
        UnixTime {
            secs: u64::from(timestamp.into_int()),
            nanos: 0,
        }
    }
}

impl From<UnixTime> for Duration {
    ghost from_gives = { λ moment since. as_nanos since ≡ moment };

    /// The time from the start of 1970 to the moment, to the nanosecond.
    fn from(moment: UnixTime) -> Self {
        moment.since_epoch()
    }
}

impl Add<Duration> for UnixTime {
    type Output = UnixTime;

    ghost can_add = { λ moment d. moment + as_nanos d < 2 ^ 64 * 1_000_000_000 };

    ghost add_gives = { λ moment d sum. sum ≡ moment + as_nanos d };

    /// The moment that lies `d` after this one. There has to be one: `fits` says whether its time
    /// since 1970 fits a `Duration`.
    fn add(self, d: Duration) -> UnixTime {
        UnixTime::from(self.since_epoch() + d)
    }
}

impl UnixTime {
    /// Whether there is a moment `d` after this one, so that `+` may add them: its time since 1970
    /// has to fit a `Duration`, which counts whole seconds in a `u64`.
    pub fn fits(&self, d: Duration) -> bool
        ensures { IsTrue result ↔ (self.now + as_nanos d < 2 ^ 64 * 1_000_000_000) }
    {
        self.since_epoch().checked_add(d).is_some()
    }

    /// How long ago this moment was at `now`: zero if it lies ahead.
    pub fn elapsed(&self, now: &UnixTime) -> Duration
        ensures { as_nanos result ≡ now.now - self.now }
    {
        now.since_epoch().saturating_sub(self.since_epoch())
    }

    /// The time from the start of 1970 to this moment, to the nanosecond.
    fn since_epoch(&self) -> Duration
        ensures { as_nanos result ≡ self.now }
    {
        Duration::new(self.secs, self.nanos)
    }
}

/// A stamp that an event may write, by its name.
#[derive(Clone, Copy, Debug, PartialEq, Eq)]
pub enum Stamp {
    Published,
    Visible,
    DsVisible,
    RrsigVisible,
    Withdrawn,
}

/// When a key passed the stages of its life. A stage that it has not passed has no stamp.
#[derive(Clone, Copy, Debug, Default)]
pub struct KeyTimestamps {
    pub(crate) creation: Option<UnixTime>,
    pub(crate) published: Option<UnixTime>,
    pub(crate) visible: Option<UnixTime>,
    pub(crate) ds_visible: Option<UnixTime>,
    pub(crate) rrsig_visible: Option<UnixTime>,
    pub(crate) withdrawn: Option<UnixTime>,
}

impl Model for KeyTimestamps {
    ghost use Rattle.dnssec_base.specs.Stamps.{Stamps};

    ghost Value = { Stamps };

    ghost view = { λ t. record {
      creation = t.creation;
      published = t.published;
      visible = t.visible;
      ds_visible = t.ds_visible;
      rrsig_visible = t.rrsig_visible;
      withdrawn = t.withdrawn;
    } };

    ghost inverse = { λ t. record {
      creation = t.creation;
      published = t.published;
      visible = t.visible;
      ds_visible = t.ds_visible;
      rrsig_visible = t.rrsig_visible;
      withdrawn = t.withdrawn;
    } };
}

impl KeyTimestamps {
    /// The moment when the key was made. `None` only in default stamps, which no key has.
    pub fn creation(&self) -> Option<UnixTime>
        ensures { result ≡ self.now.creation }
    {
        self.creation
    }

    /// The moment when a roll last put the key into the DNSKEY set, or when `set_present` did so
    /// for a key without this stamp. A `KskDoubleDsRoll` also writes it on a KSK with a DS that
    /// stays and was in the set before. `None` if nothing has written it.
    pub fn published(&self) -> Option<UnixTime>
        ensures { result ≡ self.now.published }
    {
        self.published
    }

    /// The moment at which all servers were last reported to have the key in the DNSKEY set, or the
    /// one that `set_visible` gave. `None` if neither has happened.
    pub fn visible(&self) -> Option<UnixTime>
        ensures { result ≡ self.now.visible }
    {
        self.visible
    }

    /// The moment at which all servers of the parent were last reported to have the key's DS
    /// record, or the one that `set_ds_visible` gave. `None` if neither has happened.
    pub fn ds_visible(&self) -> Option<UnixTime>
        ensures { result ≡ self.now.ds_visible }
    {
        self.ds_visible
    }

    /// The moment at which all servers were last reported to have the key's signatures, or the one
    /// that `set_rrsig_visible` gave. `None` if neither has happened.
    pub fn rrsig_visible(&self) -> Option<UnixTime>
        ensures { result ≡ self.now.rrsig_visible }
    {
        self.rrsig_visible
    }

    /// The moment when a roll last took the key out of the DNSKEY set, or, by a `KskDoubleDsRoll`,
    /// its DS record out of the parent. A later roll may also write it on an old key that left
    /// before and wasn't deleted. `None` if no roll has written it.
    pub fn withdrawn(&self) -> Option<UnixTime>
        ensures { result ≡ self.now.withdrawn }
    {
        self.withdrawn
    }
}

/// The stamps of a key that was made at the moment `creation` and has passed no other stage: all
/// other stamps are `None`.
pub fn new_stamps(creation: UnixTime) -> KeyTimestamps
    ensures { result ≡ record no_stamps { creation = Some creation } }
{
    KeyTimestamps {
        creation: Some(creation),
        ..KeyTimestamps::default()
    }
}

/// The moment that `stamps` have for the event `stamp`, or `None` if this stamp wasn't written.
pub fn stamp_named(stamps: &KeyTimestamps, stamp: Stamp) -> Option<UnixTime>
    ensures { result ≡ stamp_named stamp stamps.now }
{
    let moment = match stamp {
        Stamp::Published => &stamps.published,
        Stamp::Visible => &stamps.visible,
        Stamp::DsVisible => &stamps.ds_visible,
        Stamp::RrsigVisible => &stamps.rrsig_visible,
        Stamp::Withdrawn => &stamps.withdrawn,
    };
    *moment
}

/// Writes in `stamps` that the event `stamp` was at `moment`, over an earlier stamp of this event.
/// The stamps of other events stay.
pub fn write_stamp(stamps: &mut KeyTimestamps, stamp: Stamp, moment: UnixTime)
    ensures { stamps.new ≡ with_stamp stamp moment stamps.old }
{
    match stamp {
        Stamp::Published => stamps.published = Some(moment),
        Stamp::Visible => stamps.visible = Some(moment),
        Stamp::DsVisible => stamps.ds_visible = Some(moment),
        Stamp::RrsigVisible => stamps.rrsig_visible = Some(moment),
        Stamp::Withdrawn => stamps.withdrawn = Some(moment),
    }
}
