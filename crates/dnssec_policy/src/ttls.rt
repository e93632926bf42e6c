//! The highest TTLs that are noted, and how long a report counts by them.
ghost use Rattle.std.specs.Prelude.{◌≡◌, ◌≤◌, ◌++◌, ◌∷◌, [], List};
ghost use Rattle.dnssec_key.specs.RollTable.{is_second};
ghost use Rattle.dnssec_network.specs.declared.fact.Fact.{Fact as AnyFact};
ghost use Rattle.dnssec_network.specs.Facts.{Before as AnyBefore};
ghost use Rattle.dnssec_run.specs.Safe.{kind_of};
ghost use Rattle.dnssec_policy.specs.Ttls.{AreHighest, after_news, at_most_due, if_retired, keeps};
ghost use Rattle.dnssec_policy.specs.Ttls.{lasting, report_takes, roll_takes, ttl_in, with_ttl};

use dnssec_keyset::{Half, RollType};
use dnssec_network::{Before, News};
use dnssec_run::{SetKind, retires};

/// The highest TTL, in seconds, of each kind of sets that is noted so far.
///
/// ```rust
/// let mut highest = HighestTtls::of_before(&before);
/// highest = highest.after(fact.kind, &fact.news);
/// ```
#[derive(Clone, Copy, Debug)]
pub struct HighestTtls {
    ds: u32,
    dnskey: u32,
    zone: u32,
}

impl HighestTtls {
    /// The highest TTLs of notes without facts: those from before the first call, in seconds.
    pub fn of_before(before: &Before) -> Self
        ensures { AreHighest before.now [] result }
    {
        HighestTtls {
            ds: before.ds,
            dnskey: before.dnskey,
            zone: before.zone,
        }
    }

    /// The highest TTLs, in seconds, once one more fact on this kind of sets is noted. A
    /// publication raises that of its kind, if its TTL is higher, and keeps the others. That all
    /// servers give a set changes none.
    pub fn after(self, kind: SetKind, news: &News) -> Self
        ensures { (before : AnyBefore) (facts : List AnyFact) → AreHighest before facts self →
            AreHighest before (facts ++ record { kind = kind; news = news.now } ∷ []) result }
    {
        self.after_news(kind, news)
    }

    /// The highest TTLs, in seconds, once `news` of this kind of sets is noted. A publication
    /// raises that of its kind, if its TTL is higher, and keeps the others. That all servers give a
    /// set changes none.
    fn after_news(self, kind: SetKind, news: &News) -> Self
        ensures { result ≡ after_news self kind news.now }
    {
        match news {
            News::Published { ttl, .. } => self.with(kind, *ttl),
            News::Everywhere { .. } => self,
        }
    }

    /// The highest TTLs with that of this kind raised to `ttl`, in seconds, if it was lower. Those
    /// of other kinds stay.
    fn with(self, kind: SetKind, ttl: u32) -> Self
        ensures { result ≡ with_ttl self kind ttl }
    {
        match kind {
            SetKind::Ds => HighestTtls {
                ds: self.ds.max(ttl),
                ..self
            },
            SetKind::Dnskey => HighestTtls {
                dnskey: self.dnskey.max(ttl),
                ..self
            },
            SetKind::ZoneSigners => HighestTtls {
                zone: self.zone.max(ttl),
                ..self
            },
        }
    }

    /// The highest TTL, in seconds, that is noted so far of this kind of sets, also from before the
    /// first call.
    pub fn of(&self, kind: SetKind) -> u32
        ensures { result ≡ ttl_in self.now (kind_of kind) }
    {
        match kind {
            SetKind::Ds => self.ds,
            SetKind::Dnskey => self.dnskey,
            SetKind::ZoneSigners => self.zone,
        }
    }

    /// For how many seconds after it dropped a DS set a validator may keep the algorithms of that
    /// set: as long as it holds a DNSKEY set that it checked by the DS set. That is the highest TTL
    /// of DNSKEY sets, and a second, as caches count whole ones.
    fn keeps(&self) -> u64
        ensures { result ≡ keeps (ttl_in self.now) }
    {
        u64::from(self.dnskey) + 1
    }

    /// The TTL, in seconds, to report for this half of the roll, if by the notes the report is true
    /// with `due` seconds. It is `due`, but more if the report says that caches lose old DS sets:
    /// it then also counts for how long validators keep the algorithms of these, and is at least as
    /// long as caches may hold CDS.
    pub(crate) fn lasting(&self, roll: RollType, half: Half, due: u64) -> u64
        requires { due ≤ 4_294_967_296 }
        ensures { result ≡ lasting (ttl_in self.now) roll (is_second half) due }
    {
        if retires(roll, half, SetKind::Ds) {
            let cds = u64::from(self.of(SetKind::ZoneSigners)) + 1;
            (due + self.keeps()).max(cds)
        } else {
            due
        }
    }

    /// The highest TTL, in seconds, that is noted of this kind of sets, if the report of this half
    /// of the roll says that caches lose old sets of that kind. Otherwise 0.
    fn if_retired(&self, roll: RollType, half: Half, kind: SetKind) -> u32
        ensures { result ≡ if_retired (ttl_in self.now) roll (is_second half)
            (kind_of kind) }
    {
        if retires(roll, half, kind) {
            self.of(kind)
        } else {
            0
        }
    }

    /// The highest TTL, in seconds, that the notes can ask for in the report of this half of the
    /// roll. It is the highest noted of the kinds of sets of which the report says that caches lose
    /// old ones, and a second, as caches count whole ones.
    fn at_most_due(&self, roll: RollType, half: Half) -> u64
        ensures due { result ≡ at_most_due (ttl_in self.now) roll (is_second half) }
        ensures at_most { result ≤ 4_294_967_296 }
    {
        let ds = self.if_retired(roll, half, SetKind::Ds);
        let dnskey = self.if_retired(roll, half, SetKind::Dnskey);
        let zone = self.if_retired(roll, half, SetKind::ZoneSigners);
        u64::from(ds.max(dnskey).max(zone)) + 1
    }

    /// How many seconds the wait after the report of this half of the roll takes at most, by the
    /// highest TTLs noted, if the report has the TTL that `next` says.
    fn report_takes(&self, roll: RollType, half: Half) -> u64
        ensures { result ≡ report_takes (ttl_in self.now) roll (is_second half) }
    {
        self.lasting(roll, half, self.at_most_due(roll, half))
    }

    /// How many seconds the two waits of a roll take together at most, by the highest TTLs noted.
    /// How long servers take to give new sets isn't counted.
    pub fn roll_takes(&self, roll: RollType) -> u64
        ensures { result ≡ roll_takes (ttl_in self.now) roll }
    {
        self.report_takes(roll, Half::First) + self.report_takes(roll, Half::Second)
    }
}
