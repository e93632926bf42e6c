//! How far notes have come: the newest version of each kind.
ghost use Rattle.std.specs.Prelude.{◌≡◌, if◌then◌else◌};
ghost use Rattle.dnssec_run.specs.Moments.{moment_of_call};
ghost use Rattle.dnssec_run.specs.Safe.{kind_of};
ghost use Rattle.dnssec_network.specs.Facts.{same_kind};
ghost use Rattle.dnssec_network.specs.Notes.{fall, first_newest, first_progress, newest_after};
ghost use Rattle.dnssec_network.specs.Notes.{newest_of, news_refusal, progress_after};
ghost use Rattle.dnssec_network.specs.Notes.{version_refusal};

use crate::fact::{Fact, News, NoteFault};
use dnssec_keyset::UnixTime;
use dnssec_run::{ByKind, Moments, SetKind};
use std::time::Duration;

/// The newest version of a kind.
#[derive(Clone, Copy, Debug)]
pub(crate) struct Newest {
    /// When it was published.
    pub(crate) published: UnixTime,
    /// When all servers were last seen to give it, or one before it.
    pub(crate) seen: UnixTime,
}

/// How far notes have come.
#[derive(Clone, Copy, Debug)]
pub(crate) struct Progress {
    newest: ByKind<Newest>,
}

/// The start of 1970. It stands for the moment of what was there before the first call.
fn start() -> UnixTime
    ensures { result ≡ 0 }
{
    UnixTime::from(Duration::from_secs(0))
}

impl Newest {
    /// The newest version of a kind of sets before anything is noted of it. It counts as published,
    /// and as seen on all servers, at the start of 1970.
    fn first() -> Self
        ensures { result ≡ first_newest }
    {
        Newest {
            published: start(),
            seen: start(),
        }
    }

    /// The newest version of a kind of sets once `news` of this kind are noted: `Published` sets
    /// `published` to its moment, and `Everywhere` sets `seen` to its. The other field stays.
    /// Nothing is checked.
    fn after(self, news: News) -> Self
        ensures { result ≡ newest_after news self }
    {
        match news {
            News::Published { moment, .. } => Newest {
                published: moment,
                seen: self.seen,
            },
            News::Everywhere { moment } => Newest {
                published: self.published,
                seen: moment,
            },
        }
    }

    /// The newest version of `kind`, which is `self` so far, once `fact` is noted. It stays the
    /// same if the fact is about another kind.
    fn after_fact(self, fact: &Fact, kind: SetKind) -> Self
        ensures { result ≡ (if same_kind (kind_of fact.now.kind) (kind_of kind)
            then newest_after fact.now.news self else self) }
    {
        if fact.is_of(kind) {
            self.after(fact.news)
        } else {
            self
        }
    }

    /// Why `news` of the same kind can't be noted after this newest version, or `None` if they can.
    /// A publication is `CallNotMade`, `PublishedBeforeCall` or `MomentFalls`. That all servers
    /// gave the version is `SeenBeforePublished` or `MomentFalls`. `moments` has the greatest
    /// moment up to each call that was made.
    fn refusal(self, moments: &Moments, news: News) -> Option<NoteFault>
        ensures { result ≡ news_refusal moments.now self news }
    {
        match news {
            News::Published {
                position,
                moment,
                ..
            } => self.version_refusal(moments.of_call(position), moment),
            News::Everywhere { moment } => {
                if moment < self.published {
                    Some(NoteFault::SeenBeforePublished)
                } else {
                    fall(self.seen, moment)
                }
            }
        }
    }

    /// Why a new version that is published at `moment` can't be noted, or `None` if it can. `made`
    /// is the greatest moment up to the call whose sets it has, or `None` if that call wasn't made:
    /// `CallNotMade`. An earlier `moment` than `made` is `PublishedBeforeCall`, and one before the
    /// last publication is `MomentFalls`.
    fn version_refusal(self, made: Option<UnixTime>, moment: UnixTime) -> Option<NoteFault>
        ensures { result ≡ version_refusal made self moment }
    {
        match made {
            None => Some(NoteFault::CallNotMade),
            Some(made) => {
                if moment < made {
                    Some(NoteFault::PublishedBeforeCall)
                } else {
                    fall(self.published, moment)
                }
            }
        }
    }
}

/// Refuses a `moment` that lies before `last`, the last one noted: `MomentFalls`. `None` for any
/// other.
fn fall(last: UnixTime, moment: UnixTime) -> Option<NoteFault>
    ensures { result ≡ fall last moment }
{
    if moment < last {
        Some(NoteFault::MomentFalls)
    } else {
        None
    }
}

impl Progress {
    /// The progress of notes that have no fact yet. Each kind of sets counts as last published, and
    /// as last seen on all servers, at the start of 1970.
    pub(crate) fn first() -> Self
        ensures { result ≡ first_progress }
    {
        let newest = ByKind {
            ds: Newest::first(),
            dnskey: Newest::first(),
            zone: Newest::first(),
        };
        Progress { newest }
    }

    /// The progress of the notes once `news` of `kind` are noted too: their moment is the one at
    /// which this kind was last published, or last seen on all servers. The other kinds stay.
    /// Nothing is checked.
    pub(crate) fn after(&self, kind: SetKind, news: &News) -> Self
        ensures { result ≡ progress_after self.now (record { kind = kind; news = news.now }) }
    {
        let fact = Fact { kind, news: *news };
        let ByKind { ds, dnskey, zone } = self.newest;
        let newest = ByKind {
            ds: ds.after_fact(&fact, SetKind::Ds),
            dnskey: dnskey.after_fact(&fact, SetKind::Dnskey),
            zone: zone.after_fact(&fact, SetKind::ZoneSigners),
        };
        Progress { newest }
    }

    /// Why `news` of `kind` can't be noted next, or `None` if they can. A publication may be
    /// refused as `CallNotMade`, `PublishedBeforeCall` or `MomentFalls`, and that all servers gave
    /// the version as `SeenBeforePublished` or `MomentFalls`. `moments` has the greatest moment up
    /// to each call that was made. Nothing is noted.
    pub(crate) fn refusal(&self, moments: &Moments, kind: SetKind, news: &News) -> Option<NoteFault>
        ensures { result ≡ news_refusal moments.now (newest_of self.now kind) news.now }
    {
        self.newest.of(kind).refusal(moments, *news)
    }
}
