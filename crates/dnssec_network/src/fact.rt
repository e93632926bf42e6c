//! What an operator can see of a zone's sets, and note.
ghost use Rattle.std.specs.Prelude.{◌≡◌, Some};
ghost use Rattle.dnssec_run.specs.Safe.{kind_of};
ghost use Rattle.dnssec_network.specs.Facts.{same_kind};
ghost use Rattle.dnssec_network.specs.Texts.{fault_text};
ghost use Rattle.dnssec_network.specs.declared.fact.NoteFault.TheVariants.{OutOfMemory};

use dnssec_keyset::UnixTime;
use dnssec_run::{ByKind, SetKind};
use std::alloc::AllocFailed;
use std::fmt;

/// What is new of a kind of sets.
#[derive(Clone, Copy, Debug)]
pub enum News {
    /// A version is published: servers may give it from this moment on, and none gave it before. It
    /// has the sets that are due after the call of this position, and no higher TTL than this.
    Published {
        position: usize,
        /// In seconds: the highest TTL of the sets of this kind, and of answers that there is none.
        ttl: u32,
        moment: UnixTime,
    },
    /// At this moment all servers gave the version that was noted last, or a later one.
    Everywhere {
        moment: UnixTime,
    },
}

/// What is noted of one kind of sets.
#[derive(Clone, Copy, Debug)]
pub struct Fact {
    pub kind: SetKind,
    pub news: News,
}

/// The highest TTLs, in seconds, of what servers gave before the first call, or of their answers
/// that there is no such set.
pub type Before = ByKind<u32>;

/// Why a fact was not noted.
#[derive(Clone, Copy, Debug, PartialEq)]
pub enum NoteFault {
    /// A version has the sets of a call that wasn't made yet, or of none: calls count from 1.
    CallNotMade,
    /// A version is said to be published before a moment of its call, or of one before that. A
    /// digit was lost, or there are two clocks.
    PublishedBeforeCall,
    /// All servers are said to have given a version before it was published.
    SeenBeforePublished,
    /// The moment lies before the last one: that of a publication before the last publication of
    /// this kind, or the one at which all servers gave a version before the last such one. A clock
    /// was set back, or there are two clocks.
    MomentFalls,
    /// Memory has run out.
    OutOfMemory,
}

impl Fact {
    /// Whether this fact is about the sets of `kind`.
    pub(crate) fn is_of(self, kind: SetKind) -> bool
        ensures { result ≡ same_kind (kind_of self.kind) (kind_of kind) }
    {
        match (self.kind, kind) {
            (SetKind::Ds, SetKind::Ds)
            | (SetKind::Dnskey, SetKind::Dnskey)
            | (SetKind::ZoneSigners, SetKind::ZoneSigners) => true,
            _ => false,
        }
    }
}

impl fmt::Display for NoteFault {
    ghost output = { λ fault. Some (fault_text fault) };

    /// Writes the cause, as `seen before it was published`.
    fn fmt<W: fmt::Write>(&self, f: &mut fmt::Formatter<W>) -> fmt::Result {
        f.write_str(match self {
            NoteFault::CallNotMade => "no such call yet",
            NoteFault::PublishedBeforeCall => "published before its call",
            NoteFault::SeenBeforePublished => "seen before it was published",
            NoteFault::MomentFalls => "moment before the last one",
            NoteFault::OutOfMemory => "out of memory",
        })
    }
}

impl std::error::Error for NoteFault {}

impl<T: Drop> From<AllocFailed<T>> for NoteFault {
    ghost from_gives = { λ _ fault. fault ≡ OutOfMemory };

    /// A list of facts that finds no memory is the fault `OutOfMemory`.
    fn from(_: AllocFailed<T>) -> Self {
        NoteFault::OutOfMemory
    }
}
