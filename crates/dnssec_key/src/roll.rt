//! Rolls: their kinds, their phases, their halves, and what they ask of the operator.
ghost use Rattle.std.specs.Prelude.{◌≡◌};
ghost use Rattle.dnssec_key.specs.RollTable.{after_expiry, cache_expire, is_second};

/// The kind of a roll (RFC 6781, section 4.1).
#[derive(Clone, Copy, Debug, PartialEq, Eq, Hash)]
pub enum RollType {
    /// A Double-Signature KSK roll (section 4.1.2).
    KskRoll,
    /// A Double-DS KSK roll (section 4.1.2).
    KskDoubleDsRoll,
    /// A Pre-Publish ZSK roll (section 4.1.1.1).
    ZskRoll,
    /// A Double-Signature ZSK roll (section 4.1.1.2).
    ZskDoubleSignatureRoll,
    /// A roll of CSKs, or between a CSK and keys of both kinds: the DNSKEY set first, then the DS
    /// and the signatures at once (neither of the two ways of section 4.1.3).
    CskRoll,
    /// A roll to other algorithms, by the liberal approach (section 4.1.4). It also brings a zone
    /// its first keys.
    AlgorithmRoll,
}

/// Which keys a roll changes.
#[derive(Clone, Copy)]
pub enum Side {
    /// Only KSKs.
    KskSide,
    /// Only ZSKs.
    ZskSide,
    /// KSKs, ZSKs and CSKs.
    BothSides,
}

/// What the start of a roll has to leave on each side that the roll changes: such a key that isn't
/// old. A new key of the roll will do.
#[derive(Clone, Copy)]
pub enum Want {
    /// A KSK in the DNSKEY set.
    PresentKsk,
    /// A KSK with a DS at the parent.
    KskAtParent,
    /// A ZSK in the DNSKEY set.
    PresentZsk,
    /// A KSK or a CSK in the DNSKEY set.
    PresentKskRole,
    /// A ZSK or a CSK in the DNSKEY set.
    PresentZskRole,
}

/// The phase of a roll.
#[derive(Clone, Copy, Debug, PartialEq)]
pub enum RollState {
    /// The first change spreads to all servers.
    Propagation1,
    /// Old data leaves the caches, which hold it for at most this TTL, in seconds.
    CacheExpire1(u32),
    /// The second change spreads to all servers.
    Propagation2,
    /// Old data leaves the caches, which hold it for at most this TTL, in seconds.
    CacheExpire2(u32),
    /// Only the last actions are left.
    Done,
}

/// One of the two halves of a roll: a change, a report that it has spread, and a wait.
#[derive(Clone, Copy, Debug, PartialEq, Eq)]
pub enum Half {
    First,
    Second,
}

/// What ends a phase of a roll.
#[derive(Clone, Copy)]
pub enum PhaseEnd {
    /// The report of a change, with the highest TTL, in seconds, that a cache may still have.
    Report(u32),
    /// The wait for the caches.
    Wait,
}

/// What the operator has to do in a roll.
#[derive(Clone, Copy, Debug, PartialEq, Eq, Hash)]
pub enum Action {
    /// Publish a version of the zone with an updated DNSKEY set.
    UpdateDnskeyRrset,
    /// Publish a version of the zone with CDS and CDNSKEY sets.
    CreateCdsRrset,
    /// Publish a version of the zone without CDS and CDNSKEY sets.
    RemoveCdsRrset,
    /// Update the DS set at the parent.
    UpdateDsRrset,
    /// Publish a version of the zone with updated signatures.
    UpdateRrsig,
    /// Report once all secondaries of the zone have the DNSKEY set, with the highest TTL that a
    /// cache may still have for an older set.
    ReportDnskeyPropagated,
    /// Wait until all secondaries of the zone have the DNSKEY set. A correct roll doesn't need it,
    /// but without it the key set may run ahead of what is published.
    WaitDnskeyPropagated,
    /// Report once all secondaries of the parent zone have the DS records, with the highest TTL
    /// that a cache may still have for older ones.
    ReportDsPropagated,
    /// Wait until all secondaries of the parent zone have the DS records, so that the CDS and
    /// CDNSKEY sets aren't removed too soon.
    WaitDsPropagated,
    /// Report once all secondaries of the zone have the signatures, with the highest TTL that a
    /// cache may still have for older ones. The signature of the SOA record is enough to see it.
    ReportRrsigPropagated,
    /// Wait until all secondaries of the zone have the signatures. A correct roll doesn't need it,
    /// but without it the key set may run ahead of what is published.
    WaitRrsigPropagated,
}

impl Half {
    /// The half of a roll that a report belongs to: the second one if `second` is `true`, else the
    /// first.
    pub fn of_report(second: bool) -> Self
        ensures { is_second result ≡ second }
    {
        if second { Half::Second } else { Half::First }
    }

    /// The phase of a roll after the report of this half: old data leaves the caches, which hold it
    /// for at most `ttl` seconds.
    pub fn cache_expire(self, ttl: u32) -> RollState
        ensures { result ≡ cache_expire self ttl }
    {
        match self {
            Half::First => RollState::CacheExpire1(ttl),
            Half::Second => RollState::CacheExpire2(ttl),
        }
    }

    /// The phase of a roll once the wait of this half is over: after the first half `Propagation2`,
    /// after the second `Done`.
    pub fn after_expiry(self) -> RollState
        ensures { result ≡ after_expiry self }
    {
        match self {
            Half::First => RollState::Propagation2,
            Half::Second => RollState::Done,
        }
    }
}
