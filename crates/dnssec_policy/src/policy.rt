//! What an operator wants of a zone's keys.
ghost use Rattle.std.specs.Prelude.{◌≡◌};
ghost use Rattle.dnssec_policy.specs.Keys.{ksk_roll, zsk_roll};

use dnssec_keyset::{RollType, SecurityAlgorithm, UnixTime};

/// The role of a key.
#[derive(Clone, Copy, Debug, PartialEq)]
pub enum KeyRole {
    Ksk,
    Zsk,
    Csk,
}

/// How KSKs are rolled.
#[derive(Clone, Copy, Debug, PartialEq)]
pub enum KskMethod {
    /// By a `ksk-roll`: both keys sign the DNSKEY set, then the DS moves.
    DoubleSignature,
    /// By a `ksk-double-ds-roll`: both keys have a DS, then the keys change places.
    DoubleDs,
}

impl KskMethod {
    /// The kind of roll that renews KSKs by this method.
    pub fn roll(self) -> RollType
        ensures { result ≡ ksk_roll self }
    {
        match self {
            KskMethod::DoubleSignature => RollType::KskRoll,
            KskMethod::DoubleDs => RollType::KskDoubleDsRoll,
        }
    }
}

/// How ZSKs are rolled.
#[derive(Clone, Copy, Debug, PartialEq)]
pub enum ZskMethod {
    /// By a `zsk-roll`: the new key is published before it signs.
    PrePublish,
    /// By a `zsk-double-signature-roll`: both keys sign the zone for a while.
    DoubleSignature,
}

impl ZskMethod {
    /// The kind of roll that renews ZSKs by this method.
    pub fn roll(self) -> RollType
        ensures { result ≡ zsk_roll self }
    {
        match self {
            ZskMethod::PrePublish => RollType::ZskRoll,
            ZskMethod::DoubleSignature => RollType::ZskDoubleSignatureRoll,
        }
    }
}

/// Which keys sign a zone (RFC 6781, section 3.1), and how they are rolled.
#[derive(Clone, Copy, Debug, PartialEq)]
pub enum Scheme {
    /// KSKs and ZSKs.
    Split(KskMethod, ZskMethod),
    /// CSKs, by a `csk-roll`.
    SingleType,
}

/// When keys of a role are renewed. None of both: never.
#[derive(Clone, Copy, Debug)]
pub struct Term {
    /// By itself: so many seconds after the key was published.
    pub lifetime: Option<u64>,
    /// On demand: from this moment on, if the key was published before it.
    pub once: Option<UnixTime>,
}

/// What an operator wants of a zone's keys.
#[derive(Clone, Copy, Debug)]
pub struct Policy {
    /// The algorithm of all keys.
    pub algorithm: SecurityAlgorithm,
    pub scheme: Scheme,
    /// When KSKs or CSKs are renewed.
    pub ksk: Term,
    /// When ZSKs are renewed.
    pub zsk: Term,
    /// For how many seconds a key stays in the key set after it was withdrawn.
    pub delete_after: u64,
}
