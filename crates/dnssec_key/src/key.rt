//! Keys.
ghost use Rattle.std.specs.Prelude.{◌≡◌, IfOk, IsOkUnless, string_bytes};
ghost use Rattle.std.specs.Option.{option_map};
ghost use Rattle.dnssec_key.specs.State.{is_stale, is_fresh, is_kept};
ghost use Rattle.dnssec_key.specs.Key.{all_states, new_key};
ghost use Rattle.dnssec_base.specs.declared.error.Error.TheVariants.{OutOfMemory};

use crate::kind::{FRESH, KeyType};
use dnssec_base::{Error, KeyTimestamps, SecurityAlgorithm, UnixTime, new_stamps};
use std::alloc::AllocError;
use std::marker::Model;

/// A key of a key set.
#[derive(Debug, Drop)]
pub struct Key {
    privref: Option<String>,
    pub(crate) decoupled: bool,
    pub(crate) keytype: KeyType,
    algorithm: SecurityAlgorithm,
    pub(crate) key_tag: u16,
    pub(crate) timestamps: KeyTimestamps,
}

impl Model for Key {
    ghost use Rattle.std.specs.Prelude.{string_bytes};
    ghost use Rattle.std.specs.Option.{option_map};
    ghost use Rattle.dnssec_key.specs.Key.{KeyParts};

    ghost Value = { KeyParts };

    ghost view = { λ k. record {
      privref = option_map string_bytes k.privref;
      decoupled = k.decoupled;
      keytype = k.keytype;
      algorithm = k.algorithm;
      key_tag = k.key_tag;
      timestamps = k.timestamps;
    } };
}

impl Clone for Key {
    ghost is_clone = { λ k l. l ≡ k };

    /// A copy of the key with all its flags and stamps, or `AllocError` if there is no memory for
    /// its private reference.
    fn clone(&self) -> Result<Key, AllocError> {
        Ok(Key {
            privref: self.privref.clone()?,
            decoupled: self.decoupled,
            keytype: self.keytype,
            algorithm: self.algorithm,
            key_tag: self.key_tag,
            timestamps: self.timestamps,
        })
    }
}

/// A key of this kind, in its state, that was made at the moment `creation`. It has no other stamp,
/// and isn't decoupled. `privref` names its private part in the caller's storage, if there is one.
/// `key_tag` is that of its DNSKEY record (RFC 4034, appendix B).
pub fn new_key(
    privref: Option<String>,
    keytype: KeyType,
    algorithm: SecurityAlgorithm,
    key_tag: u16,
    creation: UnixTime,
) -> Key
    ensures { result ≡
        new_key (option_map string_bytes privref) keytype algorithm key_tag creation }
{
    Key {
        privref,
        decoupled: false,
        keytype,
        algorithm,
        key_tag,
        timestamps: new_stamps(creation),
    }
}

impl Key {
    /// A copy of the key.
    ///
    /// # Errors
    ///
    /// Only `OutOfMemory`, if there is no memory for the copy.
    pub fn try_clone(&self) -> Result<Key, Error>
        ensures same { IfOk result (λ key. key ≡ self.now) }
        ensures err { IsOkUnless result OutOfMemory }
    {
        Ok(self.clone()?)
    }

    /// The name of the private part in the caller's storage, if there is one.
    pub fn privref(&self) -> Option<&str>
        ensures { option_map (λ r. r.now) result ≡ self.now.privref }
    {
        match &self.privref {
            Some(privref) => Some(privref.as_str()),
            None => None,
        }
    }

    /// Whether the caller has marked the key as decoupled from its storage of keys. No roll reads
    /// this mark.
    pub fn decoupled(&self) -> bool
        ensures { result ≡ self.now.decoupled }
    {
        self.decoupled
    }

    /// The kind of the key, with the state of each of its roles.
    pub fn keytype(&self) -> KeyType
        ensures { result ≡ self.now.keytype }
    {
        self.keytype
    }

    /// The algorithm of the key.
    pub fn algorithm(&self) -> SecurityAlgorithm
        ensures { result ≡ self.now.algorithm }
    {
        self.algorithm
    }

    /// The key tag of the key (RFC 4034, appendix B).
    pub fn key_tag(&self) -> u16
        ensures { result ≡ self.now.key_tag }
    {
        self.key_tag
    }

    /// The stamps of the key: the moments when it was made, published, visible and withdrawn, and
    /// when its DS record and its signatures were visible, as far as this has happened.
    pub fn timestamps(&self) -> &KeyTimestamps
        ensures { result.now ≡ self.now.timestamps }
    {
        &self.timestamps
    }

    /// Whether the state of the key lets a roll take it in as a new one: each of its roles is
    /// available, isn't old, doesn't sign, isn't in the DNSKEY set and has no DS at the parent. The
    /// kind isn't asked, so another signer's key may be fresh too.
    pub fn is_fresh(&self) -> bool
        ensures { result ≡ all_states is_fresh self.now.keytype }
    {
        match self.keytype {
            KeyType::Ksk(state) | KeyType::Zsk(state) | KeyType::Include(state) => state == FRESH,
            KeyType::Csk(ksk, zsk) => ksk == FRESH && zsk == FRESH,
        }
    }

    /// Whether the key has left in each of its roles, and so may be deleted: the role is old,
    /// doesn't sign, isn't in the DNSKEY set and has no DS at the parent.
    pub fn is_stale(&self) -> bool
        ensures { result ≡ all_states is_stale self.now.keytype }
    {
        match self.keytype {
            KeyType::Ksk(state) | KeyType::Zsk(state) | KeyType::Include(state) => state.stale(),
            KeyType::Csk(ksk, zsk) => ksk.stale() && zsk.stale(),
        }
    }

    /// Whether the key stays: none of its roles is old, that is on its way out or already gone.
    pub fn is_kept(&self) -> bool
        ensures { result ≡ all_states is_kept self.now.keytype }
    {
        match self.keytype {
            KeyType::Ksk(state) | KeyType::Zsk(state) | KeyType::Include(state) => !state.old,
            KeyType::Csk(ksk, zsk) => !ksk.old && !zsk.old,
        }
    }
}
