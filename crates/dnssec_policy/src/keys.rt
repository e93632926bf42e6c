//! Which keys a policy speaks of: those that are to come in, are at work, go, or have left.
ghost use Rattle.std.specs.Prelude.{◌≡◌, IfOk, false, map};
ghost use Rattle.std.specs.FinMap as fin;
ghost use Rattle.std.specs.List.{list_any};
ghost use Rattle.std.specs.Option.{option_map_or};
ghost use Rattle.dnssec_key.specs.State.{is_active_ksk, is_active_zsk};
ghost use Rattle.dnssec_zone.specs.Start.{lists_kind, texts};
ghost use Rattle.dnssec_run.specs.InOrder.{entry_of};
ghost use Rattle.dnssec_policy.specs.Code.{passes};
ghost use Rattle.dnssec_policy.specs.Keys.{goes, has_role, is_in_use, is_unwanted, is_wanted};
ghost use Rattle.dnssec_policy.specs.Keys.{kept_in_use, references_where, roles_of, serves};

use crate::policy::{KeyRole, Policy, Scheme};
use dnssec_key::{Side, side_of};
use dnssec_keyset::{Key, KeyState, KeyType, RollType};
use std::alloc::{AllocError, Global};

// ---- roles

/// The roles that a zone's keys have under this scheme, in a fixed order: KSK and ZSK for `Split`,
/// only CSK for `SingleType`.
pub(crate) fn roles_of(scheme: Scheme) -> &'static [KeyRole]
    ensures { result.now ≡ roles_of scheme }
{
    match scheme {
        Scheme::Split(_, _) => &[KeyRole::Ksk, KeyRole::Zsk],
        Scheme::SingleType => &[KeyRole::Csk],
    }
}

/// Whether a key of this kind is a KSK, a ZSK or a CSK, as `role` asks. A CSK is neither a KSK nor
/// a ZSK here, and another signer's key has no role. The flags in `kind` don't count.
fn has_role(role: KeyRole, kind: KeyType) -> bool
    ensures { result ≡ has_role role kind }
{
    match (role, kind) {
        (KeyRole::Ksk, KeyType::Ksk(_))
        | (KeyRole::Zsk, KeyType::Zsk(_))
        | (KeyRole::Csk, KeyType::Csk(_, _)) => true,
        _ => false,
    }
}

/// Whether a KSK role is at work: it is in the DNSKEY set, signs it, has to have a DS at the
/// parent, and isn't on its way out. False for `None`, a key without such a role.
fn is_active_ksk(role: Option<KeyState>) -> bool
    ensures { result ≡ option_map_or is_active_ksk role false }
{
    role.is_some_and(|s| !s.old() && s.present() && s.signer() && s.at_parent())
}

/// Whether a ZSK role is at work: it is in the DNSKEY set, signs the zone, and isn't on its way
/// out. False for `None`, a key without such a role.
fn is_active_zsk(role: Option<KeyState>) -> bool
    ensures { result ≡ option_map_or is_active_zsk role false }
{
    role.is_some_and(|s| !s.old() && s.present() && s.signer())
}

/// Whether a key of this kind has the role and is at work in it: it is in the DNSKEY set, signs,
/// and isn't on its way out. A KSK signs the DNSKEY set, a ZSK the zone, and a CSK both. A KSK or a
/// CSK has to have a DS at the parent too.
pub(crate) fn serves(role: KeyRole, kind: KeyType) -> bool
    ensures { result ≡ serves role kind }
{
    match role {
        KeyRole::Ksk => is_active_ksk(kind.ksk()),
        KeyRole::Zsk => is_active_zsk(kind.zsk()),
        KeyRole::Csk => is_active_ksk(kind.ksk_role()) && is_active_zsk(kind.zsk_role()),
    }
}

// ---- keys in use

/// Whether a role is in use and isn't on its way out: it signs, is in the DNSKEY set, or has to
/// have a DS at the parent. False for `None`, a key without such a role.
fn is_kept_in_use(role: Option<KeyState>) -> bool
    ensures { result ≡ option_map_or kept_in_use role false }
{
    role.is_some_and(|s| !s.old() && (s.signer() || s.present() || s.at_parent()))
}

/// Whether a key of this kind is in use by its KSK role or its ZSK role: the role signs, is in the
/// DNSKEY set, or has to have a DS at the parent, and isn't on its way out. Another signer's key
/// never is.
fn is_in_use(kind: KeyType) -> bool
    ensures { result ≡ is_in_use kind }
{
    is_kept_in_use(kind.ksk_role()) || is_kept_in_use(kind.zsk_role())
}

/// Whether a roll changes keys of this kind, if `side` says which keys the roll changes: only KSKs,
/// only ZSKs, or KSKs, ZSKs and CSKs. No roll changes another signer's key. The flags in `kind`
/// don't count.
pub(crate) fn is_of_side(side: Side, kind: KeyType) -> bool
    ensures { result ≡ lists_kind side kind }
{
    match (side, kind) {
        (_, KeyType::Include(_)) => false,
        (Side::BothSides, _) => true,
        (Side::KskSide, KeyType::Ksk(_)) | (Side::ZskSide, KeyType::Zsk(_)) => true,
        _ => false,
    }
}

/// Whether a start of `roll` lists this key as old, so that the roll takes it out. The key is of a
/// kind that the roll changes, and in use: one of its roles signs, is in the DNSKEY set, or has to
/// have a DS at the parent, and isn't on its way out.
fn goes(roll: RollType, key: &Key) -> bool
    ensures { result ≡ goes roll key.now }
{
    is_of_side(side_of(roll), key.keytype()) && is_in_use(key.keytype())
}

/// Whether a key of this kind has a role that the scheme asks for: a KSK or a ZSK for `Split`, a
/// CSK for `SingleType`. False for another signer's key. The flags in `kind` don't count.
fn is_of_scheme(scheme: Scheme, kind: KeyType) -> bool
    ensures { result ≡ list_any (λ role. has_role role kind) (roles_of scheme) }
{
    roles_of(scheme).iter().any(|role| has_role(*role, kind))
}

/// Whether the policy wants keys like this one: of its algorithm, and of a role of its scheme.
/// Whether the key signs or is in any set doesn't count. False for another signer's key.
fn is_wanted(policy: &Policy, key: &Key) -> bool
    ensures { result ≡ is_wanted policy.now key.now }
{
    key.algorithm() == policy.algorithm && is_of_scheme(policy.scheme, key.keytype())
}

/// Whether a key is in use though its algorithm or its role isn't one that the policy wants. Then
/// an algorithm roll has to take it out. In use is a key with a role that signs, is in the DNSKEY
/// set, or has to have a DS at the parent, and isn't on its way out. Another signer's key never is.
pub(crate) fn is_unwanted(policy: &Policy, key: &Key) -> bool
    ensures { result ≡ is_unwanted policy.now key.now }
{
    is_in_use(key.keytype()) && !is_wanted(policy, key)
}

// ---- lists

/// Which keys are listed.
#[derive(Clone, Copy)]
pub(crate) enum Pick {
    /// Those that a roll takes out.
    Old(RollType),
    /// Those that may come in by a policy.
    New(Policy, KeyRole),
}

impl Pick {
    /// Whether this list takes the key. `Old` takes keys that the roll changes and that have a role
    /// that signs, is in the DNSKEY set, or has to have a DS at the parent, and isn't on its way
    /// out. `New` takes keys of the role and of the policy's algorithm that are fresh: a roll may
    /// take each role in, and none signs, is in a set, or is on its way out.
    fn passes(&self, key: &Key) -> bool
        ensures { result ≡ passes self.now key.now }
    {
        match self {
            Pick::Old(roll) => goes(*roll, key),
            Pick::New(policy, role) => {
                has_role(*role, key.keytype())
                    && key.is_fresh()
                    && key.algorithm() == policy.algorithm
            }
        }
    }
}

/// The references of those `keys` that `pick` takes, in the order of `keys`. The list is empty if
/// it takes none. Each key stands in `keys` after its reference. It fails only if memory runs out.
pub(crate) fn references<'a>(
    alloc: Global,
    keys: &[(&'a String, &'a Key)],
    pick: &Pick,
) -> Result<Vec<&'a str>, AllocError>
    ensures { IfOk result (λ found.
        texts found.items ≡ references_where (passes pick.now) (map entry_of keys.now)) }
{
    let mut found = Vec::new(alloc);
    for entry in keys {
        if pick.passes(entry.1) {
            found.push(entry.0.as_str())?;
        }
    }
    Ok(found)
}
