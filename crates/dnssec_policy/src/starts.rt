//! Rolls start that the policy wants.
ghost use Rattle.std.specs.Prelude.{◌≡◌, ◌&&◌, not, IfOk, map, Option, ℕ, is_some};
ghost use Rattle.std.specs.FinMap as fin;
ghost use Rattle.std.specs.List.{list_all, list_any};
ghost use Rattle.dnssec_key.specs.declared.roll.RollType.{RollType as AnyRoll};
ghost use Rattle.dnssec_key.specs.declared.roll.RollType.TheVariants.{AlgorithmRoll};
ghost use Rattle.dnssec_zone.specs.Keys.{Keys, some_key};
ghost use Rattle.dnssec_zone.specs.Start.{conflict, has_conflict, texts};
ghost use Rattle.dnssec_keyset.specs.declared.wait.WaitEnd.{WaitEnd as AnyEnd};
ghost use Rattle.dnssec_run.specs.InOrder.{entry_of};
ghost use Rattle.dnssec_policy.specs.Code.{OfView, news_of, todo_of, view_of};
ghost use Rattle.dnssec_policy.specs.Keys.{earlier, first_over, is_unwanted, new_keys};
ghost use Rattle.dnssec_policy.specs.Keys.{over_by_age, over_from, over_on_demand, renewal_of};
ghost use Rattle.dnssec_policy.specs.Keys.{role_of, roles_of, serves, wants_others};
ghost use Rattle.dnssec_policy.specs.Next.{change, may_begin, renewal, renewals, start_with};

use crate::in_progress::{is_in_progress, nanos};
use crate::keys::{Pick, is_unwanted, references, roles_of, serves};
use crate::policy::{KeyRole, Policy, Scheme, Term};
use crate::state::State;
use crate::todo::Next;
use dnssec_key::{Side, side_of};
use dnssec_keyset::{Key, RollType, UnixTime};
use dnssec_zone::{all_rolls, go_together};
use std::alloc::{AllocError, Global};
use std::time::Duration;

// ---- side by side

/// Whether this roll may begin now: neither it nor a roll that excludes it is in progress. Only a
/// roll of KSKs and one of ZSKs may be in progress together.
#[tactic(auto, unfolding(dnssec_zone::specs::Start::conflict))]
pub(crate) fn may_begin(state: &State<'_>, roll: RollType) -> bool
    ensures { (end : AnyRoll → Option AnyEnd) → result ≡ may_begin (view_of state.now end) roll }
{
    !is_in_progress(state, roll) && !has_conflict(state, roll)
}

/// Whether a roll is in progress that excludes this one, so that this one may not begin. A roll
/// also excludes itself. Only a roll of KSKs and one of ZSKs may be in progress together.
fn has_conflict(state: &State<'_>, roll: RollType) -> bool
    ensures { result ≡ has_conflict roll state.now.keyset.now.rolls }
{
    all_rolls().iter().any(|other| is_in_progress(state, *other) && !go_together(roll, *other))
}

// ---- new keys

/// The reference of a new key for each of these roles, in their order, or `Err` with the first role
/// for which there is none. Of several the first in `keys` is taken. A new key has the policy's
/// algorithm, and is fresh: a roll may take it in, and it signs nothing, is in no set, and isn't on
/// its way out. `keys` are the zone's keys, each after its reference. The outer error is a lack of
/// memory.
fn new_keys<'a>(
    alloc: Global,
    policy: &Policy,
    keys: &[(&'a String, &'a Key)],
    roles: &[KeyRole],
) -> Result<Result<Vec<&'a str>, KeyRole>, AllocError>
    ensures { IfOk result (λ found. (all : Keys) → fin.entries all ≡ map entry_of keys.now
        → news_of found ≡ new_keys policy.now all roles.now) }
{
    let mut new = Vec::new(alloc);
    for role in roles {
        let found = references(alloc, keys, &Pick::New(*policy, *role))?;
        match found.first() {
            None => return Ok(Err(*role)),
            Some(reference) => new.push(*reference)?,
        }
    }
    Ok(Ok(new))
}

/// The start of `roll` with a new key for each of these roles, or `NeedKey` with the first role
/// that has none. As old it lists each key that `roll` changes and that has a role that signs, is
/// in the DNSKEY set, or has to have a DS at the parent, and isn't on its way out. `keys` are the
/// zone's keys, each after its reference. It fails only if memory runs out.
fn start_next<'a>(
    alloc: Global,
    policy: &Policy,
    state: &State<'a>,
    keys: &[(&'a String, &'a Key)],
    roll: RollType,
    roles: &[KeyRole],
) -> Result<Next<'a>, AllocError>
    ensures { IfOk result (λ next. OfView state.now keys.now
        (λ v. start_with v roll (new_keys policy.now v.set.keys roles.now))
        (todo_of state.now.moment next)) }
{
    let old = references(alloc, keys, &Pick::Old(roll))?;
    match new_keys(alloc, policy, keys, roles)? {
        Ok(new) => Ok(Next::Start { roll, old, new }),
        Err(role) => Ok(Next::NeedKey { role }),
    }
}

// ---- the first keys, another algorithm, or another scheme

/// Whether each role of the policy's scheme has a key at work: one that is in the DNSKEY set,
/// signs, and isn't on its way out, and as a KSK or a CSK has to have a DS at the parent too.
/// `keys` are the zone's keys, each after its reference.
fn is_served(policy: &Policy, keys: &[(&String, &Key)]) -> bool
    ensures { result ≡ list_all (λ role. list_any (λ e. serves role e.1.now.keytype) keys.now)
        (roles_of policy.now.scheme) }
{
    roles_of(policy.scheme)
        .iter()
        .all(|role| some_serves(*role, keys))
}

/// Whether some key has this role and is at work in it: it is in the DNSKEY set, signs, and isn't
/// on its way out. A KSK or a CSK has to have a DS at the parent too. `keys` are the zone's keys,
/// each after its reference.
fn some_serves(role: KeyRole, keys: &[(&String, &Key)]) -> bool
    ensures { result ≡ list_any (λ e. serves role e.1.now.keytype) keys.now }
{
    keys.iter().any(|entry| serves(role, entry.1.keytype()))
}

/// Whether some key is in use though its algorithm or its role isn't one that the policy wants. In
/// use is a key with a role that signs, is in the DNSKEY set, or has to have a DS at the parent,
/// and isn't on its way out. Another signer's key never is. `keys` are the zone's keys, each after
/// its reference.
fn some_unwanted(policy: &Policy, keys: &[(&String, &Key)]) -> bool
    ensures { result ≡ list_any (λ e. is_unwanted policy.now e.1.now) keys.now }
{
    keys.iter().any(|entry| is_unwanted(policy, entry.1))
}

/// Whether the policy wants an algorithm roll, which exchanges all keys. It does if a role of its
/// scheme has no key that is in the DNSKEY set, signs, isn't on its way out, and as a KSK or a CSK
/// has to have a DS. It also does if a key of this signer has another algorithm or role, and a role
/// of it signs, is in the DNSKEY set or has to have a DS, and isn't on its way out. `keys` are the
/// zone's keys, each after its reference.
pub(crate) fn wants_others(policy: &Policy, keys: &[(&String, &Key)]) -> bool
    ensures { (all : Keys) → fin.entries all ≡ map entry_of keys.now
        → result ≡ wants_others policy.now all }
{
    !is_served(policy, keys) || some_unwanted(policy, keys)
}

/// Whether the policy wants an algorithm roll, and it may begin now, since no roll is in progress.
/// The policy wants it for the zone's first keys, another algorithm or another scheme. `keys` are
/// the zone's keys, each after its reference.
fn is_change_due(policy: &Policy, state: &State<'_>, keys: &[(&String, &Key)]) -> bool
    ensures { OfView state.now keys.now
        (λ v. may_begin v AlgorithmRoll && wants_others policy.now v.set.keys) result }
{
    may_begin(state, RollType::AlgorithmRoll) && wants_others(policy, keys)
}

/// The start of an algorithm roll if the policy wants the zone's first keys, another algorithm or
/// another scheme. If a role has no new key for it yet, `NeedKey`. `Rest` if the policy wants no
/// such change, or if another roll or this one is in progress. `keys` are the zone's keys, each
/// after its reference. It fails only if memory runs out.
pub(crate) fn change<'a>(
    alloc: Global,
    policy: &Policy,
    state: &State<'a>,
    keys: &[(&'a String, &'a Key)],
) -> Result<Next<'a>, AllocError>
    ensures { IfOk result (λ next. OfView state.now keys.now (change policy.now)
        (todo_of state.now.moment next)) }
{
    if !is_change_due(policy, state, keys) {
        return Ok(Next::Rest);
    }
    let roles = roles_of(policy.scheme);
    let next = start_next(alloc, policy, state, keys, RollType::AlgorithmRoll, roles)?;
    Ok(next)
}

// ---- keys whose time is over

/// The role of the keys that `roll` renews: KSKs or ZSKs if it changes only these. CSKs for a CSK
/// roll, and for an algorithm roll too.
fn role_of(roll: RollType) -> KeyRole
    ensures { result ≡ role_of roll }
{
    match side_of(roll) {
        Side::KskSide => KeyRole::Ksk,
        Side::ZskSide => KeyRole::Zsk,
        Side::BothSides => KeyRole::Csk,
    }
}

/// When the policy has keys of this role renewed: `zsk` for ZSKs, `ksk` for KSKs and for CSKs.
fn renewal_of(policy: &Policy, role: KeyRole) -> Term
    ensures { result ≡ renewal_of policy.now role }
{
    match role {
        KeyRole::Zsk => policy.zsk,
        KeyRole::Ksk | KeyRole::Csk => policy.ksk,
    }
}

/// The earlier of two moments, or the only one there is, or `None` if there is none. Moments are
/// nanoseconds since 1970.
fn earlier(one: Option<u128>, other: Option<u128>) -> Option<u128>
    ensures { result ≡ earlier one other }
{
    match (one, other) {
        (None, n) => n,
        (Some(m), None) => Some(m),
        (Some(m), Some(n)) => { if n < m { Some(n) } else { Some(m) } }
    }
}

/// The nanosecond since 1970 from which a key has to be renewed for its age: `lifetime` seconds
/// after it was published. `None` if `lifetime` is.
fn over_by_age(lifetime: Option<u64>, published: UnixTime) -> Option<u128>
    ensures { result ≡ over_by_age lifetime published }
{
    match lifetime {
        None => None,
        Some(lifetime) => Some(nanos(published) + u128::from(lifetime) * 1_000_000_000),
    }
}

/// The nanosecond since 1970 from which a key has to be renewed on demand: the moment `once`, if
/// the key was published before it. `None` if it was published at `once` or later, or if `once` is
/// `None`.
fn over_on_demand(once: Option<UnixTime>, published: UnixTime) -> Option<u128>
    ensures { result ≡ over_on_demand once published }
{
    match once {
        None => None,
        Some(moment) => {
            if published < moment {
                Some(nanos(moment))
            } else {
                None
            }
        }
    }
}

/// The nanosecond since 1970 from which a key has to be renewed by `renewal`: for its lifetime or
/// on demand, whichever is earlier. `None` if neither applies. A key without the stamp of its
/// publication (`None`) counts as published at the start of 1970.
fn over_from(renewal: &Term, published: Option<UnixTime>) -> Option<u128>
    ensures { result ≡ over_from renewal.now published }
{
    let published = match published {
        None => UnixTime::from(Duration::from_secs(0)),
        Some(moment) => moment,
    };
    let by_age = over_by_age(renewal.lifetime, published);
    earlier(by_age, over_on_demand(renewal.once, published))
}

/// The first nanosecond since 1970 from which some key at work with this role has to be renewed by
/// `renewal`, for its lifetime or on demand. `None` if none ever has to be. A key at work is in the
/// DNSKEY set, signs, and isn't on its way out, and as a KSK or a CSK has to have a DS at the
/// parent too. `keys` are the zone's keys, each after its reference.
fn first_over(role: KeyRole, renewal: &Term, keys: &[(&String, &Key)]) -> Option<u128>
    ensures { result ≡ first_over role renewal.now (map (λ e. e.1.now) keys.now) }
{
    let mut best = None;
    for entry in keys {
        if serves(role, entry.1.keytype()) {
            best = earlier(best, over_from(renewal, entry.1.timestamps().published()));
        }
    }
    best
}

/// The first nanosecond since 1970 from which by the policy `roll` has to renew some key at work,
/// for its lifetime or on demand. `None` if none ever has to be renewed. A key at work is in the
/// DNSKEY set, signs, and isn't on its way out, and as a KSK or a CSK has to have a DS at the
/// parent too. `keys` are the zone's keys, each after its reference.
pub(crate) fn first_due(policy: &Policy, roll: RollType, keys: &[(&String, &Key)]) -> Option<u128>
    ensures { result ≡ first_over (role_of roll) (renewal_of policy.now (role_of roll))
        (map (λ e. e.1.now) keys.now) }
{
    let role = role_of(roll);
    let renewal = renewal_of(policy, role);
    first_over(role, &renewal, keys)
}

/// Whether `roll` may begin now to renew keys: neither it nor a roll that excludes it is in
/// progress, and the policy wants the algorithm and role of each key of this signer in use. (Others
/// go by an algorithm roll first.) In use is a key with a role that signs, is in the DNSKEY set, or
/// has to have a DS, and isn't on its way out. `keys` are the zone's keys, each after its
/// reference.
fn may_renew(policy: &Policy, state: &State<'_>, keys: &[(&String, &Key)], roll: RollType) -> bool
    ensures { OfView state.now keys.now
        (λ v. may_begin v roll && not (some_key (is_unwanted policy.now) v.set.keys)) result }
{
    may_begin(state, roll) && !some_unwanted(policy, keys)
}

/// What is to be done to renew keys by this roll, for their lifetime or on demand: its start, or
/// the moment before which none has to be renewed. If it has no new key to start with, `NeedKey`.
/// `Rest` if no key ever has to be renewed, or if the roll may not begin now to renew keys. `keys`
/// are the zone's keys, each after its reference. It fails only if memory runs out.
fn renewal<'a>(
    alloc: Global,
    policy: &Policy,
    state: &State<'a>,
    keys: &[(&'a String, &'a Key)],
    roll: RollType,
) -> Result<Next<'a>, AllocError>
    ensures { IfOk result (λ next. OfView state.now keys.now (λ v. renewal policy.now v roll)
        (todo_of state.now.moment next)) }
{
    if !may_renew(policy, state, keys, roll) {
        return Ok(Next::Rest);
    }
    match first_due(policy, roll, keys) {
        None => Ok(Next::Rest),
        Some(moment) => {
            if moment <= nanos(state.moment) {
                let role = role_of(roll);
                let next = start_next(alloc, policy, state, keys, roll, &[role])?;
                Ok(next)
            } else {
                Ok(Next::NotBefore { moment })
            }
        }
    }
}

/// The most urgent of what is to be done to renew keys by the rolls of the policy's scheme, for
/// their lifetime or on demand: the start of a roll, a key to make for it, or the moment before
/// which no key has to be renewed. `Rest` if there is none. `keys` are the zone's keys, each after
/// its reference. It fails only if memory runs out.
pub(crate) fn renewals<'a>(
    alloc: Global,
    policy: &Policy,
    state: &State<'a>,
    keys: &[(&'a String, &'a Key)],
) -> Result<Next<'a>, AllocError>
    ensures { IfOk result (λ next. OfView state.now keys.now
        (λ v. renewals policy.now v policy.now.scheme) (todo_of state.now.moment next)) }
{
    match policy.scheme {
        Scheme::Split(ksk, zsk) => {
            let one = renewal(alloc, policy, state, keys, ksk.roll())?;
            let two = renewal(alloc, policy, state, keys, zsk.roll())?;
            Ok(one.or(two))
        }
        Scheme::SingleType => {
            let next = renewal(alloc, policy, state, keys, RollType::CskRoll)?;
            Ok(next)
        }
    }
}
