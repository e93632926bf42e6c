//! The keys of a status.
ghost use Rattle.std.specs.Prelude.{◌≡◌, ◌++◌, OnOk, IfOk, codes, map, string_bytes};
ghost use Rattle.std.specs.Option.{option_map};
ghost use denote.Bor.{now};
ghost use Rattle.dnssec_key.specs.declared.kind.KeyType.TheVariants as KeyType;
ghost use Rattle.dnssec_key.specs.State.{is_active_ksk, is_active_zsk, is_future, is_leaving};
ghost use Rattle.dnssec_key.specs.State.{is_used};
ghost use Rattle.dnssec_status.specs.Inner.Entries.{entry_json};
ghost use Rattle.dnssec_status.specs.Json.{array_json, option_json, text_json};
ghost use Rattle.dnssec_status.specs.Keys.{end_json, flags_json, front_json};
ghost use Rattle.dnssec_status.specs.Keys.{is_listed_by_some, kind_json, may_come_in, role_json};
ghost use Rattle.dnssec_status.specs.Keys.{rolls_of, seconds, stamps_json, state_word, traits_json};
ghost use Rattle.dnssec_status.specs.Names.{roll_json};

use crate::json::{Writer, push_array, push_bytes, push_flag, push_null, push_number, push_text};
use crate::listed::{Listings, rolls_of};
use crate::names::Names;
use dnssec_keyset::{Key, KeyState, KeyTimestamps, KeyType, UnixTime};
use dnssec_record::Part;
use std::alloc::{AllocError, Global};
use std::time::Duration;

/// Writes keys with their references, and with the rolls in progress that listed them.
#[derive(Drop)]
pub(crate) struct KeyWriter<'a> {
    pub(crate) alloc: Global,
    pub(crate) listings: &'a Listings<'a>,
}

impl<'a, 'b> Writer<(&'b String, &'b Key)> for KeyWriter<'a> {
    ghost json = { λ keys entry. entry_json keys.listings.now entry };

    /// Appends a key to `out` as a JSON object. `entry` has the key's public reference and the key.
    /// If memory runs out, it fails, and `out` may end in a part of this.
    fn push(&self, out: &mut Vec<u8>, entry: &(&'b String, &'b Key)) -> Result<(), AllocError> {
        push_front(self.alloc, out, entry.0, entry.1)?;
        push_end(self.alloc, out, self.listings, entry.0, entry.1)
    }
}

/// Appends the first members of a key's object to `out`: its `reference`, its kind with its roles,
/// its algorithm, key tag, private part and whether it is decoupled, and its stamps. `push_end`
/// appends the others. If memory runs out, it fails, and `out` may end in a part of this.
fn push_front(
    alloc: Global,
    out: &mut Vec<u8>,
    reference: &String,
    key: &Key,
) -> Result<(), AllocError>
    ensures { OnOk result (out.new.items ≡ out.old.items
        ++ front_json (string_bytes reference.now) key.now) }
{
    push_text(out, b"{\"reference\":", reference.as_bytes())?;
    push_bytes(out, b",\"kind\":")?;
    push_kind(out, key.keytype())?;
    push_traits(alloc, out, key)?;
    push_stamps(alloc, out, key.timestamps())?;
    Ok(())
}

/// Appends the last members of a key's object to `out`, and its end: whether the start of a roll
/// may list the key as new, whether it may be deleted, and which rolls in progress listed it as old
/// or as new. If memory runs out, it fails, and `out` may end in a part of this.
fn push_end(
    alloc: Global,
    out: &mut Vec<u8>,
    listings: &Listings<'_>,
    reference: &String,
    key: &Key,
) -> Result<(), AllocError>
    ensures { OnOk result (out.new.items ≡ out.old.items ++ end_json
        listings.now (string_bytes reference.now) key.now.keytype) }
{
    push_flag(out, b",\"may_come_in\":", may_come_in(key))?;
    push_flag(out, b",\"may_be_deleted\":", key.is_stale())?;
    push_bytes(out, b",\"old_in\":")?;
    push_rolls_of(alloc, out, listings, Part::Old, reference)?;
    push_bytes(out, b",\"new_in\":")?;
    push_rolls_of(alloc, out, listings, Part::New, reference)?;
    push_bytes(out, b"}")?;
    Ok(())
}

/// Whether the start of some roll may list this key as new: it isn't another signer's, and each of
/// its roles is available, isn't old, doesn't sign, isn't in the DNSKEY set and has no DS. Rolls in
/// progress don't count here, though they may keep that roll from starting.
fn may_come_in(key: &Key) -> bool
    ensures { result ≡ may_come_in key.now.keytype }
{
    is_listed_by_some(key.keytype()) && key.is_fresh()
}

/// Whether the start of some roll may list keys of this kind, as old or as new. That is so of all
/// but another signer's keys (`Include`).
fn is_listed_by_some(keytype: KeyType) -> bool
    ensures { result ≡ is_listed_by_some keytype }
{
    match keytype {
        KeyType::Ksk(_) | KeyType::Zsk(_) | KeyType::Csk(_, _) => true,
        KeyType::Include(_) => false,
    }
}

/// Appends a JSON array to `out`: the names of the rolls in progress whose start listed the key at
/// `reference` as this `part` (old if it goes out, new if it comes in). If memory runs out, it
/// fails, and `out` may end in a part of this.
fn push_rolls_of(
    alloc: Global,
    out: &mut Vec<u8>,
    listings: &Listings<'_>,
    part: Part,
    reference: &String,
) -> Result<(), AllocError>
    ensures { OnOk result (out.new.items ≡ out.old.items ++ array_json roll_json
        (rolls_of part (string_bytes reference.now) listings.now)) }
{
    let rolls = rolls_of(alloc, listings, part, reference)?;
    push_array(out, &Names, &rolls)
}

/// Appends four members of a key's object to `out`: the number of its algorithm, its key tag, the
/// reference of its private part, and whether it is decoupled from the caller's storage of keys. If
/// memory runs out, it fails, and `out` may end in a part of this.
fn push_traits(alloc: Global, out: &mut Vec<u8>, key: &Key) -> Result<(), AllocError>
    ensures { OnOk result (out.new.items ≡ out.old.items ++ traits_json key.now) }
{
    let algorithm = u128::from(key.algorithm().to_int());
    push_number(alloc, out, b",\"algorithm\":", algorithm)?;
    push_number(alloc, out, b",\"tag\":", u128::from(key.key_tag()))?;
    push_private(out, b",\"private\":", key.privref())?;
    push_flag(out, b",\"decoupled\":", key.decoupled())?;
    Ok(())
}

/// Appends `before`, the JSON in front of the value, and then `privref`, the reference of the
/// private part of a key, as a JSON string. It is `null` if there is none. If memory runs out, it
/// fails, and `out` may end in a part of this.
#[tactic(auto, unfolding(crate::specs::Json::option_json))]
fn push_private(out: &mut Vec<u8>, before: &[u8], privref: Option<&str>) -> Result<(), AllocError>
    ensures { OnOk result (out.new.items ≡ (out.old.items ++ before.now)
        ++ option_json text_json (option_map now privref.entry)) }
{
    match privref {
        None => push_null(out, before),
        Some(text) => push_text(out, before, text.as_bytes()),
    }
}

/// Appends the six stamps of a key to `out`, the moments of its life from its creation to its
/// withdrawal. Each is in whole seconds since 1970, or `null` if the key doesn't have it. If memory
/// runs out, it fails, and `out` may end in a part of this.
fn push_stamps(alloc: Global, out: &mut Vec<u8>, stamps: &KeyTimestamps) -> Result<(), AllocError>
    ensures { OnOk result (out.new.items ≡ out.old.items ++ stamps_json stamps.now) }
{
    push_stamp(alloc, out, b",\"creation\":", stamps.creation())?;
    push_stamp(alloc, out, b",\"published\":", stamps.published())?;
    push_stamp(alloc, out, b",\"visible\":", stamps.visible())?;
    push_stamp(alloc, out, b",\"ds_visible\":", stamps.ds_visible())?;
    push_stamp(alloc, out, b",\"rrsig_visible\":", stamps.rrsig_visible())?;
    push_stamp(alloc, out, b",\"withdrawn\":", stamps.withdrawn())?;
    Ok(())
}

/// Appends `before`, the JSON in front of the value, and then `stamp` in seconds since 1970,
/// rounded down. It is `null` if there is no stamp. If memory runs out, it fails, and `out` may end
/// in a part of this.
#[tactic(auto, unfolding(crate::specs::Json::option_json))]
fn push_stamp(
    alloc: Global,
    out: &mut Vec<u8>,
    before: &[u8],
    stamp: Option<UnixTime>,
) -> Result<(), AllocError>
    ensures { OnOk result (out.new.items ≡ (out.old.items ++ before.now)
        ++ option_json seconds stamp) }
{
    match stamp {
        None => push_null(out, before),
        Some(moment) => {
            let nanos = Duration::from(moment).as_nanos();
            push_number(alloc, out, before, nanos / 1_000_000_000)
        }
    }
}

/// Appends the kind of a key to `out` (`ksk`, `zsk`, `csk`, or `public` for another signer's), and
/// the array of its roles with their states. If memory runs out, it fails, and `out` may end in a
/// part of this.
#[tactic(auto, unfolding(crate::specs::Keys::kind_json))]
fn push_kind(out: &mut Vec<u8>, keytype: KeyType) -> Result<(), AllocError>
    ensures { OnOk result (out.new.items ≡ out.old.items ++ kind_json keytype) }
{
    match keytype {
        KeyType::Ksk(state) => {
            let is_active = is_active_ksk(state);
            push_only(out, b"\"ksk\",\"roles\":[", "ksk", is_active, state)
        }
        KeyType::Zsk(state) => {
            let is_active = is_active_zsk(state);
            push_only(out, b"\"zsk\",\"roles\":[", "zsk", is_active, state)
        }
        KeyType::Csk(ksk, zsk) => push_csk(out, ksk, zsk),
        KeyType::Include(state) => {
            let is_active = is_active_zsk(state);
            push_only(out, b"\"public\",\"roles\":[", "public", is_active, state)
        }
    }
}

/// Appends to `out` the kind of a key that has one role, and the array with that role: first
/// `before`, which is the JSON with the kind and the start of the array, then the role with the
/// name `role`, its `state`, and whether it is active. If memory runs out, it fails, and `out` may
/// end in a part of this.
#[tactic(auto, using(crate::proofs::Chains::assoc))]
fn push_only(
    out: &mut Vec<u8>,
    before: &[u8],
    role: &str,
    is_active: bool,
    state: KeyState,
) -> Result<(), AllocError>
    ensures { OnOk result (out.new.items ≡ out.old.items
        ++ (before.now ++ role_json role.now is_active state ++ codes "]")) }
{
    push_bytes(out, before)?;
    push_role(out, role, is_active, state)?;
    push_bytes(out, b"]")?;
    Ok(())
}

/// Appends the kind `csk` to `out`, and the array of its two roles: the KSK role in the state
/// `ksk`, and the ZSK role in the state `zsk`. If memory runs out, it fails, and `out` may end in a
/// part of this.
fn push_csk(out: &mut Vec<u8>, ksk: KeyState, zsk: KeyState) -> Result<(), AllocError>
    ensures { OnOk result (out.new.items ≡ out.old.items ++ kind_json (KeyType.Csk ksk zsk)) }
{
    push_bytes(out, b"\"csk\",\"roles\":[")?;
    push_role(out, "ksk", is_active_ksk(ksk), ksk)?;
    push_bytes(out, b",")?;
    push_role(out, "zsk", is_active_zsk(zsk), zsk)?;
    push_bytes(out, b"]")?;
    Ok(())
}

/// Appends a role of a key to `out` as a JSON object: its name, the word for its state, and its
/// four flags. `is_active` says whether the role is active (see `is_active_ksk` and
/// `is_active_zsk`). If memory runs out, it fails, and `out` may end in a part of this.
fn push_role(
    out: &mut Vec<u8>,
    role: &str,
    is_active: bool,
    state: KeyState,
) -> Result<(), AllocError>
    ensures { OnOk result (out.new.items ≡ out.old.items ++ role_json role.now is_active state) }
{
    push_bytes(out, b"{\"role\":\"")?;
    push_bytes(out, role.as_bytes())?;
    push_bytes(out, b"\",\"state\":\"")?;
    push_bytes(out, state_word(is_active, state).as_bytes())?;
    push_bytes(out, b"\"")?;
    push_flags(out, state)?;
    push_bytes(out, b"}")
}

/// The word for the `state` of a role in the status: `active` if `is_active`, else `future` if the
/// role is neither old nor in use, `stale` if it is old and no more in use, `leaving` if it is old
/// and still in use, or else `incoming`. In use is a role that signs, is in the DNSKEY set or has a
/// DS.
#[tactic(auto, unfolding(crate::specs::Keys::state_word))]
fn state_word(is_active: bool, state: KeyState) -> &'static str
    ensures { result.now ≡ state_word is_active state }
{
    if is_active {
        "active"
    } else if is_future(state) {
        "future"
    } else if state.stale() {
        "stale"
    } else if is_leaving(state) {
        "leaving"
    } else {
        "incoming"
    }
}

/// Whether a role has not begun to come in: it isn't old, doesn't sign, isn't in the DNSKEY set,
/// and has no DS.
fn is_future(state: KeyState) -> bool
    ensures { result ≡ is_future state }
{
    !state.old() && !is_used(state)
}

/// Whether a role is on its way out, and not yet gone: it is old, but still signs, is in the DNSKEY
/// set, or has a DS.
fn is_leaving(state: KeyState) -> bool
    ensures { result ≡ is_leaving state }
{
    state.old() && is_used(state)
}

/// Whether a KSK role is active: it isn't old, is in the DNSKEY set and signs it, and has a DS at
/// the parent.
fn is_active_ksk(state: KeyState) -> bool
    ensures { result ≡ is_active_ksk state }
{
    is_active_zsk(state) && state.at_parent()
}

/// Whether a ZSK role, or the role of another signer's key, is active: it isn't old, is in the
/// DNSKEY set, and signs the zone. A KSK role also needs a DS for that (see `is_active_ksk`).
fn is_active_zsk(state: KeyState) -> bool
    ensures { result ≡ is_active_zsk state }
{
    !state.old() && state.present() && state.signer()
}

/// Whether a role is in use: it signs, is in the DNSKEY set, or has a DS at the parent.
fn is_used(state: KeyState) -> bool
    ensures { result ≡ is_used state }
{
    state.signer() || state.present() || state.at_parent()
}

/// Appends four members to `out`: whether the role is old (on its way out), signs, is in the DNSKEY
/// set, and has a DS at the parent. If memory runs out, it fails, and `out` may end in a part of
/// this.
#[tactic(auto, using(crate::proofs::Chains::assoc), unfolding(crate::specs::Keys::flags_json))]
fn push_flags(out: &mut Vec<u8>, state: KeyState) -> Result<(), AllocError>
    ensures { OnOk result (out.new.items ≡ out.old.items ++ flags_json state) }
{
    push_flag(out, b",\"old\":", state.old())?;
    push_flag(out, b",\"signer\":", state.signer())?;
    push_flag(out, b",\"present\":", state.present())?;
    push_flag(out, b",\"at_parent\":", state.at_parent())?;
    Ok(())
}
