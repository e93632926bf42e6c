//! The fields after a word of a script, by their forms.
ghost use Rattle.std.specs.Prelude.{◌≡◌, [], ◌∷◌, IfOk, IfErr, IsSome, Option, string_bytes};
ghost use denote.Bor.{now};
ghost use Rattle.std.specs.Option.{option_map};
ghost use Rattle.dnssec_script.specs.Script.{Reference, Private, References, Flag, Roll, Number};
ghost use Rattle.dnssec_script.specs.Script.{Moment, as_list, as_reference, as_roll, as_time};
ghost use Rattle.dnssec_script.specs.Script.{as_ttl, as_yes_no, public_key_forms};
ghost use Rattle.dnssec_script.specs.Script.{signing_key_forms, trait_forms, values_of};
ghost use Rattle.dnssec_script.specs.Inner.Statement.{traits_say};

use crate::fields::Fields;
use dnssec_base::SecurityAlgorithm;
use dnssec_keyset::{RollType, UnixTime};
use std::alloc::{AllocError, Global};

/// What an add says of its key after the references.
#[derive(Clone, Copy)]
pub(crate) struct KeyTraits {
    pub(crate) algorithm: SecurityAlgorithm,
    pub(crate) key_tag: u16,
    pub(crate) creation_ts: UnixTime,
    pub(crate) available: bool,
}

/// Reads the fields after a word that adds a KSK, a ZSK or a CSK: the key's reference, that of its
/// private part, and its `KeyTraits`. `None` if they have another form. The only error is that
/// there is no memory for the references; fields of another form take none.
pub(crate) fn signing_key(
    alloc: Global,
    fields: Fields<'_>,
) -> Result<Option<(String, Option<String>, KeyTraits)>, AllocError>
    ensures read { IfOk result (λ key. option_map (λ x. Reference (string_bytes x.0)
        ∷ Private (option_map string_bytes x.1) ∷ traits_say x.2) key
        ≡ values_of signing_key_forms fields.entry) }
    ensures memory { IfErr result (λ _. IsSome (values_of signing_key_forms fields.entry)) }
{
    match signing_key_texts(fields) {
        None => Ok(None),
        Some((pubref, privref, traits)) => {
            let pubref = String::from_str(alloc, pubref)?;
            let privref = copy_of(alloc, privref)?;
            Ok(Some((pubref, privref, traits)))
        }
    }
}

/// Reads the fields after a word that adds a KSK, a ZSK or a CSK. The references are parts of the
/// line, and no memory is taken. `None` if the fields have another form.
fn signing_key_texts<'a>(fields: Fields<'a>) -> Option<(&'a str, Option<&'a str>, KeyTraits)>
    ensures { option_map (λ x.
        Reference x.0.now ∷ Private (option_map now x.1) ∷ traits_say x.2) result
        ≡ values_of signing_key_forms fields.entry }
{
    let (pubref, fields) = fields.reference()?;
    let (privref, fields) = fields.private()?;
    Some((pubref, privref, traits(fields)?))
}

/// A copy of a text that may be missing. The only error is that there is no memory for the copy; a
/// missing text takes none.
fn copy_of(alloc: Global, text: Option<&str>) -> Result<Option<String>, AllocError>
    ensures { IfOk result (λ copy. option_map string_bytes copy ≡ option_map now text.entry) }
{
    match text {
        None => Ok(None),
        Some(text) => Ok(Some(String::from_str(alloc, text)?)),
    }
}

/// Reads the fields after a word that adds a key of another signer: the key's reference and its
/// `KeyTraits`. `None` if they have another form. The only error is that there is no memory for the
/// reference; fields of another form take none.
pub(crate) fn public_key(
    alloc: Global,
    fields: Fields<'_>,
) -> Result<Option<(String, KeyTraits)>, AllocError>
    ensures read { IfOk result (λ key.
        option_map (λ x. Reference (string_bytes x.0) ∷ traits_say x.1) key
        ≡ values_of public_key_forms fields.entry) }
    ensures memory { IfErr result (λ _. IsSome (values_of public_key_forms fields.entry)) }
{
    match public_key_texts(fields) {
        None => Ok(None),
        Some((pubref, traits)) => Ok(Some((String::from_str(alloc, pubref)?, traits))),
    }
}

/// Reads the fields after a word that adds a key of another signer. The reference is part of the
/// line, and no memory is taken. `None` if the fields have another form.
fn public_key_texts<'a>(fields: Fields<'a>) -> Option<(&'a str, KeyTraits)>
    ensures { option_map (λ x. Reference x.0.now ∷ traits_say x.1) result
        ≡ values_of public_key_forms fields.entry }
{
    let (pubref, fields) = fields.reference()?;
    Some((pubref, traits(fields)?))
}

/// Reads the last fields of an add: the algorithm, the key tag, the moment when the key was made
/// (in whole seconds since 1970), and whether a roll may take the key as a new one. `None` if they
/// have another form, or if there are more or fewer fields.
// Inlined, since a moment that a call answers is copied with each statement, also with those that
// have none.
#[inline(always)]
fn traits(fields: Fields<'_>) -> Option<KeyTraits>
    ensures { option_map traits_say result ≡ values_of trait_forms fields.entry }
{
    let (algorithm, fields) = fields.algorithm()?;
    let (key_tag, fields) = fields.tag()?;
    let (creation_ts, fields) = fields.time()?;
    let (available, fields) = fields.yes_no()?;
    fields.end()?;
    Some(KeyTraits {
        algorithm,
        key_tag,
        creation_ts,
        available,
    })
}

/// Reads the fields after `set-decoupled`, `set-signer` or `set-at-parent`: the key's reference,
/// and the flag. `None` if they have another form, or if there are more or fewer fields.
#[inline(always)]
pub(crate) fn flag<'a>(fields: Fields<'a>) -> Option<(&'a str, bool)>
    ensures { option_map (λ x. Reference x.0.now ∷ Flag x.1 ∷ []) result
        ≡ values_of (as_reference ∷ as_yes_no ∷ []) fields.entry }
{
    let (pubref, fields) = fields.reference()?;
    let (value, fields) = fields.yes_no()?;
    fields.end()?;
    Some((pubref, value))
}

/// Reads the fields after `set-present`: the key's reference, the flag, and the moment when it is
/// set, in whole seconds since 1970. `None` if they have another form, or if there are more or
/// fewer fields.
pub(crate) fn timed_flag<'a>(fields: Fields<'a>) -> Option<(&'a str, bool, UnixTime)>
    ensures { option_map (λ x. Reference x.0.now ∷ Flag x.1 ∷ Moment x.2 ∷ []) result
        ≡ values_of (as_reference ∷ as_yes_no ∷ as_time ∷ []) fields.entry }
{
    let (pubref, fields) = fields.reference()?;
    let (value, fields) = fields.yes_no()?;
    Some((pubref, value, fields.last_time()?))
}

/// Reads the fields after `set-visible`, `set-ds-visible` or `set-rrsig-visible`: the key's
/// reference, and the stamp's moment, in whole seconds since 1970. `None` if they have another
/// form, or if there are more or fewer fields.
#[inline(always)]
pub(crate) fn stamp<'a>(fields: Fields<'a>) -> Option<(&'a str, UnixTime)>
    ensures { option_map (λ x. Reference x.0.now ∷ Moment x.1 ∷ []) result
        ≡ values_of (as_reference ∷ as_time ∷ []) fields.entry }
{
    let (pubref, fields) = fields.reference()?;
    Some((pubref, fields.last_time()?))
}

/// Reads the only field after `set-stale` or `delete`: the key's reference. `None` if it has
/// another form, or there is another number of fields.
pub(crate) fn key<'a>(fields: Fields<'a>) -> Option<&'a str>
    ensures { option_map (λ q. Reference q.now ∷ []) result
        ≡ values_of (as_reference ∷ []) fields.entry }
{
    let (pubref, fields) = fields.reference()?;
    fields.end()?;
    Some(pubref)
}

/// Reads the fields after `report1` or `report2`: the roll, the highest TTL in seconds that a cache
/// may still have, and the moment of the report, in whole seconds since 1970. `None` if they have
/// another form, or if there are more or fewer fields.
pub(crate) fn report(fields: Fields<'_>) -> Option<(RollType, u32, UnixTime)>
    ensures { option_map (λ x. Roll x.0 ∷ Number x.1 ∷ Moment x.2 ∷ []) result
        ≡ values_of (as_roll ∷ as_ttl ∷ as_time ∷ []) fields.entry }
{
    let (rolltype, fields) = fields.roll()?;
    let (ttl, fields) = fields.ttl()?;
    Some((rolltype, ttl, fields.last_time()?))
}

/// Reads the fields after `wait1` or `wait2`: the roll, and the moment of the call, in whole
/// seconds since 1970. `None` if they have another form, or if there are more or fewer fields.
pub(crate) fn wait(fields: Fields<'_>) -> Option<(RollType, UnixTime)>
    ensures { option_map (λ x. Roll x.0 ∷ Moment x.1 ∷ []) result
        ≡ values_of (as_roll ∷ as_time ∷ []) fields.entry }
{
    let (rolltype, fields) = fields.roll()?;
    Some((rolltype, fields.last_time()?))
}

/// Reads the only field after `done` or `abort`: the roll. `None` if it names no roll, or there is
/// another number of fields.
pub(crate) fn roll(fields: Fields<'_>) -> Option<RollType>
    ensures { option_map (λ r. Roll r ∷ []) result ≡ values_of (as_roll ∷ []) fields.entry }
{
    let (rolltype, fields) = fields.roll()?;
    fields.end()?;
    Some(rolltype)
}
