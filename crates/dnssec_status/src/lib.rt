//! The status of a zone, as JSON: where each key is, what is due, what comes next, and when.
#![tactic(auto)]

ghost use Rattle.std.specs.Prelude.{◌≡◌, ◌++◌, ℕ, List, IfOk, OnOk, codes, string_bytes};
ghost use Rattle.dnssec_record.specs.Session.{StandsAfter};
ghost use Rattle.dnssec_run.specs.declared.call.Call.{Call};
ghost use Rattle.dnssec_run.specs.declared.record.Entry.{Entry};
ghost use Rattle.dnssec_status.specs.Inner.Entries.{entry_json};
ghost use Rattle.dnssec_status.specs.Json.{array_json, text_json};
ghost use Rattle.dnssec_status.specs.Rolls.{ended_json, going_json};
ghost use Rattle.dnssec_status.specs.Sets.{chain_json, sets_json};
ghost use Rattle.dnssec_status.specs.Status.{IsStatus};

mod json;
mod keys;
mod listed;
mod names;
mod rolls;
mod sets;

use crate::json::{push_array, push_bytes, push_text};
use crate::keys::KeyWriter;
use crate::listed::Listings;
use crate::rolls::{EarlyEndWriter, ProgressWriter, RollInProgress, in_progress};
use crate::sets::{push_chain, push_sets};
use dnssec_keyset::{Key, RollType};
use dnssec_record::{Broken, Published, Session};
use dnssec_run::keys_in_order;
use std::alloc::{AllocError, Global};

/// The status of a zone after the calls of a session, as one line of JSON with its line feed.
///
/// Every member is always there, and what is missing is `null`. Moments are whole seconds since
/// 1970. Keys stand in the order of their references' bytes, rolls in that of `RollType`.
///
/// - `zone`: its name
/// - `chain`: the verdict on all calls: safe, or the first three sets without a chain of trust
/// - `published`: the references of the keys with a DS, in the DNSKEY set, that sign it, and that
///   sign the zone
/// - `keys`: each key with its kind and roles, what it was added with, its stamps, whether a roll
///   may list it as new, whether it may be deleted, and the rolls in progress that listed it as old
///   or new
/// - `rolls`: each roll in progress with its phase, the call that leaves it, the first second from
///   which a wait is accepted, for whom it waits, and what is due
/// - `ended`: each roll that was ended early, with what its end asked for, until it starts again or
///   a roll starts that may not be in progress at the same time
///
/// # Errors
///
/// `AllocError` if there is no memory.
///
/// ```rust
/// let text = status(alloc, &session)?;
/// rt.stdout().write_all(&text)?;
/// ```
pub fn status(alloc: Global, session: &Session) -> Result<Vec<u8>, AllocError>
    ensures { IfOk result (λ text. (name : List ℕ) (calls : List Call) (entries : List Entry) →
        StandsAfter name calls entries session.now → IsStatus name calls entries text.items) }
{
    let mut out = Vec::new(alloc);
    let keyset = session.keyset();
    let zone = format!(in alloc; "{}", keyset.name())?;
    let Ok(sets) = session.published(alloc) else {
        return Err(AllocError);
    };
    push_zone(alloc, &mut out, &zone, session.verdict(), &sets)?;
    let listings = Listings::of(alloc, session.listed())?;
    let keys = keys_in_order(alloc, keyset.keys())?;
    let rolls = in_progress(alloc, keyset)?;
    push_rest(
        alloc,
        &mut out,
        &listings,
        &keys,
        &rolls,
        session.ended_early(),
    )?;
    Ok(out)
}

/// Appends the first members of the status to `out`: the name `zone`, the `verdict` on all calls so
/// far (`None` if they were safe), and the references of the published `sets`. `push_rest` appends
/// the others. If memory runs out, it fails, and `out` may end in a part of this.
fn push_zone(
    alloc: Global,
    out: &mut Vec<u8>,
    zone: &String,
    verdict: Option<Broken>,
    sets: &Published,
) -> Result<(), AllocError>
    ensures { OnOk result (out.new.items ≡ out.old.items
        ++ (codes "{\"zone\":" ++ text_json (string_bytes zone.now)
        ++ codes ",\"chain\":" ++ chain_json verdict
        ++ codes ",\"published\":" ++ sets_json sets.now)) }
{
    push_text(out, b"{\"zone\":", zone.as_bytes())?;
    push_bytes(out, b",\"chain\":")?;
    push_chain(alloc, out, verdict)?;
    push_bytes(out, b",\"published\":")?;
    push_sets(out, sets)?;
    Ok(())
}

/// Appends the other members of the status to `out`, with the end of the object and of the line.
/// These are the `keys` with the rolls that listed them, the `rolls` in progress, and those that
/// were `ended` early. If memory runs out, it fails, and `out` may end in a part of this.
fn push_rest(
    alloc: Global,
    out: &mut Vec<u8>,
    listings: &Listings<'_>,
    keys: &[(&String, &Key)],
    rolls: &[RollInProgress],
    ended: &[RollType],
) -> Result<(), AllocError>
    ensures { OnOk result (out.new.items ≡ out.old.items
        ++ (codes ",\"keys\":" ++ array_json (entry_json listings.now) keys.now
        ++ codes ",\"rolls\":" ++ array_json going_json rolls.now
        ++ codes ",\"ended\":" ++ array_json ended_json ended.now ++ codes "}\n")) }
{
    push_bytes(out, b",\"keys\":")?;
    push_array(out, &KeyWriter { alloc, listings }, keys)?;
    push_bytes(out, b",\"rolls\":")?;
    push_array(out, &ProgressWriter { alloc }, rolls)?;
    push_bytes(out, b",\"ended\":")?;
    push_array(out, &EarlyEndWriter, ended)?;
    push_bytes(out, b"}\n")
}
