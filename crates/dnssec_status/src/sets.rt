//! The published sets and the verdict of a status.
ghost use Rattle.std.specs.Prelude.{◌≡◌, ◌++◌, Some, OnOk};
ghost use Rattle.dnssec_status.specs.Json.{array_json};
ghost use Rattle.dnssec_status.specs.Sets.{chain_json, published_json, sets_json};

use crate::json::{Writer, push_array, push_bytes, push_number, push_text};
use dnssec_record::{Broken, Published, PublishedKey};
use std::alloc::{AllocError, Global};

/// Appends the published sets to `out` as a JSON object, by the references of their keys: those
/// with a DS, those in the DNSKEY set, those that sign it, and those that sign the zone. If memory
/// runs out, it fails, and `out` may end in a part of this.
#[tactic(auto, using(crate::proofs::Chains::assoc), unfolding(crate::specs::Sets::sets_json))]
pub(crate) fn push_sets(out: &mut Vec<u8>, sets: &Published) -> Result<(), AllocError>
    ensures { OnOk result (out.new.items ≡ out.old.items ++ sets_json sets.now) }
{
    push_set(out, b"{\"ds\":", &sets.ds)?;
    push_set(out, b",\"dnskey\":", &sets.dnskey)?;
    push_set(out, b",\"signers\":", &sets.dnskey_signers)?;
    push_set(out, b",\"zone\":", &sets.zone_signers)?;
    push_bytes(out, b"}")?;
    Ok(())
}

/// Appends `before`, the JSON in front of the value, and then the references of `keys` as a JSON
/// array. If memory runs out, it fails, and `out` may end in a part of this.
fn push_set(out: &mut Vec<u8>, before: &[u8], keys: &[PublishedKey]) -> Result<(), AllocError>
    ensures { OnOk result (out.new.items ≡ out.old.items
        ++ (before.now ++ array_json published_json keys.now)) }
{
    push_bytes(out, before)?;
    push_array(out, &References, keys)
}

/// Writes the references of keys.
#[derive(Drop)]
struct References;

impl Writer<PublishedKey> for References {
    ghost json = { λ _ key. published_json key };

    /// Appends the reference of `key` to `out` as a JSON string. If memory runs out, it fails, and
    /// `out` may end in a part of this.
    fn push(&self, out: &mut Vec<u8>, key: &PublishedKey) -> Result<(), AllocError> {
        push_text(out, b"", key.reference.as_bytes())
    }
}

/// Appends the `verdict` on all calls so far to `out` as a JSON object. `verdict` is `None` if
/// there was always a chain of trust or no DS, else it has the first three sets without a chain. If
/// memory runs out, it fails, and `out` may end in a part of this.
#[tactic(auto, unfolding(crate::specs::Sets::chain_json))]
pub(crate) fn push_chain(
    alloc: Global,
    out: &mut Vec<u8>,
    verdict: Option<Broken>,
) -> Result<(), AllocError>
    ensures { OnOk result (out.new.items ≡ out.old.items ++ chain_json verdict) }
{
    match verdict {
        None => push_bytes(
            out,
            b"{\"safe\":true,\"at\":null,\"ds\":null,\"dnskey\":null,\"zone\":null}",
        ),
        Some(broken) => push_broken(alloc, out, &broken),
    }
}

/// Appends to `out`, as a JSON object, that the chain of trust is broken: after call `at` caches
/// may hold the DS set of call `ds`, the DNSKEY set of call `dnskey` and the zone signers of call
/// `zone`. Calls count from 1, and 0 is the new key set. If memory runs out, it fails, and `out`
/// may end in a part of this.
fn push_broken(alloc: Global, out: &mut Vec<u8>, broken: &Broken) -> Result<(), AllocError>
    ensures { OnOk result (out.new.items ≡ out.old.items ++ chain_json (Some broken.now)) }
{
    push_number(alloc, out, b"{\"safe\":false,\"at\":", broken.at as u128)?;
    push_number(alloc, out, b",\"ds\":", broken.ds as u128)?;
    push_number(alloc, out, b",\"dnskey\":", broken.dnskey as u128)?;
    push_number(alloc, out, b",\"zone\":", broken.zone as u128)?;
    push_bytes(out, b"}")?;
    Ok(())
}
