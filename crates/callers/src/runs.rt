//! A caller of `dnssec_run`.
use anyhow::{Result, bail};
use dnssec_keyset::{Name, SecurityAlgorithm, UnixTime};
use dnssec_run::{Call, run};
use std::alloc::Global;
use std::time::Duration;

/// Publishes a key of another signer on a new key set, and answers what is then published.
pub fn publish(alloc: Global) -> Result<String> {
    let now = UnixTime::from(Duration::from_secs(100));
    let mut calls = Vec::new(alloc);
    calls.push(Call::AddPublicKey {
        pubref: String::from_str(alloc, "I")?,
        algorithm: SecurityAlgorithm::ED25519,
        key_tag: 9,
        creation_ts: now,
        available: true,
    })?;
    calls.push(Call::SetPresent {
        pubref: "I",
        value: true,
        now,
    })?;
    let run = run(
        alloc,
        Name::<Vec<u8>>::from_str(alloc, "example.com")?,
        calls,
    )?;
    for entry in &run.entries {
        if let Some(key) = entry.published.dnskey.first() {
            return Ok(format!(in alloc; "{}, added by call {}", key.reference, key.added)?);
        }
    }
    bail!("nothing is published")
}
