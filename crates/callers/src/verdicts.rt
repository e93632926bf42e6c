//! A caller of `dnssec_record`.
use anyhow::Result;
use dnssec_record::{audit_window, record_script};
use std::alloc::Global;

/// Runs a script, and says whether its chain of trust held after every call.
pub fn judge(alloc: Global, script: &str) -> Result<String> {
    let run = record_script(alloc, script.as_bytes())?;
    match audit_window(alloc, &run.entries)? {
        None => Ok(format!(in alloc; "safe after each of {} calls", run.entries.len())?),
        // After call `at` caches may hold the sets of three calls, and these have no chain.
        Some(broken) => Ok(format!(in alloc;
            "broken after call {}: ds={} dnskey={} zone={}",
            broken.at, broken.ds, broken.dnskey, broken.zone
        )?),
    }
}
