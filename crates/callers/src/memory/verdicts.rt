//! The record of a script, and the verdicts on it.
use super::failure::Failure;
use super::requests::Memory;
use dnssec_keyset::Error;
use dnssec_record::{Entry, Reply, Run, ScriptFault, audit, audit_window, record_script};
use std::alloc::Global;

/// If a request for memory is refused, there is no record, or the record says so of the call that
/// made the request. Asked again, there is one.
pub(crate) fn record(alloc: Global, script: &[u8], memory: &mut Memory) -> Result<Run, Failure> {
    let mut answer = record_script(alloc, script);
    if matches!(answer, Err(ScriptFault::OutOfMemory)) && memory.fails() {
        answer = record_script(alloc, script);
    }
    let Ok(run) = answer else {
        return Err(Failure::Record);
    };
    // Each line but the first is a call.
    let lines = script.iter().filter(|byte| **byte == b'\n').count();
    if run.entries.len().checked_add(1) != Some(lines) {
        return Err(Failure::Record);
    }
    for entry in &run.entries {
        if entry.reply == Reply::Refused(Error::OutOfMemory) && !memory.fails() {
            return Err(Failure::Record);
        }
    }
    Ok(run)
}

/// The audit by the definition takes no memory, so that it has a verdict whatever is refused.
pub(crate) fn judge_by_definition(entries: &[Entry]) -> Result<(), Failure> {
    match audit(entries) {
        None => Ok(()),
        Some(_) => Err(Failure::Verdict),
    }
}

/// A judge keeps a window, so if its own request is refused it has no verdict. Asked again, it has
/// one.
pub(crate) fn judge_by_window(
    alloc: Global,
    entries: &[Entry],
    memory: &mut Memory,
) -> Result<(), Failure> {
    let mut answer = audit_window(alloc, entries);
    if matches!(answer, Err(Error::OutOfMemory)) && memory.fails() {
        if audit(entries).is_some() {
            return Err(Failure::Verdict);
        }
        answer = audit_window(alloc, entries);
    }
    match answer {
        Ok(None) => Ok(()),
        _ => Err(Failure::Verdict),
    }
}
