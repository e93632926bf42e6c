//! What to do next, by texts.
ghost use Rattle.std.specs.Prelude.{◌≡◌, ◌*◌, ℕ, IfOk, List, None, OnOk, string_bytes};
ghost use Rattle.dnssec_policy.specs.Text.Lint.{highest_of, too_short};
ghost use Rattle.dnssec_run.specs.declared.call.Call.{Call as AnyCall};
ghost use Rattle.dnssec_run.specs.declared.record.Entry.{Entry};
ghost use Rattle.dnssec_policy.specs.Automatic.Answer.{AnswersNext, SaysLine};
ghost use Rattle.dnssec_policy.specs.Automatic.Calls.{IsAfter};
ghost use Rattle.dnssec_policy.specs.Automatic.ZoneNotes.{HasHighest};

use super::fault::NextFault;
use super::line::next_line;
use super::zone::AutomaticZone;
use crate::policy::Policy;
use crate::text::read_policy;
use dnssec_keyset::UnixTime;
use std::alloc::{AllocError, Global};
use std::time::Duration;

/// What a policy says to do next at this second since 1970, after the calls of a script and by the
/// notes beside it, each handed in as a text. The answer is one line without its line feed: the
/// line of a script whose call is to be made, as `report1 ksk-roll 3600 1700000000`, or what else
/// is to be done, as `publish ds` or `until 1700003600`, or `nothing: ` and why. `next_line` has
/// them all.
///
/// # Errors
///
/// - `Policy` with the fault of the policy: `OutOfMemory` too, if memory runs out in reading it.
/// - `Zone` with the fault of the script or of the notes: `OutOfMemory` too, in the same way.
/// - `TooShort` if a lifetime of the policy is shorter than its roll takes by the notes' TTLs.
/// - `OutOfMemory` if memory runs out after that.
///
/// ```rust
/// let policy = b"policy 13 ksk-roll zsk-roll\nzsk-lifetime 7776000\n".as_slice();
/// let notes = b"before 3600 3600 3600\n".as_slice();
/// let line = answer_next(alloc, policy, script.as_bytes(), notes, 1_700_000_000)?;
/// ```
pub fn answer_next(
    alloc: Global,
    policy: &[u8],
    script: &[u8],
    notes: &[u8],
    seconds: u64,
) -> Result<String, NextFault>
    ensures { IfOk result (λ text.
        AnswersNext policy.now script.now notes.now seconds (string_bytes text)) }
{
    match read_policy(alloc, policy) {
        Ok(policy) => {
            let zone = AutomaticZone::resume(alloc, script, notes)?;
            check(&zone, &policy)?;
            let line = said(alloc, &zone, &policy, seconds)?;
            Ok(line)
        }
        Err(fault) => Err(NextFault::Policy(fault)),
    }
}

/// `TooShort` with the first lifetime of the policy that is shorter than its roll takes, by the
/// highest TTLs in the zone's notes: KSKs or CSKs come first, then ZSKs. `Ok` if none is. There is
/// no other error.
fn check(zone: &AutomaticZone, policy: &Policy) -> Result<(), NextFault>
    ensures { OnOk result (HasHighest zone.now.noted → too_short policy.now policy.now.scheme
        (highest_of zone.now.noted.notes.before zone.now.noted.notes.facts) ≡ None) }
{
    match zone.too_short(policy) {
        None => Ok(()),
        Some(fault) => Err(NextFault::TooShort(fault)),
    }
}

/// What the policy says to do next with the zone at this second since 1970, as a line without its
/// line feed, such as `report1 ksk-roll 3600 1700000000` or `publish ds`. The zone stays as it is.
/// It fails only if memory runs out.
fn said(
    alloc: Global,
    zone: &AutomaticZone,
    policy: &Policy,
    seconds: u64,
) -> Result<String, AllocError>
    ensures { IfOk result (λ text.
        (name : List ℕ) (calls : List AnyCall) (entries : List Entry) →
        IsAfter name calls entries zone.now.calls → HasHighest zone.now.noted →
        SaysLine name calls entries policy.now seconds zone.now (string_bytes text)) }
{
    let next = zone.next(alloc, policy, moment_of(seconds))?;
    let line = next_line(alloc, &next, policy.algorithm, seconds)?;
    Ok(line)
}

/// The moment at which this second since 1970 begins.
fn moment_of(seconds: u64) -> UnixTime
    ensures { result ≡ seconds * 1_000_000_000 }
{
    UnixTime::from(Duration::from_secs(seconds))
}
