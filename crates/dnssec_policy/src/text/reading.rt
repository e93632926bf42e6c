//! A policy from its lines.
ghost use Rattle.std.specs.Prelude.{◌≡◌, ◌≢◌, Err, IfErr, IfOk, Ok, map};
ghost use denote.Bor.{now};
ghost use Rattle.dnssec_script.specs.Script.{lines_of};
ghost use Rattle.dnssec_policy.specs.Text.Reading.{policy_of, read_from};
ghost use Rattle.dnssec_policy.specs.Text.Wishes.{no_wish};
ghost use Rattle.dnssec_policy.specs.declared.text.fault.PolicyFault.TheVariants.{OutOfMemory};

use super::fault::PolicyFault;
use super::wish::{PolicyDraft, read_first};
use crate::policy::{Policy, Scheme};
use dnssec_script::all_lines;
use std::alloc::Global;

/// Reads the lines of a policy from line 2 on, given the `scheme` of line 1. It answers the draft
/// of all that they say, or the fault of the first line that has one, with its number: `Malformed`,
/// `NoSuchKeys` or `SaidTwice`. Without any line no keys are renewed.
fn read_wishes(scheme: Scheme, lines: &[&[u8]]) -> Result<PolicyDraft, PolicyFault>
    ensures { result ≡ read_from scheme 2 no_wish (map now lines.now) }
{
    let mut draft = PolicyDraft::new();
    for (index, line) in lines.iter().enumerate() {
        draft = draft.line_after(scheme, index + 2, line)?;
    }
    Ok(draft)
}

/// Reads all lines of a policy. It answers the policy, or the fault of the first line that has one.
/// Without any line that is `Malformed(1)`.
fn read_lines(lines: &[&[u8]]) -> Result<Policy, PolicyFault>
    ensures { result ≡ policy_of (map now lines.now) }
{
    let Some((first, rest)) = lines.split_first() else {
        return Err(PolicyFault::Malformed(1));
    };
    let Some((algorithm, scheme)) = read_first(first) else {
        return Err(PolicyFault::Malformed(1));
    };
    match read_wishes(scheme, rest) {
        Ok(draft) => Ok(draft.policy(algorithm, scheme)),
        Err(fault) => Err(fault),
    }
}

/// Reads a policy. Its first line is `policy`, the number of the algorithm, and the names of the
/// rolls by which keys are renewed: `ksk-roll` or `ksk-double-ds-roll`, and then `zsk-roll` or
/// `zsk-double-signature-roll`; or `csk-roll` alone (RFC 6781, section 3.1). Each further line is a
/// word and a number, in any order, and each word stands at most once:
///
/// - `ksk-lifetime`, `zsk-lifetime` or `csk-lifetime`: how many seconds after its publication a key
///   is renewed. Without it, keys are renewed only on demand.
/// - `ksk-once`, `zsk-once` or `csk-once`, with a second since 1970: from then on, keys are renewed
///   that were published before it.
/// - `delete-after`: how many seconds after it was withdrawn a key is deleted. Without it, no
///   longer than it has to stay.
///
/// # Errors
///
/// `Malformed`, `SaidTwice` or `NoSuchKeys` with the number of the first line that has a fault,
/// counted from 1. `OutOfMemory` if there is no memory for the list of the lines.
///
/// ```rust
/// let text = "policy 13 ksk-roll zsk-roll\nksk-lifetime 31536000\nzsk-lifetime 7776000\n";
/// let policy = read_policy(alloc, text.as_bytes())?;
/// ```
pub fn read_policy(alloc: Global, text: &[u8]) -> Result<Policy, PolicyFault>
    ensures ok { IfOk result (λ policy. policy_of (lines_of text.now) ≡ Ok policy) }
    ensures err { IfErr result (λ fault. fault ≢ OutOfMemory →
        policy_of (lines_of text.now) ≡ Err fault) }
{
    let Ok(lines) = all_lines(alloc, text) else {
        return Err(PolicyFault::OutOfMemory);
    };
    read_lines(&lines)
}
