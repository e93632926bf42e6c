//! What to do next, as a line.
ghost use Rattle.std.specs.Prelude.{◌≡◌, ◌++◌, ℕ, IfOk, OnOk, decimal, map, string_bytes};
ghost use denote.Bor.{now};
ghost use Rattle.std.specs.List.{flat_map};
ghost use Rattle.std.specs.Prelude.{codes};
ghost use Rattle.dnssec_network.specs.Text.Due.{first_second};
ghost use Rattle.dnssec_policy.specs.Code.{todo_of};
ghost use Rattle.dnssec_policy.specs.Automatic.Lines.{list_text, report_name, role_name};
ghost use Rattle.dnssec_policy.specs.Automatic.Lines.{start_text, stuck_text, todo_line, wait_name};

use crate::policy::KeyRole;
use crate::todo::Next;
use crate::why::Why;
use dnssec_key::roll_name;
use dnssec_keyset::{Half, RollType, SecurityAlgorithm};
use dnssec_network::kind_name;
use std::alloc::{AllocError, Global};

/// What to do next, as a line without its line feed:
///
/// - the line of a script whose call is to be made, as `report1 ksk-roll 3600 1700000000`;
/// - `publish KIND`: note that the `ds`, `dnskey` or `zone` sets are published, and publish them;
/// - `watch KIND`: see whether all servers give these sets, and note it;
/// - `key ROLE ALGORITHM`, as `key zsk 13`: make and add a key of this role and algorithm;
/// - `until SECOND`: do nothing before this second since 1970;
/// - `nothing: ` and why: the zone is as the policy wants it, or what is in the way of that.
///
/// `seconds` is the second since 1970 at which it was said, and `algorithm` that of the policy.
///
/// # Errors
///
/// If there is no memory.
///
/// ```rust
/// let next = zone.next(alloc, &policy, UnixTime::from(Duration::from_secs(seconds)))?;
/// let line = next_line(alloc, &next, policy.algorithm, seconds)?;
/// ```
pub fn next_line(
    alloc: Global,
    next: &Next<'_>,
    algorithm: SecurityAlgorithm,
    seconds: u64,
) -> Result<String, AllocError>
    ensures { IfOk result (λ text. (now : ℕ) →
        string_bytes text ≡ todo_line algorithm (todo_of now next.now) seconds) }
{
    let mut text = String::new(alloc);
    push_next(&mut text, next, algorithm, u128::from(seconds))?;
    Ok(text)
}

/// Appends to `text` the line that says what to do next, as `report1 ksk-roll 3600 1700000000`,
/// `publish ds` or `until 1700003600`, without its line feed. `algorithm` is the policy's, and
/// `seconds` the second since 1970 at which it was said. If memory runs out, `text` may have a part
/// of the line.
fn push_next(
    text: &mut String,
    next: &Next<'_>,
    algorithm: SecurityAlgorithm,
    seconds: u128,
) -> Result<(), AllocError>
    ensures { OnOk result ((now : ℕ) → string_bytes text.new ≡ string_bytes text.old
        ++ todo_line algorithm (todo_of now next.now) seconds) }
{
    match next {
        Next::Report { roll, half, ttl } => {
            text.push_str(report_name(*half))?;
            text.push_str(roll_name(*roll))?;
            push_field(text, u128::from(*ttl))?;
            push_field(text, seconds)
        }
        Next::Wait { roll, half } => {
            text.push_str(wait_name(*half))?;
            text.push_str(roll_name(*roll))?;
            push_field(text, seconds)
        }
        Next::Done { roll } => {
            text.push_str("done ")?;
            text.push_str(roll_name(*roll))
        }
        Next::Start { roll, old, new } => push_start(text, *roll, old, new, seconds),
        Next::Delete { reference } => {
            text.push_str("delete ")?;
            text.push_str(*reference)
        }
        Next::Publish { kind } => {
            text.push_str("publish ")?;
            text.push_str(kind_name(*kind))
        }
        Next::NeedKey { role } => {
            text.push_str("key ")?;
            text.push_str(role_name(*role))?;
            push_field(text, u128::from(algorithm.to_int()))
        }
        Next::Watch { kind } => {
            text.push_str("watch ")?;
            text.push_str(kind_name(*kind))
        }
        Next::NotBefore { moment } => {
            text.push_str("until ")?;
            push_number(text, first_second(*moment))
        }
        Next::Stuck { why } => push_stuck(text, *why),
        Next::Rest => text.push_str("nothing: the zone is as the policy wants it"),
    }
}

/// Appends to `text` the line that says that nothing is done and why, as
/// `nothing: ksk-roll may not begin beside the rolls in progress`. If memory runs out, `text` may
/// have a part of it.
fn push_stuck(text: &mut String, why: Why) -> Result<(), AllocError>
    ensures { OnOk result (string_bytes text.new ≡ string_bytes text.old ++ stuck_text why) }
{
    text.push_str("nothing: ")?;
    write!(text, "{why}")
}

/// Appends to `text` the line of a script that starts a roll, as `start zsk-roll Z1 Z2 1700000000`:
/// the references of the old keys, those of the new ones, and the second since 1970. Commas stand
/// between the references of a list, and `-` for an empty one. If memory runs out, `text` may have
/// a part of it.
fn push_start(
    text: &mut String,
    roll: RollType,
    old: &[&str],
    new: &[&str],
    seconds: u128,
) -> Result<(), AllocError>
    ensures { OnOk result (string_bytes text.new ≡ string_bytes text.old
        ++ start_text roll (map now old.now) (map now new.now) seconds) }
{
    text.push_str("start ")?;
    text.push_str(roll_name(roll))?;
    text.push_str(" ")?;
    push_list(text, old)?;
    text.push_str(" ")?;
    push_list(text, new)?;
    push_field(text, seconds)
}

/// Appends the references to `text`, with commas between them, or `-` if there are none. If memory
/// runs out, `text` may have a part of them.
fn push_list(text: &mut String, references: &[&str]) -> Result<(), AllocError>
    ensures { OnOk result (string_bytes text.new ≡ string_bytes text.old
        ++ list_text (map now references.now)) }
{
    match references.split_first() {
        None => text.push_str("-"),
        Some((first, rest)) => {
            text.push_str(*first)?;
            push_rest(text, rest)
        }
    }
}

/// Appends each of the references to `text`, with a comma before it, and nothing if there are none.
/// They are those after the first one of a list. If memory runs out, `text` may have a part of
/// them.
fn push_rest(text: &mut String, references: &[&str]) -> Result<(), AllocError>
    ensures { OnOk result (string_bytes text.new ≡ string_bytes text.old
        ++ flat_map (λ r. codes "," ++ r) (map now references.now)) }
{
    for reference in references {
        push_one(text, *reference)?;
    }
    Ok(())
}

/// Appends a comma and the reference to `text`. If memory runs out, `text` may have a part of it.
fn push_one(text: &mut String, reference: &str) -> Result<(), AllocError>
    ensures { OnOk result (string_bytes text.new ≡ string_bytes text.old
        ++ (codes "," ++ reference.now)) }
{
    text.push_str(",")?;
    text.push_str(reference)
}

/// Appends a space and the number, in decimal, to `text`. If memory runs out, `text` may have a
/// part of it.
fn push_field(text: &mut String, number: u128) -> Result<(), AllocError>
    ensures { OnOk result (string_bytes text.new ≡ string_bytes text.old
        ++ (codes " " ++ decimal number)) }
{
    text.push_str(" ")?;
    push_number(text, number)
}

/// Appends the number to `text` in decimal. If memory runs out, `text` may have a part of it.
fn push_number(text: &mut String, number: u128) -> Result<(), AllocError>
    ensures { OnOk result (string_bytes text.new ≡ string_bytes text.old ++ decimal number) }
{
    write!(text, "{number}")
}

/// The first whole second since 1970 that isn't before `moment`, in nanoseconds since 1970. So
/// whoever waits until that second isn't early.
fn first_second(moment: u128) -> u128
    ensures { result ≡ first_second moment }
{
    let whole = moment / 1_000_000_000;
    if moment % 1_000_000_000 == 0 {
        whole
    } else {
        whole + 1
    }
}

/// The word that makes the report of this half of a roll in a script, `report1` or `report2`, and a
/// space.
fn report_name(half: Half) -> &'static str
    ensures { result.now ≡ report_name half }
{
    match half {
        Half::First => "report1 ",
        Half::Second => "report2 ",
    }
}

/// The word that ends the wait of this half of a roll in a script, `wait1` or `wait2`, and a space.
fn wait_name(half: Half) -> &'static str
    ensures { result.now ≡ wait_name half }
{
    match half {
        Half::First => "wait1 ",
        Half::Second => "wait2 ",
    }
}

/// The word for a role in a line: `ksk`, `zsk` or `csk`.
fn role_name(role: KeyRole) -> &'static str
    ensures { result.now ≡ role_name role }
{
    match role {
        KeyRole::Ksk => "ksk",
        KeyRole::Zsk => "zsk",
        KeyRole::Csk => "csk",
    }
}
