//! A policy as a text.
ghost use Rattle.std.specs.Prelude.{◌≡◌, ◌++◌, ◌/◌, IfOk, Ok, OnOk, decimal, string_bytes};
ghost use Rattle.dnssec_script.specs.Script.{lines_of};
ghost use Rattle.dnssec_policy.specs.Text.Reading.{policy_of};
ghost use Rattle.dnssec_policy.specs.Text.Writing.{IsSayable, first_line, lifetime_text};
ghost use Rattle.dnssec_policy.specs.Text.Writing.{number_line, once_text, policy_text};
ghost use Rattle.dnssec_policy.specs.Text.Writing.{renewal_text, renewals_text, rolls_text};

use super::wish::{WishWord, word_name};
use crate::policy::{KeyRole, Policy, Scheme, Term};
use dnssec_key::roll_name;
use dnssec_keyset::{RollType, UnixTime};
use std::alloc::{AllocError, Global};
use std::time::Duration;

/// Writes the policy as a text, with a line feed after each line. `read_policy` reads it as the
/// same policy again, if each `once` is in whole seconds, and a policy of CSKs has neither a
/// lifetime nor `once` for ZSKs. Otherwise the text has `once` rounded down, and nothing of ZSKs.
///
/// # Errors
///
/// If there is no memory.
///
/// ```rust
/// let text = policy_text(alloc, &policy)?;
/// ```
pub fn policy_text(alloc: Global, policy: &Policy) -> Result<String, AllocError>
    ensures text { IfOk result (λ text. string_bytes text ≡ policy_text policy.now) }
    ensures read { IfOk result (λ text. IsSayable policy.now →
        policy_of (lines_of (string_bytes text)) ≡ Ok policy.now) }
{
    let mut text = String::new(alloc);
    push_policy(&mut text, policy)?;
    Ok(text)
}

/// Appends all lines of the policy to `text`, the last of which is `delete-after` and its seconds.
/// If memory runs out, `text` may have got a part of them.
fn push_policy(text: &mut String, policy: &Policy) -> Result<(), AllocError>
    ensures { OnOk result (string_bytes text.new ≡ string_bytes text.old
        ++ policy_text policy.now) }
{
    push_first(text, policy)?;
    push_renewals(text, policy)?;
    push_line(text, WishWord::DeleteAfter, u128::from(policy.delete_after))
}

/// Appends the first line of the policy to `text`, as `policy 13 ksk-roll zsk-roll`, with its line
/// feed. If memory runs out, `text` may have got a part of it.
fn push_first(text: &mut String, policy: &Policy) -> Result<(), AllocError>
    ensures { OnOk result (string_bytes text.new ≡ string_bytes text.old ++ first_line policy.now) }
{
    text.push_str("policy ")?;
    push_number(text, u128::from(policy.algorithm.to_int()))?;
    text.push_str(" ")?;
    push_rolls(text, policy.scheme)?;
    text.push_str("\n")
}

/// Appends to `text` the names of the rolls by which a scheme renews keys, as `ksk-roll zsk-roll`.
/// If memory runs out, `text` may have got a part of them.
fn push_rolls(text: &mut String, scheme: Scheme) -> Result<(), AllocError>
    ensures { OnOk result (string_bytes text.new ≡ string_bytes text.old ++ rolls_text scheme) }
{
    match scheme {
        Scheme::Split(ksk, zsk) => {
            text.push_str(roll_name(ksk.roll()))?;
            text.push_str(" ")?;
            text.push_str(roll_name(zsk.roll()))
        }
        Scheme::SingleType => text.push_str(roll_name(RollType::CskRoll)),
    }
}

/// Appends to `text` the lines that say when keys are renewed: of KSKs and ZSKs, or of CSKs, as the
/// scheme has them. If memory runs out, `text` may have got a part of them.
fn push_renewals(text: &mut String, policy: &Policy) -> Result<(), AllocError>
    ensures { OnOk result (string_bytes text.new ≡ string_bytes text.old
        ++ renewals_text policy.now policy.now.scheme) }
{
    match policy.scheme {
        Scheme::Split(_, _) => {
            push_renewal(text, KeyRole::Ksk, &policy.ksk)?;
            push_renewal(text, KeyRole::Zsk, &policy.zsk)
        }
        Scheme::SingleType => push_renewal(text, KeyRole::Csk, &policy.ksk),
    }
}

/// Appends to `text` the lines that say when keys of this role are renewed: the lifetime and
/// `once`, each only if it is set. If memory runs out, `text` may have got a part of them.
fn push_renewal(text: &mut String, role: KeyRole, renewal: &Term) -> Result<(), AllocError>
    ensures { OnOk result (string_bytes text.new ≡ string_bytes text.old
        ++ renewal_text role renewal.now) }
{
    push_lifetime(text, role, renewal.lifetime)?;
    push_once(text, role, renewal.once)
}

/// Appends to `text` the line of the lifetime of keys of this role, in seconds, as
/// `ksk-lifetime 31536000`. Without a lifetime there is no line. If memory runs out, `text` may
/// have got a part of it.
fn push_lifetime(text: &mut String, role: KeyRole, lifetime: Option<u64>) -> Result<(), AllocError>
    ensures { OnOk result (string_bytes text.new ≡ string_bytes text.old
        ++ lifetime_text role lifetime) }
{
    match lifetime {
        None => Ok(()),
        Some(seconds) => push_line(text, WishWord::Lifetime(role), u128::from(seconds)),
    }
}

/// Appends to `text` the line of the moment from which keys of this role are renewed on demand, as
/// `ksk-once 1700000000`, in seconds since 1970, rounded down. Without a moment there is no line.
/// If memory runs out, `text` may have got a part of it.
fn push_once(text: &mut String, role: KeyRole, once: Option<UnixTime>) -> Result<(), AllocError>
    ensures { OnOk result (string_bytes text.new ≡ string_bytes text.old ++ once_text role once) }
{
    match once {
        None => Ok(()),
        Some(moment) => push_line(text, WishWord::Once(role), whole_seconds(moment)),
    }
}

/// The seconds since 1970 up to `moment`, rounded down.
fn whole_seconds(moment: UnixTime) -> u128
    ensures { result ≡ moment / 1_000_000_000 }
{
    Duration::from(moment).as_nanos() / 1_000_000_000
}

/// Appends a line to `text`: the word, a space, the number in decimal, and a line feed. If memory
/// runs out, `text` may have got a part of it.
fn push_line(text: &mut String, word: WishWord, number: u128) -> Result<(), AllocError>
    ensures { OnOk result (string_bytes text.new ≡ string_bytes text.old
        ++ number_line word number) }
{
    text.push_str(word_name(word))?;
    text.push_str(" ")?;
    push_number(text, number)?;
    text.push_str("\n")
}

/// Appends a number to `text`, in decimal. If memory runs out, `text` may have got a part of it.
fn push_number(text: &mut String, number: u128) -> Result<(), AllocError>
    ensures { OnOk result (string_bytes text.new ≡ string_bytes text.old ++ decimal number) }
{
    write!(text, "{number}")
}
