//! What a line of a policy says.
ghost use Rattle.std.specs.Prelude.{◌≡◌, Ok};
ghost use Rattle.std.specs.Option.{option_map};
ghost use Rattle.dnssec_policy.specs.Text.Wishes.{after, as_first, as_wish, base_of, is_for};
ghost use Rattle.dnssec_policy.specs.Text.Wishes.{has_role, moment_in, no_wish, scheme_of};
ghost use Rattle.dnssec_policy.specs.Text.Wishes.{seconds_in, single_of, slot, split_of};
ghost use Rattle.dnssec_policy.specs.Text.Wishes.{wish_after, with_deletion, with_lifetime};
ghost use Rattle.dnssec_policy.specs.Text.Wishes.{with_once, with_slot, word_at, word_name};
ghost use Rattle.dnssec_policy.specs.Text.Wishes.{word_named};
ghost use Rattle.dnssec_policy.specs.Text.Reading.{line_after, policy_with, said_after};

use super::fault::PolicyFault;
use crate::policy::{KeyRole, KskMethod, Policy, Scheme, Term, ZskMethod};
use dnssec_keyset::{SecurityAlgorithm, UnixTime};
use dnssec_network::either_named;
use dnssec_script::Fields;

// ---- the first line

/// The scheme of CSKs alone, given the fields after `csk-roll`: there must be none. `None` if there
/// is one.
fn single(fields: Fields<'_>) -> Option<Scheme>
    ensures { result ≡ single_of fields.entry }
{
    fields.end()?;
    Some(Scheme::SingleType)
}

/// Reads the last field of line 1 as the roll of ZSKs: `zsk-roll` or `zsk-double-signature-roll`.
/// It answers the scheme that rolls ZSKs so, and KSKs by the method `ksk`. `None` if the field is
/// missing or another, or isn't the last.
fn split(ksk: KskMethod, fields: Fields<'_>) -> Option<Scheme>
    ensures { result ≡ split_of ksk fields.entry }
{
    let (name, fields) = fields.next()?;
    let pre_publish = (b"zsk-roll".as_slice(), ZskMethod::PrePublish);
    let double = (
        b"zsk-double-signature-roll".as_slice(),
        ZskMethod::DoubleSignature,
    );
    let zsk = either_named(name, pre_publish, double)?;
    fields.end()?;
    Some(Scheme::Split(ksk, zsk))
}

/// Reads all these fields as the rolls of a scheme: `csk-roll` alone, or `ksk-roll` or
/// `ksk-double-ds-roll` and then `zsk-roll` or `zsk-double-signature-roll`. `None` if they are
/// anything else.
#[tactic(auto, unfolding(crate::specs::Text::Wishes::scheme_of))]
fn scheme(fields: Fields<'_>) -> Option<Scheme>
    ensures { result ≡ scheme_of fields.entry }
{
    let (name, fields) = fields.next()?;
    if name == b"csk-roll".as_slice() {
        return single(fields);
    }
    let double_signature = (b"ksk-roll".as_slice(), KskMethod::DoubleSignature);
    let double_ds = (b"ksk-double-ds-roll".as_slice(), KskMethod::DoubleDs);
    split(either_named(name, double_signature, double_ds)?, fields)
}

/// Reads the fields after `policy`: the number of the algorithm, up to 255, and the names of the
/// rolls of a scheme, as `13 ksk-roll zsk-roll`. `None` if they don't have this form.
fn base(fields: Fields<'_>) -> Option<(SecurityAlgorithm, Scheme)>
    ensures { result ≡ base_of fields.entry }
{
    let (number, fields) = fields.number(255)?;
    let scheme = scheme(fields)?;
    Some((SecurityAlgorithm::from_int(number as u8), scheme))
}

/// Reads the first line of a policy, as `policy 13 ksk-roll zsk-roll`: the algorithm of its keys,
/// and the scheme. `None` if the line doesn't have this form.
#[tactic(auto, unfolding(crate::specs::Text::Wishes::as_first))]
pub(crate) fn read_first(line: &[u8]) -> Option<(SecurityAlgorithm, Scheme)>
    ensures { result ≡ as_first line.now }
{
    let (word, fields) = Fields::of(line).next()?;
    if word == b"policy".as_slice() {
        base(fields)
    } else {
        None
    }
}

// ---- further lines

/// The words of further lines.
#[derive(Clone, Copy)]
pub(crate) enum WishWord {
    Lifetime(KeyRole),
    Once(KeyRole),
    DeleteAfter,
}

/// What a further line says.
#[derive(Clone, Copy)]
pub(crate) enum Wish {
    /// How many seconds after it was published a key is renewed.
    Lifetime(KeyRole, u64),
    /// From which moment on keys are renewed that were published before it.
    Once(KeyRole, UnixTime),
    /// How many seconds after it was withdrawn a key is deleted.
    DeleteAfter(u64),
}

/// Each word, once.
const WORDS: [WishWord; 7] = [
    WishWord::Lifetime(KeyRole::Ksk),
    WishWord::Lifetime(KeyRole::Zsk),
    WishWord::Lifetime(KeyRole::Csk),
    WishWord::Once(KeyRole::Ksk),
    WishWord::Once(KeyRole::Zsk),
    WishWord::Once(KeyRole::Csk),
    WishWord::DeleteAfter,
];

/// The text of a word with which a line of a policy begins: a role and `-lifetime` or `-once`, as
/// `ksk-lifetime`, or `delete-after`.
pub(crate) fn word_name(word: WishWord) -> &'static str
    ensures { result.now ≡ word_name word }
{
    match word {
        WishWord::Lifetime(KeyRole::Ksk) => "ksk-lifetime",
        WishWord::Lifetime(KeyRole::Zsk) => "zsk-lifetime",
        WishWord::Lifetime(KeyRole::Csk) => "csk-lifetime",
        WishWord::Once(KeyRole::Ksk) => "ksk-once",
        WishWord::Once(KeyRole::Zsk) => "zsk-once",
        WishWord::Once(KeyRole::Csk) => "csk-once",
        WishWord::DeleteAfter => "delete-after",
    }
}

/// The word of a policy's line with this text: a role and `-lifetime` or `-once`, as
/// `ksk-lifetime`, or `delete-after`. `None` for any other text.
#[tactic(auto, unfolding(crate::specs::Text::Wishes::word_named))]
fn word_named(name: &[u8]) -> Option<WishWord>
    ensures { result ≡ word_named name.now }
{
    WORDS
        .iter()
        .copied()
        .find(|word| name == word_name(*word).as_bytes())
}

/// Reads the first of these fields as a word of a policy's line after the first, as `ksk-lifetime`.
/// It answers the word and the fields after it. `None` if there is no field, or it is no such word.
fn first_word<'a>(fields: Fields<'a>) -> Option<(WishWord, Fields<'a>)>
    ensures { option_map (λ x. (x.0, x.1)) result ≡ word_at fields.entry }
{
    let (name, fields) = fields.next()?;
    Some((word_named(name)?, fields))
}

/// Reads the only field after a word as a number of seconds, of up to 64 bits. `None` if it is
/// none, or isn't the only field.
fn seconds(fields: Fields<'_>) -> Option<u64>
    ensures { result ≡ seconds_in fields.entry }
{
    let (seconds, fields) = fields.number(u64::MAX)?;
    fields.end()?;
    Some(seconds)
}

/// Reads the only field after a word as a moment: a second since 1970. `None` if it is none, or
/// isn't the only field.
fn moment(fields: Fields<'_>) -> Option<UnixTime>
    ensures { result ≡ moment_in fields.entry }
{
    let (moment, fields) = fields.time()?;
    fields.end()?;
    Some(moment)
}

/// Reads the fields after `word` on a policy's line: seconds for a lifetime or a deletion, a moment
/// for `once`. `None` if they don't have this form.
fn wish_after(word: WishWord, fields: Fields<'_>) -> Option<Wish>
    ensures { result ≡ wish_after word fields.entry }
{
    match word {
        WishWord::Lifetime(role) => Some(Wish::Lifetime(role, seconds(fields)?)),
        WishWord::Once(role) => Some(Wish::Once(role, moment(fields)?)),
        WishWord::DeleteAfter => Some(Wish::DeleteAfter(seconds(fields)?)),
    }
}

/// Reads a line of a policy after the first, as `ksk-lifetime 31536000`. `None` if it doesn't have
/// the form of one. It looks at no other line.
#[tactic(auto, unfolding(crate::specs::Text::Wishes::as_wish))]
fn read_wish(line: &[u8]) -> Option<Wish>
    ensures { result ≡ as_wish line.now }
{
    let (word, fields) = first_word(Fields::of(line))?;
    wish_after(word, fields)
}

// ---- what lines have said so far

/// Whether a zone of this scheme has keys of this role: KSKs and ZSKs if it is split, or else CSKs.
fn has_role(scheme: Scheme, role: KeyRole) -> bool
    ensures { result ≡ has_role scheme role }
{
    match (scheme, role) {
        (Scheme::Split(_, _), KeyRole::Ksk | KeyRole::Zsk) => true,
        (Scheme::SingleType, KeyRole::Csk) => true,
        _ => false,
    }
}

/// Whether a line that says `wish` may stand in a policy of this scheme: it speaks of keys that the
/// scheme has, or of deletions.
fn is_for(scheme: Scheme, wish: &Wish) -> bool
    ensures { result ≡ is_for scheme wish.now }
{
    match wish {
        Wish::Lifetime(role, _) | Wish::Once(role, _) => has_role(scheme, *role),
        Wish::DeleteAfter(_) => true,
    }
}

/// Keys that are never renewed.
const NEVER: Term = Term {
    lifetime: None,
    once: None,
};

/// What further lines have said so far.
#[derive(Clone, Copy)]
pub(crate) struct PolicyDraft {
    /// Of KSKs or CSKs.
    ksk: Term,
    zsk: Term,
    delete_after: Option<u64>,
}

/// When keys are renewed, after a line has added a lifetime of `seconds` to `renewal`. `None` if
/// that has a lifetime already, since a policy says it at most once.
fn with_lifetime(renewal: &Term, seconds: u64) -> Option<Term>
    ensures { result ≡ with_lifetime renewal.now seconds }
{
    match renewal.lifetime {
        Some(_) => None,
        None => Some(Term {
            lifetime: Some(seconds),
            once: renewal.once,
        }),
    }
}

/// When keys are renewed, after a line has added to `renewal` that, from `moment` on, those are
/// renewed that were published before it. `None` if that has such a moment already, since a policy
/// says it at most once.
fn with_once(renewal: &Term, moment: UnixTime) -> Option<Term>
    ensures { result ≡ with_once renewal.now moment }
{
    match renewal.once {
        Some(_) => None,
        None => Some(Term {
            lifetime: renewal.lifetime,
            once: Some(moment),
        }),
    }
}

impl PolicyDraft {
    /// The draft of a policy before its second line: no keys are renewed, and nothing is said of
    /// deletions.
    pub(crate) fn new() -> Self
        ensures { result ≡ no_wish }
    {
        PolicyDraft {
            ksk: NEVER,
            zsk: NEVER,
            delete_after: None,
        }
    }

    /// When keys of this role are renewed, by the lines so far. KSKs and CSKs share an entry, since
    /// a scheme has only one of the two.
    fn slot(&self, role: KeyRole) -> Term
        ensures { result ≡ slot self.now role }
    {
        match role {
            KeyRole::Zsk => self.zsk,
            KeyRole::Ksk | KeyRole::Csk => self.ksk,
        }
    }

    /// A copy of the draft in which keys of this role are renewed by `renewal`, in place of what
    /// was said of them. KSKs and CSKs share an entry. The rest is the same.
    fn with_slot(&self, role: KeyRole, renewal: &Term) -> Self
        ensures { result ≡ with_slot self.now role renewal.now }
    {
        match role {
            KeyRole::Zsk => PolicyDraft {
                zsk: *renewal,
                ..*self
            },
            KeyRole::Ksk | KeyRole::Csk => PolicyDraft {
                ksk: *renewal,
                ..*self
            },
        }
    }

    /// A copy of the draft in which a key is deleted `seconds` after it was withdrawn. `None` if a
    /// line has said `delete-after` already, since a policy says it at most once.
    fn with_deletion(&self, seconds: u64) -> Option<Self>
        ensures { result ≡ with_deletion self.now seconds }
    {
        match self.delete_after {
            Some(_) => None,
            None => Some(PolicyDraft {
                ksk: self.ksk,
                zsk: self.zsk,
                delete_after: Some(seconds),
            }),
        }
    }

    /// A copy of the draft with what one more line says, its `wish`. `None` if a line has said that
    /// word already. It doesn't ask whether the scheme has such keys, and takes KSKs and CSKs for
    /// the same, since a scheme has only one of the two.
    fn after(&self, wish: &Wish) -> Option<Self>
        ensures { result ≡ after self.now wish.now }
    {
        match wish {
            Wish::Lifetime(role, seconds) => {
                let renewal = with_lifetime(&self.slot(*role), *seconds)?;
                Some(self.with_slot(*role, &renewal))
            }
            Wish::Once(role, moment) => {
                let renewal = with_once(&self.slot(*role), *moment)?;
                Some(self.with_slot(*role, &renewal))
            }
            Wish::DeleteAfter(seconds) => self.with_deletion(*seconds),
        }
    }

    /// A copy of the draft with what one more line says, its `wish`. The line has this `number`,
    /// counted from 1.
    ///
    /// # Errors
    ///
    /// `NoSuchKeys` with the number if `scheme` doesn't have the keys that the line speaks of.
    /// `SaidTwice` with the number if a line has said that word already.
    fn said_after(&self, scheme: Scheme, number: usize, wish: &Wish) -> Result<Self, PolicyFault>
        ensures { result ≡ said_after scheme number self.now wish.now }
    {
        if !is_for(scheme, wish) {
            return Err(PolicyFault::NoSuchKeys(number));
        }
        match self.after(wish) {
            Some(more) => Ok(more),
            None => Err(PolicyFault::SaidTwice(number)),
        }
    }

    /// A copy of the draft with what one more line of the policy says. The line has this `number`,
    /// counted from 1, and `scheme` is that of line 1.
    ///
    /// # Errors
    ///
    /// With the number of the line: `Malformed` if it doesn't have the form of one, `NoSuchKeys` if
    /// the scheme doesn't have the keys that it speaks of, and `SaidTwice` if a line has said its
    /// word already.
    pub(crate) fn line_after(
        &self,
        scheme: Scheme,
        number: usize,
        line: &[u8],
    ) -> Result<Self, PolicyFault>
        ensures { result ≡ line_after scheme number self.now line.now }
    {
        match read_wish(line) {
            Some(wish) => self.said_after(scheme, number, &wish),
            None => Err(PolicyFault::Malformed(number)),
        }
    }

    /// The policy of the draft with the algorithm and the scheme of line 1. Without `delete-after`
    /// a withdrawn key stays no longer than it has to: 0 seconds.
    pub(crate) fn policy(&self, algorithm: SecurityAlgorithm, scheme: Scheme) -> Policy
        ensures { result ≡ policy_with (algorithm, scheme) self.now }
    {
        Policy {
            algorithm,
            scheme,
            ksk: self.ksk,
            zsk: self.zsk,
            delete_after: self.delete_after.unwrap_or(0),
        }
    }
}
