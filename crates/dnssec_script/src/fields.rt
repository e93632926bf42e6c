//! A text that is cut at a byte: a script at its line feeds, and a line at its spaces. Then the
//! fields of a line, and what each says.
ghost use Rattle.std.specs.Prelude.{◌≡◌, ◌≤◌, ◌==◌, ◌∷◌, if◌then◌else◌, [], map};
ghost use Rattle.std.specs.List.{slice_split};
ghost use Rattle.dnssec_script.specs.Inner.Reading.{parts_left};
ghost use Rattle.std.specs.Prelude.{Option, Some, None, is_some, IfSome, IfNone};
ghost use Rattle.std.specs.Str.{IsAscii};
ghost use denote.Bor.{now};
ghost use Rattle.std.specs.Option.{option_map};
ghost use Rattle.dnssec_script.specs.Script.{Value, Reference, Private, References, Flag, Roll};
ghost use Rattle.dnssec_script.specs.Script.{Number, Moment, is_reference, as_reference};
ghost use Rattle.dnssec_script.specs.Script.{as_private, as_list, as_yes_no, as_roll, as_number};
ghost use Rattle.dnssec_script.specs.Script.{as_algorithm, as_tag, as_ttl, as_time};
ghost use Rattle.dnssec_script.specs.Script.{is_list, is_number, number_of, references_of};
ghost use Rattle.dnssec_script.specs.Script.{value_at, values_of, first_field, fields_of};
ghost use Rattle.dnssec_script.specs.Script.{word_at};

use crate::word::Word;
use dnssec_base::SecurityAlgorithm;
use dnssec_keyset::{RollType, UnixTime};
use std::marker::Model;
use std::simd::prelude::*;
use std::time::Duration;

/// How many bytes are looked at together, and how many if fewer are left.
const LANES: usize = 16;

const FEW: usize = 8;

/// The text before the first `byte`, and the text after it. Without such a byte it is the whole
/// text, and `None`. Each byte of a script is read here first, so it looks at many at a time.
pub(crate) fn split_once(text: &[u8], byte: u8) -> (&[u8], Option<&[u8]>)
    ensures { slice_split (λ b. b == byte) text.now ≡ result.0.now ∷ parts_left byte result.1 }
{
    let mut end = 0;
    while text.len() - end >= LANES {
        let hits = u8x16::from_slice(&text[end..])
            .simd_eq(u8x16::splat(byte))
            .to_bitmask();
        if hits != 0 {
            end += hits.trailing_zeros() as usize;
            return (&text[..end], Some(&text[end + 1..]));
        }
        end += LANES;
    }
    if text.len() - end >= FEW {
        let hits = u8x8::from_slice(&text[end..])
            .simd_eq(u8x8::splat(byte))
            .to_bitmask();
        if hits != 0 {
            end += hits.trailing_zeros() as usize;
            return (&text[..end], Some(&text[end + 1..]));
        }
        end += FEW;
    }
    while end < text.len() {
        if text[end] == byte {
            return (&text[..end], Some(&text[end + 1..]));
        }
        end += 1;
    }
    (text, None)
}

/// Whether the text has the form of a key's reference: one or more visible ASCII characters, except
/// the comma, and not a single `-`.
// Out of line: inline, each byte would set anew what the other words of a line leave empty.
#[inline(never)]
#[tactic(auto, unfolding(crate::specs::Script::is_reference))]
fn is_reference(text: &[u8]) -> bool
    ensures { result ≡ is_reference text.now }
{
    !text.is_empty()
        && text != b"-".as_slice()
        && text
            .iter()
            .all(|byte| byte.is_ascii_graphic() && *byte != b',')
}

/// The flag that the text says: true for `yes`, false for `no`, and `None` for any other text.
#[tactic(auto, using(crate::proofs::Ascii::steps), unfolding(crate::specs::Script::as_yes_no))]
fn yes_no(text: &[u8]) -> Option<bool>
    ensures { option_map Flag result ≡ as_yes_no text.now }
{
    if text == b"yes".as_slice() {
        Some(true)
    } else if text == b"no".as_slice() {
        Some(false)
    } else {
        None
    }
}

/// The bytes as a text, or `None` if they aren't all ASCII.
#[tactic(auto, using(crate::proofs::Ascii::steps))]
fn ascii(text: &[u8]) -> Option<&str>
    ensures same { IfSome result (λ ascii. ascii.now ≡ text.now) }
    ensures none { IfNone result (¬ IsAscii text.now) }
{
    if !text.is_ascii() {
        return None;
    }
    Some(unsafe { str::from_utf8_unchecked(text) })
}

/// The number that 1 to 20 decimal digits write, or `None` for any other text, and for a number
/// above `most`.
#[inline(always)]
#[tactic(auto, unfolding(crate::specs::Script::is_number))]
fn number(most: u64, text: &[u8]) -> Option<u64>
    ensures bound { IfSome result (λ n. n ≤ most) }
    ensures read { result ≡ if is_number most text.now then Some (number_of text.now) else None }
{
    if text.is_empty() || text.len() > 20 {
        return None;
    }
    let mut number: u64 = 0;
    for digit in text {
        if !digit.is_ascii_digit() {
            return None;
        }
        number = number
            .checked_mul(10)?
            .checked_add(u64::from(*digit - b'0'))?;
    }
    if number <= most { Some(number) } else { None }
}

/// The text as a key's reference, or `None` if it doesn't have the form of one.
#[inline(always)]
#[tactic(auto, using(crate::proofs::Ascii::steps), unfolding(crate::specs::Script::as_reference))]
fn reference(text: &[u8]) -> Option<&str>
    ensures read { option_map (λ q. Reference q.now) result ≡ as_reference text.now }
    ensures is { is_some result ≡ is_reference text.now }
    ensures same { IfSome result (λ q. q.now ≡ text.now) }
{
    if !is_reference(text) {
        return None;
    }
    // All of them are ASCII, and so they are text.
    Some(unsafe { str::from_utf8_unchecked(text) })
}

/// What the text says of a key's private part: `Some(None)` for `-`, which says that there is none,
/// or its reference. `None` if the text has neither form.
#[tactic(auto, unfolding(crate::specs::Script::as_private, crate::specs::Script::as_reference))]
fn private(text: &[u8]) -> Option<Option<&str>>
    ensures { option_map (λ q. Private (option_map now q)) result ≡ as_private text.now }
{
    if text == b"-".as_slice() {
        Some(None)
    } else {
        Some(Some(reference(text)?))
    }
}

/// The algorithm that the text names, by its number up to 255 or by its name, or `None` for any
/// other text.
#[inline(always)]
#[tactic(auto, using(crate::proofs::Ascii::steps), unfolding(crate::specs::Script::as_algorithm))]
fn algorithm(text: &[u8]) -> Option<SecurityAlgorithm>
    ensures { option_map Number result ≡ as_algorithm text.now }
{
    match number(255, text) {
        Some(number) => Some(SecurityAlgorithm::from_int(number as u8)),
        None => SecurityAlgorithm::from_name(ascii(text)?),
    }
}

/// The fields of a line that haven't been read yet, each between single spaces.
#[derive(Drop)]
pub struct Fields<'a> {
    rest: Option<&'a [u8]>,
}

impl<'a> Model for Fields<'a> {
    ghost use Rattle.std.specs.Prelude.{ℕ, List, []};
    ghost use Rattle.std.specs.Option.{option_map_or};

    ghost Value = { List (List ℕ) };

    ghost use Rattle.dnssec_script.specs.Script.{fields_of};

    ghost view = { λ fields. option_map_or (λ rest. fields_of rest.now) fields.rest [] };
}

impl<'a> Fields<'a> {
    /// All fields of a line, the texts between its single spaces. None of them is read yet. An
    /// empty line has one field, which is empty.
    pub fn of(line: &'a [u8]) -> Self
        ensures { result ≡ fields_of line.now }
    {
        Fields { rest: Some(line) }
    }

    /// The next field, and those after it, or `None` if no field is left. Between two spaces in a
    /// row stands an empty field.
    pub fn next(self) -> Option<(&'a [u8], Fields<'a>)>
        ensures { option_map (λ x. (x.0.now, x.1)) result ≡ first_field self.entry }
    {
        let (field, rest) = split_once(self.rest?, b' ');
        Some((field, Fields { rest }))
    }

    /// `Some` if no field is left, and `None` if one is: that line has a field too many.
    pub fn end(self) -> Option<()>
        ensures { option_map (λ _. []) result ≡ values_of [] self.entry }
    {
        match self.next() {
            Some(_) => None,
            None => Some(()),
        }
    }

    /// The word with which a line begins, and the fields after it, or `None` if a script has no
    /// such word.
    #[tactic(auto, using(crate::proofs::Ascii::steps), unfolding(crate::specs::Script::word_named))]
    pub(crate) fn after_word(line: &'a [u8]) -> Option<(Word, Fields<'a>)>
        ensures { option_map (λ x. (x.0, x.1)) result ≡ word_at (fields_of line.now) }
    {
        let (name, rest) = split_once(line, b' ');
        // They are compared in turn, so those of rolls come first: most lines have them.
        let word = match ascii(name)? {
            "start" => Word::Start,
            "report1" => Word::Report1,
            "wait1" => Word::Wait1,
            "report2" => Word::Report2,
            "wait2" => Word::Wait2,
            "done" => Word::Done,
            "abort" => Word::Abort,
            "set-decoupled" => Word::SetDecoupled,
            "set-present" => Word::SetPresent,
            "set-signer" => Word::SetSigner,
            "set-at-parent" => Word::SetAtParent,
            "set-stale" => Word::SetStale,
            "set-visible" => Word::SetVisible,
            "set-ds-visible" => Word::SetDsVisible,
            "set-rrsig-visible" => Word::SetRrsigVisible,
            "delete" => Word::Delete,
            "add-ksk" => Word::AddKsk,
            "add-zsk" => Word::AddZsk,
            "add-csk" => Word::AddCsk,
            "add-public" => Word::AddPublic,
            _ => return None,
        };
        Some((word, Fields { rest }))
    }

    /// Reads the next field as a key's reference. Answers it and the fields after it, or `None` if
    /// it is missing or has another form.
    // Inline, as others that read a field: a call would pass what is left of them through memory.
    #[inline(always)]
    pub(crate) fn reference(self) -> Option<(&'a str, Fields<'a>)>
        ensures { option_map (λ x. (Reference x.0.now, x.1)) result
            ≡ value_at as_reference self.entry }
    {
        let (text, fields) = self.next()?;
        Some((reference(text)?, fields))
    }

    /// Reads the next field as the reference of a key's private part, or `-` for none. Answers it
    /// and the fields after it, or `None` if it is missing or has another form.
    #[inline(always)]
    pub(crate) fn private(self) -> Option<(Option<&'a str>, Fields<'a>)>
        ensures { option_map (λ x. (Private (option_map now x.0), x.1)) result
            ≡ value_at as_private self.entry }
    {
        let (text, fields) = self.next()?;
        Some((private(text)?, fields))
    }

    /// Reads the next field as `yes` or `no`. Answers that flag and the fields after it, or `None`
    /// if it is missing or has another form.
    #[inline(always)]
    pub(crate) fn yes_no(self) -> Option<(bool, Fields<'a>)>
        ensures { option_map (λ x. (Flag x.0, x.1)) result ≡ value_at as_yes_no self.entry }
    {
        let (text, fields) = self.next()?;
        Some((yes_no(text)?, fields))
    }

    /// Reads the next field as the name of a roll, as `ksk-roll`. Answers the roll and the fields
    /// after it, or `None` if it is missing or names no roll.
    #[tactic(auto, using(crate::proofs::Rolls::rolls), unfolding(crate::specs::Script::as_roll))]
    pub(crate) fn roll(self) -> Option<(RollType, Fields<'a>)>
        ensures { option_map (λ x. (Roll x.0, x.1)) result ≡ value_at as_roll self.entry }
    {
        let (text, fields) = self.next()?;
        Some((ascii(text)?.parse().ok()?, fields))
    }

    /// Reads the next field as an algorithm, by its number up to 255 or by its name. Answers it and
    /// the fields after it, or `None` if it is missing or has another form.
    #[inline(always)]
    pub(crate) fn algorithm(self) -> Option<(SecurityAlgorithm, Fields<'a>)>
        ensures { option_map (λ x. (Number x.0, x.1)) result ≡ value_at as_algorithm self.entry }
    {
        let (text, fields) = self.next()?;
        Some((algorithm(text)?, fields))
    }

    /// Reads the next field as a key tag, a number up to 65535. Answers it and the fields after it,
    /// or `None` if it is missing or has another form.
    #[inline(always)]
    pub(crate) fn tag(self) -> Option<(u16, Fields<'a>)>
        ensures { option_map (λ x. (Number x.0, x.1)) result ≡ value_at as_tag self.entry }
    {
        let (number, fields) = self.number(65_535)?;
        Some((number as u16, fields))
    }

    /// Reads the next field as a TTL in seconds, a number of 32 bits. Answers it and the fields
    /// after it, or `None` if it is missing or has another form.
    pub fn ttl(self) -> Option<(u32, Fields<'a>)>
        ensures { option_map (λ x. (Number x.0, x.1)) result ≡ value_at as_ttl self.entry }
    {
        let (number, fields) = self.number(4_294_967_295)?;
        Some((number as u32, fields))
    }

    /// Reads the next field as a number up to `most`, in 1 to 20 decimal digits. Answers it and the
    /// fields after it, or `None` if it is missing or has another form.
    #[inline(always)]
    #[tactic(auto, unfolding(crate::specs::Script::as_number))]
    pub fn number(self, most: u64) -> Option<(u64, Fields<'a>)>
        ensures read { option_map (λ x. (Number x.0, x.1)) result
            ≡ value_at (as_number most) self.entry }
        ensures bound { IfSome result (λ x. x.0 ≤ most) }
    {
        let (text, fields) = self.next()?;
        Some((number(most, text)?, fields))
    }

    /// Reads the next field as a moment in whole seconds since 1970. Answers it and the fields
    /// after it, or `None` if it is missing or has another form.
    #[inline(always)]
    #[tactic(auto, unfolding(crate::specs::Script::as_time))]
    pub fn time(self) -> Option<(UnixTime, Fields<'a>)>
        ensures { option_map (λ x. (Moment x.0, x.1)) result ≡ value_at as_time self.entry }
    {
        let (text, fields) = self.next()?;
        let seconds = number(u64::MAX, text)?;
        Some((UnixTime::from(Duration::from_secs(seconds)), fields))
    }

    /// Reads the last field as a moment in whole seconds since 1970. `None` if it has another form,
    /// or if it isn't the only field that is left.
    pub(crate) fn last_time(self) -> Option<UnixTime>
        ensures { option_map (λ t. Moment t ∷ []) result ≡ values_of (as_time ∷ []) self.entry }
    {
        // Two fields have a space between them, and so they are no number.
        let seconds = number(u64::MAX, self.rest?)?;
        Some(UnixTime::from(Duration::from_secs(seconds)))
    }

    /// Reads the next field as a list: references with single commas between them, or `-` for none.
    /// Answers it and the fields after it, or `None` if it is missing or has another form.
    #[tactic(auto, unfolding(crate::specs::Script::as_list))]
    pub(crate) fn list(self) -> Option<(ReferenceList<'a>, Fields<'a>)>
        ensures { option_map (λ x. (References x.0, x.1)) result ≡ value_at as_list self.entry }
    {
        let (text, fields) = self.next()?;
        if text == b"-".as_slice() {
            return Some((ReferenceList { text: None }, fields));
        }
        // Most lists have a single one.
        if is_reference(text) {
            return Some((ReferenceList { text: Some(text) }, fields));
        }
        if !text
            .split(|byte| *byte == b',')
            .all(|part| is_reference(part))
        {
            return None;
        }
        Some((ReferenceList { text: Some(text) }, fields))
    }
}

/// A list of references that is still a part of its line, and takes no memory.
#[derive(Drop)]
pub(crate) struct ReferenceList<'a> {
    /// The references with single commas between them; none for an empty list.
    pub(crate) text: Option<&'a [u8]>,
}

impl<'a> Model for ReferenceList<'a> {
    ghost use Rattle.std.specs.Prelude.{◌≡◌, ◌==◌, ℕ, List, [], true, IfSome};
    ghost use Rattle.std.specs.List.{list_all, slice_split};
    ghost use Rattle.std.specs.Option.{option_map_or};
    ghost use Rattle.dnssec_script.specs.Script.{is_reference};

    ghost Value = { List (List ℕ) };

    ghost view = { λ list.
        option_map_or (λ text. slice_split (λ b. b == 44) text.now) list.text [] };

    ghost invariant = { λ list. IfSome list.text (λ text.
        list_all is_reference (slice_split (λ b. b == 44) text.now) ≡ true) };
}
