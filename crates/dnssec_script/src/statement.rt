//! What a line of a script says: the call of its word, made from its fields; and what the next of
//! the lines of a script says.
ghost use Rattle.std.specs.Prelude.{◌≡◌, if◌then◌else◌, IfOk, IfErr, IsSome, None, true, [], ◌∷◌};
ghost use Rattle.std.specs.Prelude.{ℕ, suc, List, IfSome, map};
ghost use denote.Bor.{now};
ghost use Rattle.std.specs.Option.{option_map};
ghost use Rattle.dnssec_key.specs.Key.{is_available};
ghost use Rattle.dnssec_run.specs.declared.call.Call.{Call};
ghost use Rattle.dnssec_script.specs.Script.{call_says, said_after_word, says};
ghost use Rattle.dnssec_script.specs.Script.{Moment, References, Roll, as_list, as_roll, as_time};
ghost use Rattle.dnssec_script.specs.Script.{values_of};
ghost use Rattle.dnssec_script.specs.Inner.Reading.{HasRead, IsReadFault, ReadsOn, lines_left};
ghost use Rattle.dnssec_script.specs.Inner.Statement.{MakesEntry, start_says};
ghost use Rattle.dnssec_script.specs.Inner.Statement.{adds, statement_says, takes_memory, texts_of};

use crate::fields::{Fields, ReferenceList, split_once};
use crate::forms::{
    KeyTraits, flag, key, public_key, report, roll, signing_key, stamp, timed_flag, wait,
};
use crate::lines::{Lines, ReadFault};
use crate::word::Word;
use dnssec_keyset::{Available, Error, RollType, UnixTime};
use dnssec_run::{Call, Entry, Recorder};
use std::alloc::{AllocError, Global};
use std::slice;

/// What a line says: its call. Only the call of a start is made later, since it borrows its lists.
#[derive(Drop)]
pub enum Statement<'a> {
    Call(Call<'a>),
    Start(Start<'a>),
}

/// A start of a roll. The references of its lists are parts of the line.
#[derive(Drop)]
pub struct Start<'a> {
    rolltype: RollType,
    old: ListTexts<'a>,
    new: ListTexts<'a>,
    moment: UnixTime,
}

/// The references of a list as texts. A single one, as most lists have, takes no memory.
#[derive(Drop)]
pub(crate) enum ListTexts<'a> {
    One(&'a str),
    Any(Vec<&'a str>),
}

impl<'a> ListTexts<'a> {
    /// The references in their order.
    fn as_slice(&self) -> &[&'a str]
        ensures { map now result.now ≡ texts_of self.now }
    {
        match self {
            ListTexts::One(reference) => slice::from_ref(reference),
            ListTexts::Any(references) => references,
        }
    }
}

impl<'a> ReferenceList<'a> {
    /// The references of the list, in their order, as parts of the line. The list `-` has none.
    /// Only a list of several takes memory, from `alloc`, and the only error is a lack of it.
    fn texts(self, alloc: Global) -> Result<ListTexts<'a>, AllocError>
        ensures { IfOk result (λ texts. texts_of texts ≡ self.entry) }
    {
        let mut references = Vec::new(alloc);
        let Some(text) = self.text else {
            return Ok(ListTexts::Any(references));
        };
        // Each part is a reference, and so it is text.
        let (first, others) = split_once(text, b',');
        if others.is_none() {
            return Ok(ListTexts::One(unsafe { str::from_utf8_unchecked(first) }));
        }
        for part in text.split(|byte| *byte == b',') {
            references.push(unsafe { str::from_utf8_unchecked(part) })?;
        }
        Ok(ListTexts::Any(references))
    }
}

impl<'a> Start<'a> {
    /// The call that starts the roll. It borrows its lists from this start, and no memory is taken.
    pub fn call(&self) -> Call<'_>
        ensures { call_says result ≡ start_says self.now }
    {
        Call::StartRoll {
            rolltype: self.rolltype,
            old: self.old.as_slice(),
            new: self.new.as_slice(),
            now: self.moment,
        }
    }
}

impl<'a> Statement<'a> {
    /// Makes the call of the line on `recorder`, and answers its entry of the record. A refused
    /// call has an entry too, also if it was refused for lack of memory. It leaves the key set and
    /// the published sets as they were.
    ///
    /// # Errors
    ///
    /// Only `OutOfMemory`, if there is no memory for the entry. The recorder is then of no more
    /// use: begin anew with the first line.
    pub fn make(self, alloc: Global, recorder: &mut Recorder) -> Result<Entry, Error>
        ensures { IfOk result (MakesEntry (statement_says self.entry) recorder.old recorder.new) }
    {
        match self {
            Statement::Call(call) => recorder.make(alloc, call),
            Statement::Start(start) => recorder.make(alloc, start.call()),
        }
    }
}

impl<'a> Lines<'a> {
    /// Reads the next line, and answers what it says, or `None` after the last line. After an error
    /// too, the next call goes on with the line after it.
    ///
    /// # Errors
    ///
    /// - `Malformed` with the number of the line if it doesn't have its form. Line 1 is that of the
    ///   zone.
    /// - `OutOfMemory` if there is no memory for its call. A line that makes no call takes none.
    // Inline, so that a program that reads scripts in several places takes no longer for a line.
    #[inline(always)]
    pub fn next(&mut self, alloc: Global) -> Result<Option<Statement<'a>>, ReadFault>
        ensures ok { IfOk result (λ found. (script name : List ℕ) (calls : List Call) →
            HasRead script name calls self.old → ReadsOn script name calls self.new found) }
        ensures fewer { IfOk result (λ found. IfSome found (λ _.
            lines_left self.old ≡ suc (lines_left self.new))) }
        ensures err { IfErr result (λ fault. (script name : List ℕ) (calls : List Call) →
            HasRead script name calls self.old → IsReadFault script fault) }
    {
        let Some(text) = self.rest else {
            return Ok(None);
        };
        // More lines than can be counted would have no room.
        let Some(count) = self.count.checked_add(1) else {
            return Err(ReadFault::OutOfMemory);
        };
        let (line, rest) = split_once(text, b'\n');
        self.rest = rest;
        self.count = count;
        match read_line(alloc, line)? {
            Some(statement) => Ok(Some(statement)),
            None => Err(ReadFault::Malformed(count)),
        }
    }
}

/// What a line of a script says, without its line feed, or `None` if it doesn't have the form of
/// such a line. The line that names the zone says no call, so that is `None` too.
///
/// # Errors
///
/// `AllocError` if there is no memory for the call of the line. A line that makes no call takes
/// none.
#[tactic(auto, unfolding(crate::specs::Script::says))]
pub fn read_line<'a>(alloc: Global, line: &'a [u8]) -> Result<Option<Statement<'a>>, AllocError>
    ensures read { IfOk result (λ found. option_map statement_says found ≡ says line.now) }
    ensures memory { IfErr result (λ _. IsSome (says line.now)) }
{
    let Some((word, fields)) = Fields::after_word(line) else {
        return Ok(None);
    };
    match word {
        Word::AddKsk | Word::AddZsk | Word::AddCsk | Word::AddPublic => {
            call_that_adds(alloc, word, fields)
        }
        Word::Start => match start_fields(fields) {
            Some((rolltype, old, new, moment)) => Ok(Some(Statement::Start(Start {
                rolltype,
                old: old.texts(alloc)?,
                new: new.texts(alloc)?,
                moment,
            }))),
            None => Ok(None),
        },
        _ => Ok(call_of_parts(word, fields)),
    }
}

/// The call of a word that adds a key, made from the fields after the word. `None` for any other
/// word, and if the fields don't have their form. The only error is that there is no memory for the
/// references.
fn call_that_adds<'a>(
    alloc: Global,
    word: Word,
    fields: Fields<'_>,
) -> Result<Option<Statement<'a>>, AllocError>
    ensures read { IfOk result (λ found. option_map statement_says found
        ≡ if adds word then said_after_word word fields.entry else None) }
    ensures memory { adds word ≡ true →
        IfErr result (λ _. IsSome (said_after_word word fields.entry)) }
{
    if let Word::AddPublic = word {
        let Some((pubref, traits)) = public_key(alloc, fields)? else {
            return Ok(None);
        };
        return Ok(Some(Statement::Call(Call::AddPublicKey {
            pubref,
            algorithm: traits.algorithm,
            key_tag: traits.key_tag,
            creation_ts: traits.creation_ts,
            available: traits.available,
        })));
    }
    let Some((pubref, privref, traits)) = signing_key(alloc, fields)? else {
        return Ok(None);
    };
    let KeyTraits {
        algorithm,
        key_tag,
        creation_ts,
        available,
    } = traits;
    let available = availability(available);
    let call = match word {
        Word::AddKsk => Call::AddKeyKsk {
            pubref,
            privref,
            algorithm,
            key_tag,
            creation_ts,
            available,
        },
        Word::AddZsk => Call::AddKeyZsk {
            pubref,
            privref,
            algorithm,
            key_tag,
            creation_ts,
            available,
        },
        Word::AddCsk => Call::AddKeyCsk {
            pubref,
            privref,
            algorithm,
            key_tag,
            creation_ts,
            available,
        },
        _ => return Ok(None),
    };
    Ok(Some(Statement::Call(call)))
}

/// The call of a word that neither adds a key nor starts a roll, made from the fields after the
/// word. It borrows from the line, and takes no memory. `None` for an add or a start, and if the
/// fields don't have their form.
fn call_of_parts<'a>(word: Word, fields: Fields<'a>) -> Option<Statement<'a>>
    ensures { option_map statement_says result
        ≡ if takes_memory word then None else said_after_word word fields.entry }
{
    match word {
        Word::SetStale | Word::Delete => {
            let pubref = key(fields)?;
            Some(Statement::Call(match word {
                Word::SetStale => Call::SetStale { pubref },
                _ => Call::DeleteKey { pubref },
            }))
        }
        Word::SetDecoupled | Word::SetSigner | Word::SetAtParent => {
            let (pubref, value) = flag(fields)?;
            Some(Statement::Call(match word {
                Word::SetDecoupled => Call::SetDecoupled { pubref, value },
                Word::SetSigner => Call::SetSigner { pubref, value },
                _ => Call::SetAtParent { pubref, value },
            }))
        }
        Word::SetPresent => {
            let Some((pubref, value, now)) = timed_flag(fields) else {
                return None;
            };
            Some(Statement::Call(Call::SetPresent { pubref, value, now }))
        }
        Word::SetVisible | Word::SetDsVisible | Word::SetRrsigVisible => {
            let Some((pubref, time)) = stamp(fields) else {
                return None;
            };
            Some(Statement::Call(match word {
                Word::SetVisible => Call::SetVisible { pubref, time },
                Word::SetDsVisible => Call::SetDsVisible { pubref, time },
                _ => Call::SetRrsigVisible { pubref, time },
            }))
        }
        Word::Report1 | Word::Report2 => {
            let Some((rolltype, ttl, now)) = report(fields) else {
                return None;
            };
            Some(Statement::Call(match word {
                Word::Report1 => Call::Propagation1Complete { rolltype, ttl, now },
                _ => Call::Propagation2Complete { rolltype, ttl, now },
            }))
        }
        Word::Wait1 | Word::Wait2 => {
            let Some((rolltype, now)) = wait(fields) else {
                return None;
            };
            Some(Statement::Call(match word {
                Word::Wait1 => Call::CacheExpired1 { rolltype, now },
                _ => Call::CacheExpired2 { rolltype, now },
            }))
        }
        Word::Done | Word::Abort => {
            let rolltype = roll(fields)?;
            Some(Statement::Call(match word {
                Word::Done => Call::RollDone { rolltype },
                _ => Call::AbortRoll { rolltype },
            }))
        }
        _ => None,
    }
}

/// The argument of an add that says whether a roll may take the key as a new one.
fn availability(may_come_in: bool) -> Available
    ensures { is_available result ≡ may_come_in }
{
    if may_come_in {
        Available::Available
    } else {
        Available::NotAvailable
    }
}

/// Reads the fields after the word that starts a roll: the roll, the references of its old keys and
/// of its new ones, and the moment of the start, in whole seconds since 1970. The lists are parts
/// of the line, and no memory is taken. `None` if the fields have another form, or if there are
/// more or fewer.
fn start_fields<'a>(
    fields: Fields<'a>,
) -> Option<(RollType, ReferenceList<'a>, ReferenceList<'a>, UnixTime)>
    ensures { option_map (λ x. Roll x.0 ∷ References x.1 ∷ References x.2 ∷ Moment x.3 ∷ []) result
        ≡ values_of (as_roll ∷ as_list ∷ as_list ∷ as_time ∷ []) fields.entry }
{
    let (rolltype, fields) = fields.roll()?;
    let (old, fields) = fields.list()?;
    let (new, fields) = fields.list()?;
    Some((rolltype, old, new, fields.last_time()?))
}
