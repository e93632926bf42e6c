//! Notes as a text.
ghost use Rattle.std.specs.Prelude.{◌≡◌, IfOk, IfErr, OnOk};
ghost use Rattle.dnssec_script.specs.Script.{lines_of, without_end};
ghost use Rattle.dnssec_network.specs.Text.Reading.{AreNotes, HasLine, IsFactFault};
ghost use Rattle.dnssec_network.specs.Text.Reading.{IsFaultOf, IsLineFault};

use super::fault::{LineFault, NotesFault};
use super::line::{read_before, read_fact};
use crate::fact::NoteFault;
use crate::notes::Notes;
use dnssec_run::Moments;
use std::alloc::Global;

/// Reads the text of a zone's notes. Its first line is `before` and the highest TTLs, in seconds,
/// of DS sets, DNSKEY sets and other sets before the first call. Each further line is a fact:
/// `published`, a kind, the number of a call, a TTL and a second since 1970, or `everywhere`, a
/// kind and a second. `moments` has the greatest moment up to each call of the script beside the
/// notes.
///
/// # Errors
///
/// - `Malformed` with the number of the first line that isn't a line of notes. Lines count from 1,
///   which is also the number for an empty text.
/// - `Refused` with the number of the first line whose fact can't follow the calls or the facts
///   before it, and the cause.
/// - `OutOfMemory` if memory runs out for a fact that could be taken.
///
/// ```rust
/// let text = "before 3600 3600 3600\npublished dnskey 12 3600 100\neverywhere dnskey 130\n";
/// let notes = read_notes(alloc, &moments, text.as_bytes())?;
/// ```
pub fn read_notes(alloc: Global, moments: &Moments, text: &[u8]) -> Result<Notes, NotesFault>
    ensures ok { IfOk result (λ notes.
        AreNotes moments.now (lines_of text.now) notes.before notes.facts) }
    ensures err { IfErr result (IsFaultOf moments.now (lines_of text.now)) }
{
    let mut lines = without_end(text).split(|byte| *byte == b'\n');
    let Some(first) = lines.next() else {
        return Err(NotesFault::Malformed(1));
    };
    let Some(before) = read_before(first) else {
        return Err(NotesFault::Malformed(1));
    };
    let mut notes = Notes::new(alloc, before);
    let mut number = 1;
    for line in lines {
        number += 1;
        note_line(&mut notes, moments, line, number)?;
    }
    Ok(notes)
}

/// The text without the line feed at its end, or all of it if it doesn't end with one. Only one
/// line feed is left out.
#[tactic(auto, using(dnssec_script::proofs::Judging::ends))]
pub fn without_end(text: &[u8]) -> &[u8]
    ensures { result.now ≡ without_end text.now }
{
    match text.split_last() {
        Some((last, rest)) => { if *last == b'\n' { rest } else { text } }
        None => text,
    }
}

/// Adds the fact that `line` states to `notes`. `moments` has the greatest moment up to each call
/// that was made. The error is `Malformed` with `number` if the line states no fact, `Refused` with
/// `number` if its fact can't follow the calls or the facts before it, or `OutOfMemory`. The notes
/// are then as they were. `number` is that of the line in the text, counted from 1.
fn note_line(
    notes: &mut Notes,
    moments: &Moments,
    line: &[u8],
    number: usize,
) -> Result<(), NotesFault>
    ensures ok { OnOk result (HasLine moments.now notes.old line.now notes.new) }
    ensures err { IfErr result (IsLineFault moments.now notes.old.facts line.now number) }
{
    match take_fact(notes, moments, line) {
        Ok(()) => Ok(()),
        Err(LineFault::Malformed) => Err(NotesFault::Malformed(number)),
        Err(LineFault::Refused(fault)) => Err(NotesFault::Refused(number, fault)),
        Err(LineFault::OutOfMemory) => Err(NotesFault::OutOfMemory),
    }
}

/// Adds the fact that `line` states to `notes`, as `published dnskey 12 3600 100` or
/// `everywhere dnskey 130`. `moments` has the greatest moment up to each call that was made.
///
/// # Errors
///
/// `Malformed` if the line states no fact. `Refused` if its fact can't follow the calls or the
/// facts before it. `OutOfMemory` if memory runs out. The notes are then as they were.
pub(crate) fn take_fact(notes: &mut Notes, moments: &Moments, line: &[u8]) -> Result<(), LineFault>
    ensures ok { OnOk result (HasLine moments.now notes.old line.now notes.new) }
    ensures err { IfErr result (IsFactFault moments.now notes.old.facts line.now) }
    ensures kept { IfErr result (λ _. notes.new ≡ notes.old) }
{
    match read_fact(line) {
        None => Err(LineFault::Malformed),
        Some(fact) => match notes.note(moments, fact.kind, fact.news) {
            Ok(()) => Ok(()),
            Err(NoteFault::OutOfMemory) => Err(LineFault::OutOfMemory),
            Err(fault) => Err(LineFault::Refused(fault)),
        },
    }
}
