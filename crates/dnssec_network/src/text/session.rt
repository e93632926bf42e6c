//! Notes beside a session.
ghost use Rattle.std.specs.Prelude.{◌≡◌, ◌∷◌, ◌++◌, ℕ, List, [], None, Some, IfOk, IfErr, Ok, OnOk};
ghost use Rattle.std.specs.Option.{option_map};
ghost use Rattle.std.specs.Prelude.{string_bytes};
ghost use Rattle.dnssec_network.specs.Text.Due.{AnswersDue};
ghost use Rattle.dnssec_network.specs.Text.Reading.{HasTaken, IsFirstFault, IsFirstLine};
ghost use Rattle.dnssec_network.specs.Text.Reading.{IsTakeFault, NotesOutlastCalls};

use super::fault::LineFault;
use super::line::read_before;
use super::reading::take_fact;
use super::reports::due_lines;
use crate::notes::Notes;
use dnssec_record::Session;
use dnssec_run::Moments;
use std::alloc::{AllocError, Global};
use std::marker::Model;

/// Notes of a session's zone, which are handed in line by line. They say which reports are due in
/// the session's present state.
///
/// ```rust
/// let mut notes = SessionNotes::new();
/// notes.take_line(alloc, &moments, b"before 3600 3600 3600")?;
/// // The session goes on, and so do the notes.
/// notes.take_line(alloc, &moments, b"published dnskey 12 3600 100")?;
/// let lines = notes.due_now(alloc, &session, &moments, 130)?;
/// ```
#[derive(Drop)]
pub struct SessionNotes {
    /// None before the first line, so that a session without notes takes no memory for them.
    notes: Option<Box<Notes>>,
}

impl Model for SessionNotes {
    ghost use Rattle.std.specs.Option.{option_map};
    ghost use Rattle.std.specs.Prelude.{Option};
    ghost use Rattle.dnssec_network.specs.Notes.{NotesParts};

    ghost Value = { Option NotesParts };

    ghost view = { λ beside. option_map (λ notes. notes.value) beside.notes };
}

impl SessionNotes {
    /// Begins the notes of a session's zone. No line is taken yet, and no memory.
    pub fn new() -> Self
        ensures { result ≡ None }
    {
        SessionNotes { notes: None }
    }

    /// Copies the notes, for a copy of the session. Lines that the one takes don't change the
    /// other. The copy takes its memory from `alloc`.
    ///
    /// # Errors
    ///
    /// If there is no memory.
    pub fn try_clone(&self, alloc: Global) -> Result<Self, AllocError>
        ensures { IfOk result (λ copy. copy ≡ self.now) }
    {
        match &self.notes {
            None => Ok(SessionNotes::new()),
            Some(notes) => SessionNotes::with(alloc, (**notes).try_clone()?),
        }
    }

    /// Puts `notes` into a box from `alloc`, as those of a session. An error if there is no memory.
    fn with(alloc: Global, notes: Notes) -> Result<Self, AllocError>
        ensures { IfOk result (λ kept. kept ≡ Some notes) }
    {
        let notes = Box::new(alloc, notes)?;
        Ok(SessionNotes { notes: Some(notes) })
    }

    /// Takes the next line of the notes, after the calls that the session has made so far, of which
    /// `moments` are the moments. The first line has the TTLs from before the first call, as
    /// `before 3600 3600 3600`. Each later one states a fact, as `published dnskey 12 3600 100` or
    /// `everywhere dnskey 130`.
    ///
    /// # Errors
    ///
    /// - `Malformed` if it isn't such a line.
    /// - `Refused` if its fact can't follow the calls or the facts before it, with the cause.
    /// - `OutOfMemory` if memory runs out for a line that could be taken.
    ///
    /// The notes are then as they were.
    pub fn take_line(
        &mut self,
        alloc: Global,
        moments: &Moments,
        line: &[u8],
    ) -> Result<(), LineFault>
        ensures ok { OnOk result ((lines : List (List ℕ)) →
            HasTaken moments.now lines self.old →
            HasTaken moments.now (lines ++ line.now ∷ []) self.new) }
        ensures err { IfErr result (IsTakeFault moments.now self.old line.now) }
        ensures kept { IfErr result (λ _. self.new ≡ self.old) }
    {
        match &mut self.notes {
            Some(notes) => take_fact(&mut **notes, moments, line),
            None => {
                *self = SessionNotes::begin(alloc, line)?;
                Ok(())
            }
        }
    }

    /// Begins the notes with their first line: `before`, and three TTLs in seconds, those of DS
    /// sets, DNSKEY sets and other sets before the first call. The error is `Malformed` if `line`
    /// doesn't have this form, and `OutOfMemory` if memory runs out.
    fn begin(alloc: Global, line: &[u8]) -> Result<Self, LineFault>
        ensures ok { IfOk result (IsFirstLine line.now) }
        ensures err { IfErr result (IsFirstFault line.now) }
    {
        let Some(before) = read_before(line) else {
            return Err(LineFault::Malformed);
        };
        match SessionNotes::with(alloc, Notes::new(alloc, before)) {
            Ok(notes) => Ok(notes),
            Err(_) => Err(LineFault::OutOfMemory),
        }
    }

    /// Says which reports the session's rolls wait for, as they would be made at `seconds` since
    /// 1970. A report that is due has the line `report1 ksk-roll 3600 130` of a script. Another has
    /// a line such as `not yet: report1 ksk-roll waits for dnskey`. The text is empty if no roll
    /// waits for a report. `None` before the first line of the notes.
    ///
    /// `moments` are those of the session's calls. It is then what `answer_due` answers for the
    /// lines of the session and of the notes.
    ///
    /// # Errors
    ///
    /// If there is no memory.
    pub fn due_now(
        &self,
        alloc: Global,
        session: &Session,
        moments: &Moments,
        seconds: u64,
    ) -> Result<Option<String>, AllocError>
        ensures text { IfOk result (λ text. AnswersDue session.now moments.now self.now seconds
            (option_map string_bytes text)) }
        ensures none { self.now ≡ None → result ≡ Ok None }
    {
        match &self.notes {
            None => Ok(None),
            Some(notes) => {
                let (keyset, steps) = (session.keyset(), session.steps());
                Ok(Some(due_lines(alloc, keyset, steps, moments, &**notes, seconds)?))
            }
        }
    }
}

/// Law for proofs (the call does nothing): lines that notes have taken stay taken when the session
/// makes more calls. Read once more after all these calls, the same lines give the same notes.
pub fn notes_outlast_calls()
    ensures { NotesOutlastCalls }
{}
