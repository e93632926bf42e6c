//! Which reports are due: questions beside a script or among the lines of its notes, and their
//! answers.
ghost use Rattle.std.specs.Prelude.{◌≡◌, ◌∷◌, ◌++◌, ℕ, List, [], Some, IfOk, IfErr, OnOk};
ghost use Rattle.std.specs.Prelude.{◌<◌, IsSome, is_some, map, string_bytes, vec_len};
ghost use Rattle.std.specs.Option.{option_map};
ghost use denote.Bor.{now};
ghost use Rattle.dnssec_script.specs.Script.{Number, values_of};
ghost use Rattle.dnssec_record.specs.Session.{Stands};
ghost use Rattle.dnssec_run.specs.Moments.{moments_of};
ghost use Rattle.dnssec_run.specs.declared.record.Entry.{Entry};
ghost use Rattle.dnssec_network.specs.Text.Due.{AnswersDue, IsDueAnswer};
ghost use Rattle.dnssec_network.specs.Text.Questions.{AnswersAll, AreAnswers, ComesOf, HasAnswered};
ghost use Rattle.dnssec_network.specs.Text.Questions.{IsAnswerFault, IsAnswersFault};
ghost use Rattle.dnssec_network.specs.Text.Questions.{IsQuestionFault, as_question, asked_by};
ghost use Rattle.dnssec_network.specs.Text.Questions.{question_forms};
ghost use Rattle.dnssec_network.specs.Text.Reading.{HasTaken};
ghost use Rattle.dnssec_network.specs.Text.Scripts.{IsFaultBeside};

use super::fault::{DueFault, LineFault, NotesFault};
use super::reading::read_notes;
use super::reports::due_lines;
use super::session::SessionNotes;
use dnssec_record::{Fields, Session, all_lines};
use dnssec_run::Moments;
use std::alloc::{AllocError, Global};

/// Answers the questions among `lines`, those of the notes of the session's zone. A question is
/// `due` with a second since 1970: it asks which reports are due then, by the lines above it, after
/// the session's calls, of which `moments` are the moments. Each answer is a text with a line for
/// each roll that waits for a report, as `report1 ksk-roll 3600 130`, or `not yet: ` and what it
/// waits for.
///
/// The answers come in the order of the questions. At least one line must ask. The lines are read
/// once, and the session isn't run again.
///
/// # Errors
///
/// - `Malformed` with the number of the first line that is neither a line of notes nor a question,
///   or that asks before the first line of the notes. If nothing is asked, it is the number of the
///   line after the last.
/// - `Refused` with the number of the first line whose fact can't follow the calls or the facts
///   before it, and the cause.
/// - `OutOfMemory` if memory runs out for a line that could be taken or answered.
///
/// ```rust
/// let (session, moments) = Session::resume_with_moments(alloc, script.as_bytes())?;
/// let text = b"before 3600 3600 3600\ndue 100\npublished dnskey 12 3600 110\ndue 120\n";
/// let answers = answer_lines(alloc, &session, &moments, &all_lines(alloc, text)?)?;
/// ```
pub fn answer_lines(
    alloc: Global,
    session: &Session,
    moments: &Moments,
    lines: &[&[u8]],
) -> Result<Vec<String>, NotesFault>
    ensures ok { IfOk result (λ texts.
        AnswersAll session.now moments.now (map now lines.now) (map string_bytes texts.items)) }
    ensures asked { IfOk result (λ texts. 0 < vec_len texts) }
    ensures err { IfErr result (IsAnswersFault session.now moments.now (map now lines.now)) }
{
    let mut notes = SessionNotes::new();
    let mut answers = Vec::new(alloc);
    for (index, line) in lines.iter().enumerate() {
        match read_on(&mut notes, &mut answers, alloc, session, moments, line) {
            Ok(()) => {}
            Err(fault) => return Err(fault.at(index + 1)),
        }
    }
    if answers.is_empty() {
        return Err(NotesFault::Malformed(lines.len() + 1));
    }
    Ok(answers)
}

/// Reads the next line of notes among which questions stand. If it is a question, `due` with a
/// second since 1970, the answer goes to the end of `answers`. Any other line goes into `notes`.
/// The error is `Malformed`, `Refused` or `OutOfMemory`, and both are then as they were.
fn read_on(
    notes: &mut SessionNotes,
    answers: &mut Vec<String>,
    alloc: Global,
    session: &Session,
    moments: &Moments,
    line: &[u8],
) -> Result<(), LineFault>
    ensures ok { OnOk result ((script lines : List (List ℕ)) (entries : List Entry) →
        Stands script entries session.now → moments.now ≡ moments_of entries →
        HasAnswered script entries lines notes.old (map string_bytes answers.old.items) →
        HasAnswered script entries (lines ++ line.now ∷ []) notes.new
        (map string_bytes answers.new.items)) }
    ensures err { IfErr result (λ fault. (script : List (List ℕ)) (entries : List Entry) →
        Stands script entries session.now → moments.now ≡ moments_of entries →
        IsAnswerFault (moments_of entries) notes.old (as_question line.now) line.now fault) }
{
    match notes.answer_line(alloc, session, moments, line)? {
        None => Ok(()),
        Some(text) => match answers.push(text) {
            Ok(()) => Ok(()),
            Err(_) => Err(LineFault::OutOfMemory),
        },
    }
}

/// Runs a script, reads the notes beside it, and answers which reports are due at `seconds` since
/// 1970. The text has a line for each roll that waits for a report: its line of a script, as
/// `report1 ksk-roll 3600 130`, or `not yet: ` and what it waits for. It is empty if none waits.
///
/// # Errors
///
/// - `Script` with the fault of the script: `OutOfMemory` too, if memory runs out while it runs.
/// - `Notes` with the fault of the notes: `OutOfMemory` too, if memory runs out after that.
///
/// ```rust
/// let lines = answer_due(alloc, script.as_bytes(), notes.as_bytes(), 1_700_000_000)?;
/// ```
pub fn answer_due(
    alloc: Global,
    script: &[u8],
    notes: &[u8],
    seconds: u64,
) -> Result<String, DueFault>
    ensures { IfOk result (λ text.
        IsDueAnswer script.now notes.now seconds (string_bytes text)) }
{
    let (ran, moments) = Session::resume_with_moments(alloc, script)?;
    let noted = read_notes(alloc, &moments, notes)?;
    let (keyset, steps) = (ran.keyset(), ran.steps());
    let lines = due_lines(alloc, keyset, steps, &moments, &noted, seconds)?;
    Ok(lines)
}

/// Runs a script once, and answers the questions among the notes beside it, in their order. A
/// question is `due` with a second since 1970: it asks which reports are due then, by the notes
/// above it, after all calls of the script. Each answer is a text with a line for each roll that
/// waits for a report, as `report1 ksk-roll 3600 130`. At least one line must ask.
///
/// # Errors
///
/// - `Script` with the fault of the script: `OutOfMemory` too, if memory runs out while it runs.
/// - `Notes` with the fault of the notes or of a question: `OutOfMemory` too, if memory runs out
///   after the script has run. If nothing is asked, they are malformed at the line after the last.
///
/// ```rust
/// let notes = b"before 3600 3600 3600\npublished dnskey 12 3600 100\ndue 120\n";
/// let answers = answer_questions(alloc, script.as_bytes(), notes)?;
/// ```
pub fn answer_questions(alloc: Global, script: &[u8], notes: &[u8]) -> Result<Vec<String>, DueFault>
    ensures ok { IfOk result (λ texts.
        AreAnswers script.now notes.now (map string_bytes texts.items)) }
    ensures asked { IfOk result (λ texts. 0 < vec_len texts) }
    ensures err { IfErr result (IsFaultBeside script.now notes.now) }
{
    let (session, moments) = Session::resume_with_moments(alloc, script)?;
    let Ok(lines) = all_lines(alloc, notes) else {
        return Err(DueFault::Notes(NotesFault::OutOfMemory));
    };
    let answers = answer_lines(alloc, &session, &moments, &lines)?;
    Ok(answers)
}

impl SessionNotes {
    /// Takes the next line of notes among which questions stand. A question is `due` with a second
    /// since 1970: it asks which reports are due then, by the lines so far. Its answer is returned,
    /// with a line for each roll that waits for a report, as `report1 ksk-roll 3600 130`, and the
    /// notes stay. Any other line is added to the notes, and `None` is returned. `moments` are the
    /// moments of the session's calls.
    ///
    /// # Errors
    ///
    /// - `Malformed` if it is neither a line of notes nor a question, or if it asks before the
    ///   first line of notes.
    /// - `Refused` if its fact can't follow the calls or the facts before it, with the cause.
    /// - `OutOfMemory` if memory runs out for a line that could be taken or answered.
    ///
    /// The notes are then as they were.
    pub fn answer_line(
        &mut self,
        alloc: Global,
        session: &Session,
        moments: &Moments,
        line: &[u8],
    ) -> Result<Option<String>, LineFault>
        ensures answer { IfOk result (λ text.
            (script notes : List (List ℕ)) (entries : List Entry) →
            Stands script entries session.now → moments.now ≡ moments_of entries →
            HasTaken (moments_of entries) notes self.old →
            ComesOf script entries notes line.now (option_map string_bytes text) self.new) }
        ensures question { IfOk result (λ text. is_some text ≡ is_some (as_question line.now)) }
        ensures begun { IfOk result (λ text. IsSome text → IsSome self.old) }
        ensures err { IfErr result (λ fault. (script : List (List ℕ)) (entries : List Entry) →
            Stands script entries session.now → moments.now ≡ moments_of entries →
            IsAnswerFault (moments_of entries) self.old (as_question line.now) line.now fault) }
        ensures kept { IfErr result (λ _. self.new ≡ self.old) }
    {
        match read_question(b"due", line) {
            Some(seconds) => Ok(Some(self.answer(alloc, session, moments, seconds)?)),
            None => {
                self.take_line(alloc, moments, line)?;
                Ok(None)
            }
        }
    }

    /// Answers which reports are due at `seconds` since 1970, by the notes so far, after the calls
    /// of the session, at these moments. The text has a line for each roll that waits for a report,
    /// as `report1 ksk-roll 3600 130`, or `not yet: ` and what it waits for.
    ///
    /// # Errors
    ///
    /// `Malformed` before the first line of the notes. `OutOfMemory` if memory runs out.
    fn answer(
        &self,
        alloc: Global,
        session: &Session,
        moments: &Moments,
        seconds: u64,
    ) -> Result<String, LineFault>
        ensures text { IfOk result (λ text.
            AnswersDue session.now moments.now self.now seconds (Some (string_bytes text))) }
        ensures begun { IfOk result (λ _. IsSome self.now) }
        ensures err { IfErr result (IsQuestionFault self.now) }
    {
        match self.due_now(alloc, session, moments, seconds) {
            Ok(Some(text)) => Ok(text),
            Ok(None) => Err(LineFault::Malformed),
            Err(AllocError) => Err(LineFault::OutOfMemory),
        }
    }
}

/// The second since 1970 that `line` asks about, if it is a question: the word `word`, a space, and
/// a number of up to 64 bits. `None` for any other line.
#[tactic(auto, unfolding(crate::specs::Text::Questions::asked_by))]
pub fn read_question(word: &[u8], line: &[u8]) -> Option<u64>
    ensures { option_map (λ second. Number second ∷ []) result ≡ asked_by word.now line.now }
{
    let (first, fields) = Fields::of(line).next()?;
    if first == word { second(fields) } else { None }
}

/// Reads the only field after the word of a question: a second since 1970, of up to 64 bits. `None`
/// if that isn't what follows the word.
fn second(fields: Fields<'_>) -> Option<u64>
    ensures { option_map (λ second. Number second ∷ []) result
        ≡ values_of question_forms fields.entry }
{
    let (second, fields) = fields.number(u64::MAX)?;
    fields.end()?;
    Some(second)
}
