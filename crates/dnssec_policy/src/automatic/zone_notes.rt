//! The notes of a zone, and the highest TTLs that they have.
ghost use Rattle.std.specs.Prelude.{◌≡◌, ◌++◌, ◌∷◌, ℕ, List, [], IfErr, IfOk, OnOk, Some, map};
ghost use denote.Bor.{now};
ghost use Rattle.dnssec_network.specs.declared.fact.Fact.{Fact as AnyFact};
ghost use Rattle.dnssec_network.specs.Facts.{Before as AnyBefore};
ghost use Rattle.dnssec_network.specs.Text.Lines.{as_fact, fact_says};
ghost use Rattle.dnssec_network.specs.Text.Reading.{AreFacts, AreNotes};
ghost use Rattle.dnssec_script.specs.Script.{lines_of};
ghost use Rattle.dnssec_policy.specs.Text.Lint.{AreHighest};
ghost use Rattle.dnssec_policy.specs.Automatic.ZoneNotes.{HasHighest, TakesFact};

use crate::ttls::HighestTtls;
use dnssec_network::{
    Before, Moments, News, NoteFault, Notes, NotesFault, SetKind, read_before, read_fact,
    read_notes,
};
use dnssec_record::all_lines;
use std::alloc::Global;

/// The notes of a zone, and the highest TTLs that they have.
#[derive(Drop)]
pub(crate) struct ZoneNotes {
    notes: Notes,
    highest: HighestTtls,
}

impl ZoneNotes {
    /// The notes of a zone before its first call, without facts. `before` are the highest TTLs, in
    /// seconds, of what its servers gave until then.
    pub(crate) fn new(alloc: Global, before: Before) -> Self
        ensures notes { result.notes ≡ record { before = before; facts = [] } }
        ensures highest { HasHighest result }
    {
        ZoneNotes {
            notes: Notes::new(alloc, before),
            highest: HighestTtls::of_before(&before),
        }
    }

    /// Reads the lines of a text as notes, and answers them with the highest TTLs in them.
    /// `moments` has the greatest moment up to each of the zone's calls. It fails with the number
    /// of the first wrong line and its cause, or if memory runs out.
    pub(crate) fn read(alloc: Global, moments: &Moments, text: &[u8]) -> Result<Self, NotesFault>
        ensures notes { IfOk result (λ noted. AreNotes moments.now (lines_of text.now)
            noted.notes.before noted.notes.facts) }
        ensures highest { IfOk result HasHighest }
    {
        let notes = read_notes(alloc, moments, text)?;
        let lines = all_lines(alloc, text)?;
        let highest = highest_in(&lines);
        Ok(ZoneNotes { notes, highest })
    }

    /// Notes one more fact of this kind of sets, and keeps the highest TTLs up to date. `moments`
    /// has the greatest moment up to each of the zone's calls so far. The error is `OutOfMemory`,
    /// or why the fact can't follow these calls or the facts before it. Nothing is then noted.
    pub(crate) fn note(
        &mut self,
        moments: &Moments,
        kind: SetKind,
        news: News,
    ) -> Result<(), NoteFault>
        ensures ok { OnOk result (TakesFact self.old (record { kind = kind; news = news })
            self.new) }
        ensures kept { IfErr result (λ _. self.new ≡ self.old) }
    {
        self.notes.note(moments, kind, news)?;
        self.highest = self.highest.after(kind, &news);
        Ok(())
    }

    /// The facts noted so far, and the TTLs from before the first call.
    pub(crate) fn notes(&self) -> &Notes
        ensures { result.now ≡ self.now.notes }
    {
        &self.notes
    }

    /// The highest TTL, in seconds, that is noted so far of each kind of sets.
    pub(crate) fn highest(&self) -> &HighestTtls
        ensures { result.now ≡ self.now.highest }
    {
        &self.highest
    }
}

/// The highest TTL, in seconds, of each kind of sets in the notes that these lines are: those from
/// before the first call, and those of publications. Zeros if there is no line, or the first one
/// doesn't have the TTLs from before the first call.
fn highest_in(lines: &[&[u8]]) -> HighestTtls
    ensures { (moments : List ℕ) (before : AnyBefore) (facts : List AnyFact) →
        AreNotes moments (map now lines.now) before facts → AreHighest before facts result }
{
    let Some((first, rest)) = lines.split_first() else {
        return none();
    };
    let Some(before) = read_before(first) else {
        return none();
    };
    highest_after(&before, rest)
}

/// The highest TTLs where there are no notes: 0 seconds for each kind of sets.
fn none() -> HighestTtls {
    HighestTtls::of_before(&Before {
        ds: 0,
        dnskey: 0,
        zone: 0,
    })
}

/// The highest TTL, in seconds, of each kind of sets in `before`, the TTLs from before the first
/// call, and in the publications among the facts that the lines are. Any other line changes
/// nothing.
fn highest_after(before: &Before, lines: &[&[u8]]) -> HighestTtls
    ensures { (moments : List ℕ) (facts : List AnyFact) →
        AreFacts moments (map now lines.now) facts → AreHighest before.now facts result }
{
    let mut highest = HighestTtls::of_before(before);
    for line in lines {
        highest = with_line(highest, line);
    }
    highest
}

/// The highest TTLs, in seconds, once the fact of one more line is counted: a publication may raise
/// that of its kind. Any other line changes nothing.
fn with_line(highest: HighestTtls, line: &[u8]) -> HighestTtls
    ensures { (before : AnyBefore) (facts : List AnyFact) (fact : AnyFact) →
        as_fact line.now ≡ Some (fact_says fact) → AreHighest before facts highest →
        AreHighest before (facts ++ fact ∷ []) result }
{
    match read_fact(line) {
        None => highest,
        Some(fact) => highest.after(fact.kind, &fact.news),
    }
}
