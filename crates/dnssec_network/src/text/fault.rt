//! Why notes were not read, or a question about reports not answered.
ghost use Rattle.std.specs.Prelude.{◌≡◌, Some};
ghost use Rattle.dnssec_network.specs.Text.Questions.{fault_at};
ghost use Rattle.dnssec_network.specs.Text.Faults.{due_fault_text, line_fault_text};
ghost use Rattle.dnssec_network.specs.Text.Faults.{notes_fault_text};
ghost use Rattle.dnssec_network.specs.declared.text.fault.DueFault.TheVariants as due;
ghost use Rattle.dnssec_network.specs.declared.text.fault.NotesFault.TheVariants.{OutOfMemory};

use crate::fact::NoteFault;
use dnssec_record::ScriptFault;
use std::alloc::AllocError;
use std::fmt;

/// Why a line was not taken as one of notes.
#[derive(Clone, Copy, Debug, PartialEq)]
pub enum LineFault {
    /// It doesn't have the form of a line of notes.
    Malformed,
    /// Its fact can't follow the calls or the facts before it.
    Refused(NoteFault),
    /// Memory has run out.
    OutOfMemory,
}

impl LineFault {
    /// This fault as one of a whole text of notes, in which the line has this `number`, counted
    /// from 1. `OutOfMemory` names no line.
    pub(crate) fn at(self, number: usize) -> NotesFault
        ensures { result ≡ fault_at self number }
    {
        match self {
            LineFault::Malformed => NotesFault::Malformed(number),
            LineFault::Refused(fault) => NotesFault::Refused(number, fault),
            LineFault::OutOfMemory => NotesFault::OutOfMemory,
        }
    }
}

impl fmt::Display for LineFault {
    ghost output = { λ fault. Some (line_fault_text fault) };

    /// Writes what a program shows its user, as `seen before it was published`.
    fn fmt<W: fmt::Write>(&self, f: &mut fmt::Formatter<W>) -> fmt::Result {
        match self {
            LineFault::Malformed => f.write_str("malformed"),
            LineFault::Refused(fault) => write!(f, "{fault}"),
            LineFault::OutOfMemory => f.write_str("out of memory"),
        }
    }
}

impl std::error::Error for LineFault {}

/// Why a text was not read as notes.
#[derive(Clone, Copy, Debug, PartialEq)]
pub enum NotesFault {
    /// The line of this number, counted from 1, is the first that doesn't have the form of a line
    /// of notes.
    Malformed(usize),
    /// The fact on the line of this number can't follow the calls or the facts before it.
    Refused(usize, NoteFault),
    /// Memory has run out.
    OutOfMemory,
}

impl fmt::Display for NotesFault {
    ghost output = { λ fault. Some (notes_fault_text fault) };

    /// Writes what a program shows its user, as `line 3: seen before it was published`.
    fn fmt<W: fmt::Write>(&self, f: &mut fmt::Formatter<W>) -> fmt::Result {
        let (number, fault) = match *self {
            NotesFault::Malformed(number) => (number, LineFault::Malformed),
            NotesFault::Refused(number, fault) => (number, LineFault::Refused(fault)),
            NotesFault::OutOfMemory => return f.write_str("out of memory"),
        };
        write!(f, "line {number}: {fault}")
    }
}

impl std::error::Error for NotesFault {}

impl From<AllocError> for NotesFault {
    ghost from_gives = { λ _ fault. fault ≡ OutOfMemory };

    /// Notes that find no memory have the fault `OutOfMemory`.
    fn from(_: AllocError) -> Self {
        NotesFault::OutOfMemory
    }
}

/// Why the question which reports are due was not answered.
#[derive(Debug, Drop, PartialEq)]
pub enum DueFault {
    /// The script was not run.
    Script(ScriptFault),
    /// The notes were not read.
    Notes(NotesFault),
}

impl fmt::Display for DueFault {
    ghost output = { λ fault. Some (due_fault_text fault) };

    /// Writes what a program shows its user, as `notes: line 3: malformed`.
    fn fmt<W: fmt::Write>(&self, f: &mut fmt::Formatter<W>) -> fmt::Result {
        match self {
            DueFault::Script(fault) => write!(f, "script: {fault}"),
            DueFault::Notes(fault) => write!(f, "notes: {fault}"),
        }
    }
}

impl std::error::Error for DueFault {}

impl From<ScriptFault> for DueFault {
    ghost from_gives = { λ fault given. given ≡ due.Script fault };

    /// The fault `Script` with this `fault`: the script was not run, so nothing is answered.
    fn from(fault: ScriptFault) -> Self {
        DueFault::Script(fault)
    }
}

impl From<NotesFault> for DueFault {
    ghost from_gives = { λ fault given. given ≡ due.Notes fault };

    /// The fault `Notes` with this `fault`: the notes were not read, so nothing is answered.
    fn from(fault: NotesFault) -> Self {
        DueFault::Notes(fault)
    }
}

impl From<AllocError> for DueFault {
    ghost from_gives = { λ _ fault. fault ≡ due.Notes OutOfMemory };

    /// The fault `Notes` with `OutOfMemory`, for an answer that found no memory.
    fn from(_: AllocError) -> Self {
        DueFault::Notes(NotesFault::OutOfMemory)
    }
}
