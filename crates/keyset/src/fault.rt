//! Why the program did not do what it was asked to, and the status that it then ends with.

use crate::words::Misuse;
use dnssec_network::{DueFault, NotesFault};
use dnssec_policy::NextFault;
use dnssec_record::ScriptFault;
use std::fmt;

/// Why the program did not do what it was asked to.
#[derive(Drop)]
pub enum Fault {
    /// The arguments ask for nothing.
    Misuse(Misuse),
    /// A script was not answered, or its status not written.
    Script(ScriptFault),
    /// The questions among notes were not answered.
    Due(DueFault),
    /// It was not said what to do next.
    Next(NextFault),
}

/// The status after a misuse, as `sysexits.h` has it. 1 to 3 are those of other faults.
const USAGE: u8 = 64;

impl Fault {
    /// The status that the program ends with after this fault: 1 if the input is malformed or
    /// refused, 2 if the input or the output failed, 3 if memory ran out, and 64 for no such word
    /// or more than one.
    pub fn status(&self) -> u8 {
        match self {
            Fault::Misuse(_) => USAGE,
            Fault::Script(fault) | Fault::Due(DueFault::Script(fault)) => fault.status(),
            Fault::Due(DueFault::Notes(NotesFault::OutOfMemory)) => 3,
            Fault::Due(DueFault::Notes(_)) => 1,
            Fault::Next(fault) => { if fault.lacks_memory() { 3 } else { 1 } }
        }
    }
}

impl fmt::Display for Fault {
    /// Writes what standard error shows, as `no such word: see keyset --help`.
    fn fmt<W: fmt::Write>(&self, f: &mut fmt::Formatter<W>) -> fmt::Result {
        match self {
            Fault::Misuse(Misuse::NoSuchWord) => f.write_str("no such word: see keyset --help"),
            Fault::Misuse(Misuse::MoreThanOneWord) => {
                f.write_str("more than one word: see keyset --help")
            }
            Fault::Script(fault) => write!(f, "{fault}"),
            Fault::Due(fault) => write!(f, "{fault}"),
            Fault::Next(fault) => write!(f, "{fault}"),
        }
    }
}

impl From<ScriptFault> for Fault {
    /// The fault `Script` with this `fault`: a script was not answered, or its status not written.
    fn from(fault: ScriptFault) -> Self {
        Fault::Script(fault)
    }
}
