//! Why the question what to do next was not answered.
ghost use Rattle.std.specs.Prelude.{◌≡◌, Some};
ghost use Rattle.dnssec_policy.specs.Automatic.Faults.{lacks_memory, next_fault_text};
ghost use Rattle.dnssec_policy.specs.declared.automatic.fault.NextFault.TheVariants.{OutOfMemory};
ghost use Rattle.dnssec_policy.specs.declared.automatic.fault.NextFault.TheVariants as fault;

use crate::text::{PolicyFault, TooShort};
use dnssec_network::{DueFault, NotesFault};
use dnssec_record::ScriptFault;
use std::alloc::AllocError;
use std::fmt;

/// Why the question what to do next was not answered.
#[derive(Debug, Drop)]
pub enum NextFault {
    /// The policy was not read.
    Policy(PolicyFault),
    /// The script was not run, or the notes not read.
    Zone(DueFault),
    /// A lifetime of the policy is shorter than its roll takes.
    TooShort(TooShort),
    /// Memory has run out.
    OutOfMemory,
}

impl NextFault {
    /// Whether the question wasn't answered for lack of memory, in reading the policy, the script
    /// or the notes or after that, and for no fault of the texts. So asking again may help.
    pub fn lacks_memory(&self) -> bool
        ensures { result ≡ lacks_memory self.now }
    {
        matches!(
            self,
            NextFault::OutOfMemory
                | NextFault::Policy(PolicyFault::OutOfMemory)
                | NextFault::Zone(DueFault::Script(ScriptFault::OutOfMemory))
                | NextFault::Zone(DueFault::Notes(NotesFault::OutOfMemory))
        )
    }
}

impl fmt::Display for NextFault {
    ghost output = { λ fault. Some (next_fault_text fault) };

    /// Writes what a program shows its user, as `policy: line 3: malformed`.
    fn fmt<W: fmt::Write>(&self, f: &mut fmt::Formatter<W>) -> fmt::Result {
        match self {
            NextFault::Policy(fault) => write!(f, "policy: {fault}"),
            NextFault::Zone(fault) => write!(f, "{fault}"),
            NextFault::TooShort(fault) => write!(f, "policy: {fault}"),
            NextFault::OutOfMemory => f.write_str("out of memory"),
        }
    }
}

impl std::error::Error for NextFault {}

impl From<AllocError> for NextFault {
    ghost from_gives = { λ _ fault. fault ≡ OutOfMemory };

    /// A lack of memory is `OutOfMemory`.
    fn from(_: AllocError) -> Self {
        NextFault::OutOfMemory
    }
}

impl From<DueFault> for NextFault {
    ghost from_gives = { λ why given. given ≡ fault.Zone why };

    /// A fault of the script or of the notes is `Zone` with that fault.
    fn from(fault: DueFault) -> Self {
        NextFault::Zone(fault)
    }
}
