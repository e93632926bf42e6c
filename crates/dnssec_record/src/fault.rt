//! Why a script was not answered.
ghost use Rattle.std.specs.Prelude.{◌≡◌, Some};
ghost use Rattle.dnssec_record.specs.Fault.{fault_of_reading, fault_status, script_fault_text};
ghost use Rattle.dnssec_record.specs.declared.fault.ScriptFault.TheVariants.{Device, OutOfMemory};

use crate::device::DeviceFault;
use dnssec_script::ReadFault;
use std::alloc::{AllocError, AllocFailed};
use std::fmt;

/// Why a script was not answered to its end.
#[derive(Debug, Drop, PartialEq)]
pub enum ScriptFault {
    /// The line of this number, counted from 1, is the first that doesn't have the form of a
    /// script's line. Nothing was run, and nothing was written.
    Malformed(usize),
    /// The input or the output failed. What was written is a beginning of the answers.
    Device,
    /// Memory has run out. Nothing was written.
    OutOfMemory,
}

impl ScriptFault {
    /// The status that a program ends with after this fault: 1 for a malformed script, 2 for a
    /// device, 3 for memory.
    #[tactic(auto, using(std::proofs::lemmas::Grind::common_steps))]
    pub fn status(&self) -> u8
        ensures { result ≡ fault_status self.now }
    {
        match self {
            ScriptFault::Malformed(_) => 1,
            ScriptFault::Device => 2,
            ScriptFault::OutOfMemory => 3,
        }
    }
}

impl fmt::Display for ScriptFault {
    ghost output = { λ fault. Some (script_fault_text fault) };

    /// Writes the fault as a program shows it to its user: `line 3: malformed`,
    /// `input or output fault` or `out of memory`.
    fn fmt<W: fmt::Write>(&self, f: &mut fmt::Formatter<W>) -> fmt::Result {
        match self {
            ScriptFault::Malformed(number) => write!(f, "line {number}: malformed"),
            ScriptFault::Device => f.write_str("input or output fault"),
            ScriptFault::OutOfMemory => f.write_str("out of memory"),
        }
    }
}

impl std::error::Error for ScriptFault {}

/// Why a session didn't answer a line that makes a call.
#[derive(Clone, Copy, Debug, PartialEq)]
pub enum CallFault {
    /// There was no memory. The session is as it was, so the call may be made again.
    OutOfMemory,
    /// Memory ran out after a part of the call was made. The session is of no more use: open one
    /// anew, and hand in the lines that it answered.
    Lost,
}

impl From<DeviceFault> for ScriptFault {
    ghost from_gives = { λ _ fault. fault ≡ Device };

    /// The fault `Device`, for a device that failed while a script was read or answered.
    fn from(_: DeviceFault) -> Self {
        ScriptFault::Device
    }
}

impl From<ReadFault> for ScriptFault {
    ghost from_gives = { λ read fault. fault ≡ fault_of_reading read };

    /// The fault of a script that can't be read on: `Malformed` with the same line number, or
    /// `OutOfMemory`.
    fn from(fault: ReadFault) -> Self {
        match fault {
            ReadFault::Malformed(number) => ScriptFault::Malformed(number),
            ReadFault::OutOfMemory => ScriptFault::OutOfMemory,
        }
    }
}

impl From<AllocError> for ScriptFault {
    ghost from_gives = { λ _ fault. fault ≡ OutOfMemory };

    /// The fault `OutOfMemory`, for a request for memory that failed.
    fn from(_: AllocError) -> Self {
        ScriptFault::OutOfMemory
    }
}

impl<T: Drop> From<AllocFailed<T>> for ScriptFault {
    ghost from_gives = { λ _ fault. fault ≡ OutOfMemory };

    /// The fault `OutOfMemory`, for a value that found no room. The value is dropped.
    fn from(_: AllocFailed<T>) -> Self {
        ScriptFault::OutOfMemory
    }
}
