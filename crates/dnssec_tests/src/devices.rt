//! Devices that serve a script slowly, or fail.
ghost use Rattle.std.specs.Prelude.{◌≡◌, IfOk, None};

use dnssec_record::{DeviceFault, ScriptFault, Sink, Source, Std, run_script};
use std::alloc::Global;
use std::test::Fail;

/// A zone gets its first keys. The operator comes back a second too early, and then in time.
pub const FIRST_KEYS: &str = "zone example.com
add-ksk K1 - 13 0 0 yes
add-zsk Z1 - 13 1 0 yes
start algorithm-roll - K1,Z1 0
report1 algorithm-roll 3600 100
wait1 algorithm-roll 3699
wait1 algorithm-roll 3700
";

/// What its calls answer.
pub const FIRST_ANSWERS: &str = "ok
ok
ok UpdateDnskeyRrset UpdateRrsig ReportDnskeyPropagated ReportRrsigPropagated
ok
refused: wait for duration 1s
ok CreateCdsRrset UpdateDsRrset ReportDsPropagated
ds=K1 dnskey=K1,Z1 signers=K1 zone=Z1
chain safe
";

/// What a script that deletes a key from a new set answers.
const KEY_NOT_FOUND: &str = "refused: key not found
ds=- dnskey=- signers=- zone=-
chain safe
";

/// More calls of a device, or bytes of one call, than any test makes.
const ANY: usize = usize::MAX;

/// Bytes to read, until a call fails.
#[derive(Drop)]
struct ByteSource<'a> {
    left: &'a [u8],
    /// How many bytes a call gives at most. 0 counts as 1.
    most: usize,
    /// How many calls are served before they fail.
    served: usize,
    faults: u64,
}

impl<'a> Source for ByteSource<'a> {
    ghost left = { λ _. None };

    ghost faults = { λ input. input.faults };

    fn read(&mut self, buf: &mut [u8]) -> Result<usize, DeviceFault> {
        let Some(served) = self.served.checked_sub(1) else {
            self.faults += 1;
            return Err(DeviceFault);
        };
        self.served = served;
        let count = self.left.len().min(buf.len()).min(self.most.max(1));
        buf[..count].copy_from_slice(&self.left[..count]);
        self.left = &self.left[count..];
        Ok(count)
    }

    fn faults(&self) -> u64 {
        self.faults
    }
}

/// Takes bytes, until a call fails.
#[derive(Drop)]
struct ByteSink {
    bytes: Vec<u8>,
    /// How many bytes a call takes at most. 0 counts as 1.
    most: usize,
    /// How many calls are served before they fail.
    served: usize,
    faults: u64,
}

impl Sink for ByteSink {
    ghost taken = { λ _. None };

    ghost faults = { λ output. output.faults };

    fn write(&mut self, buf: &[u8]) -> Result<usize, DeviceFault> {
        let Some(served) = self.served.checked_sub(1) else {
            self.faults += 1;
            return Err(DeviceFault);
        };
        let count = buf.len().min(self.most.max(1));
        if self.bytes.extend_from_slice(&buf[..count]).is_err() {
            self.faults += 1;
            return Err(DeviceFault);
        }
        self.served = served;
        Ok(count)
    }

    fn faults(&self) -> u64 {
        self.faults
    }
}

/// How the devices of a script serve it: how many bytes a read and a write move at most, and how
/// many calls are served before they fail.
#[derive(Clone, Copy)]
struct Devices {
    most_read: usize,
    reads: usize,
    most_written: usize,
    writes: usize,
}

/// Devices that serve a script to its end.
const WHOLE: Devices = Devices {
    most_read: ANY,
    reads: ANY,
    most_written: ANY,
    writes: ANY,
};

/// How a run ends if a device fails.
pub const FAULT: Result<(), ScriptFault> = Err(ScriptFault::Device);

/// Runs a script over devices: how it ended, and what was written.
fn follow(alloc: Global, script: &[u8], devices: Devices) -> (Result<(), ScriptFault>, Vec<u8>) {
    let mut input = ByteSource {
        left: script,
        most: devices.most_read,
        served: devices.reads,
        faults: 0,
    };
    let mut output = ByteSink {
        bytes: Vec::new(alloc),
        most: devices.most_written,
        served: devices.writes,
        faults: 0,
    };
    let result = run_script(alloc, &mut input, &mut output);
    (result, output.bytes)
}

/// Scripts, the devices that serve them, how a run ends, and what is written. What was read before
/// a fault isn't run, even if it is a script. A malformed script is named as such even if no byte
/// can be written, since none is.
const ROWS: &[(&str, Devices, Result<(), ScriptFault>, &str)] = &[
    (
        FIRST_KEYS,
        Devices {
            most_read: 1,
            most_written: 1,
            ..WHOLE
        },
        Ok(()),
        FIRST_ANSWERS,
    ),
    (FIRST_KEYS, Devices { reads: 0, ..WHOLE }, FAULT, ""),
    (
        "zone a\ndelete K1\n",
        Devices {
            most_read: 7,
            reads: 1,
            ..WHOLE
        },
        FAULT,
        "",
    ),
    (
        FIRST_KEYS,
        Devices {
            most_written: 1,
            writes: 5,
            ..WHOLE
        },
        FAULT,
        "ok\nok",
    ),
    (
        "zone a\nzone a\n",
        Devices { writes: 0, ..WHOLE },
        Err(ScriptFault::Malformed(2)),
        "",
    ),
    (
        "zone example.com\ndone algorithm-roll\ndone CSK-roll\n",
        Devices { writes: 0, ..WHOLE },
        Err(ScriptFault::Malformed(3)),
        "",
    ),
    ("zone a\n", Devices { writes: 0, ..WHOLE }, FAULT, ""),
];

/// Whether a run of a script over devices ends in this way, with this written.
fn is_run(
    alloc: Global,
    script: &[u8],
    devices: Devices,
    ended: &Result<(), ScriptFault>,
    written: &str,
) -> bool {
    let (answer, output) = follow(alloc, script, devices);
    answer == *ended && output.as_slice() == written.as_bytes()
}

/// Whether a script that is read a byte at a time is run if enough reads are served: one for each
/// byte and one for the end. Else nothing is written.
fn is_run_whole_or_not(alloc: Global, reads: usize) -> bool {
    let devices = Devices {
        most_read: 1,
        reads,
        ..WHOLE
    };
    if reads > FIRST_KEYS.len() {
        is_run(
            alloc,
            FIRST_KEYS.as_bytes(),
            devices,
            &Ok(()),
            FIRST_ANSWERS,
        )
    } else {
        is_run(alloc, FIRST_KEYS.as_bytes(), devices, &FAULT, "")
    }
}

/// Whether answers that are written a byte at a time stand as far as writes are served.
fn is_written_up_to(alloc: Global, writes: usize) -> bool {
    let devices = Devices {
        most_written: 1,
        writes,
        ..WHOLE
    };
    let Some(written) = FIRST_ANSWERS.get(..writes) else {
        return false;
    };
    let ended = if writes == FIRST_ANSWERS.len() {
        &Ok(())
    } else {
        &FAULT
    };
    is_run(alloc, FIRST_KEYS.as_bytes(), devices, ended, written)
}

#[test]
fn devices_serve_or_fail(rt: HostRuntime) {
    for (index, (script, devices, ended, written)) in ROWS.iter().enumerate() {
        let is_so = is_run(rt.alloc(), script.as_bytes(), *devices, ended, written);
        assert!(rt; is_so, "in row {index}");
    }
}

#[test]
fn the_last_line_may_end_with_the_script(rt: HostRuntime) {
    let script = FIRST_KEYS.trim_end().as_bytes();
    assert!(rt; is_run(rt.alloc(), script, WHOLE, &Ok(()), FIRST_ANSWERS));
}

#[test]
fn each_call_of_a_device_fails_in_turn(rt: HostRuntime) -> Result<(), Fail> {
    for reads in 0..=FIRST_KEYS.len() + 1 {
        let is_so = is_run_whole_or_not(rt.alloc(), reads);
        assert!(rt; is_so, "with {reads} reads");
    }
    for writes in 0..=FIRST_ANSWERS.len() {
        let is_so = is_written_up_to(rt.alloc(), writes);
        assert!(rt; is_so, "with {writes} writes");
    }
    let (reads, writes) = (FIRST_KEYS.len() + 1, FIRST_ANSWERS.len());
    println!(rt; "dnssec_tests: {reads} reads and {writes} writes failed in turn")?;
    Ok(())
}

/// A script of more bytes than are asked for at once is read to its end.
#[test]
fn a_long_script_is_read_whole(rt: HostRuntime) -> Result<(), Fail> {
    let reference = "K".repeat(rt.alloc(), 9000)?;
    let script = ["zone a\ndelete ", reference.as_str()].concat(rt.alloc())?;
    for most_read in [ANY, 4095] {
        let devices = Devices { most_read, ..WHOLE };
        let is_so = is_run(
            rt.alloc(),
            script.as_str().as_bytes(),
            devices,
            &Ok(()),
            KEY_NOT_FOUND,
        );
        assert!(rt; is_so, "with {most_read} bytes at most");
    }
    Ok(())
}

/// Any reader and writer serves as a device. A writer without room fails.
#[test]
fn a_writer_without_room_fails(rt: HostRuntime) {
    let mut room = [0; 20];
    let mut input = Std::new(b"zone a\ndelete K1\n".as_slice());
    let mut output = Std::new(room.as_mut_slice());
    let ended = run_script(rt.alloc(), &mut input, &mut output);
    let faults = (input.faults(), output.faults());
    let is_full = output.into_inner().is_empty();
    assert!(rt; ended == Err(ScriptFault::Device) && faults == (0, 1) && is_full);
    assert_eq!(rt; &room, b"refused: key not fou");
}
