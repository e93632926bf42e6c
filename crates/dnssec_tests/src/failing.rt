//! Readers and writers of the standard library that fail once, as devices. No contract of `Std`
//! says what becomes of their errors, so these tests do.
use crate::devices::{FAULT, FIRST_ANSWERS, FIRST_KEYS};
use dnssec_record::{DeviceFault, ScriptFault, Sink, Source, Std, run_script};
use std::alloc::Global;
use std::io::{self, ErrorKind, Read, Write};
use std::test::Fail;

/// Errors of which a caller of the standard library may make another call at once, and others.
const KINDS: [ErrorKind; 3] = [
    ErrorKind::Interrupted,
    ErrorKind::WouldBlock,
    ErrorKind::Other,
];

/// The calls of a reader or a writer. One of them fails.
#[derive(Clone, Copy)]
struct DeviceCalls {
    made: usize,
    /// The number of the call that fails, counted from 1.
    failing: usize,
    kind: ErrorKind,
}

impl DeviceCalls {
    /// Calls that never fail.
    const SERVED: DeviceCalls = DeviceCalls {
        made: 0,
        failing: 0,
        kind: ErrorKind::Other,
    };

    fn failing(call: usize, kind: ErrorKind) -> DeviceCalls {
        DeviceCalls {
            made: 0,
            failing: call,
            kind,
        }
    }

    /// Makes the next call.
    fn make(&mut self) -> io::Result<()> {
        self.made = self.made.saturating_add(1);
        if self.made == self.failing {
            Err(io::Error::from(self.kind))
        } else {
            Ok(())
        }
    }
}

/// Gives bytes one by one. One call fails and gives none; the next one goes on.
#[derive(Drop)]
struct FailingReader<'a> {
    left: &'a [u8],
    calls: DeviceCalls,
}

impl<'a> Read for FailingReader<'a> {
    fn read(&mut self, buf: &mut [u8]) -> io::Result<usize> {
        self.calls.make()?;
        let count = buf.len().min(self.left.len()).min(1);
        buf[..count].copy_from_slice(&self.left[..count]);
        self.left = &self.left[count..];
        Ok(count)
    }
}

/// Takes bytes one by one. One call fails and takes none; the next one goes on.
#[derive(Drop)]
struct FailingWriter {
    bytes: Vec<u8>,
    calls: DeviceCalls,
}

impl Write for FailingWriter {
    fn write(&mut self, buf: &[u8]) -> io::Result<usize> {
        self.calls.make()?;
        let count = buf.len().min(1);
        self.bytes.extend_from_slice(&buf[..count])?;
        Ok(count)
    }

    fn flush(&mut self) -> io::Result<()> {
        Ok(())
    }
}

/// Whether a run of the first keys over such a reader and such a writer ends in this way, with this
/// many faults of the two, and with this written.
fn ends(
    alloc: Global,
    [reads, writes]: [DeviceCalls; 2],
    ended: &Result<(), ScriptFault>,
    faults: [u64; 2],
    written: &str,
) -> bool {
    let mut input = Std::new(FailingReader {
        left: FIRST_KEYS.as_bytes(),
        calls: reads,
    });
    let mut output = Std::new(FailingWriter {
        bytes: Vec::new(alloc),
        calls: writes,
    });
    let answer = run_script(alloc, &mut input, &mut output);
    answer == *ended
        && [input.faults(), output.faults()] == faults
        && output.into_inner().bytes.as_slice() == written.as_bytes()
}

/// Each read of a script fails once, also that of its end. It is one fault, and nothing is written.
#[test]
fn each_read_fails_once(rt: HostRuntime) -> Result<(), Fail> {
    let reads = FIRST_KEYS.len() + 1;
    let mut errors = 0u64;
    for kind in KINDS {
        for failing in 1..=reads {
            let calls = [DeviceCalls::failing(failing, kind), DeviceCalls::SERVED];
            let is_so = ends(rt.alloc(), calls, &FAULT, [1, 0], "");
            assert!(rt; is_so, "at read {failing}");
            errors = errors.saturating_add(1);
        }
        let calls = [DeviceCalls::failing(reads + 1, kind), DeviceCalls::SERVED];
        assert!(rt; ends(rt.alloc(), calls, &Ok(()), [0, 0], FIRST_ANSWERS));
    }
    println!(rt; "dnssec_tests: {errors} reader errors")?;
    Ok(())
}

/// Each write of the answers fails once. It is one fault, and what was taken before it stands.
#[test]
fn each_write_fails_once(rt: HostRuntime) -> Result<(), Fail> {
    let writes = FIRST_ANSWERS.len();
    let mut errors = 0u64;
    for kind in KINDS {
        for failing in 1..=writes {
            let calls = [DeviceCalls::SERVED, DeviceCalls::failing(failing, kind)];
            let written = FIRST_ANSWERS.get(..failing - 1).unwrap_or("none");
            let is_so = ends(rt.alloc(), calls, &FAULT, [0, 1], written);
            assert!(rt; is_so, "at write {failing}");
            errors = errors.saturating_add(1);
        }
        let calls = [DeviceCalls::SERVED, DeviceCalls::failing(writes + 1, kind)];
        assert!(rt; ends(rt.alloc(), calls, &Ok(()), [0, 0], FIRST_ANSWERS));
    }
    println!(rt; "dnssec_tests: {errors} writer errors")?;
    Ok(())
}

/// After its fault a device goes on. The end of its bytes is no fault, however often it is read.
#[test]
fn a_reader_goes_on_after_its_fault(rt: HostRuntime) {
    let mut input = Std::new(FailingReader {
        left: b"ab",
        calls: DeviceCalls::failing(2, ErrorKind::Other),
    });
    let mut piece = [0; 8];
    for (answer, faults) in [
        (Ok(1), 0),
        (Err(DeviceFault), 1),
        (Ok(1), 1),
        (Ok(0), 1),
        (Ok(0), 1),
    ] {
        assert!(rt; input.faults() <= 1);
        assert_eq!(rt; input.read(&mut piece), answer);
        assert_eq!(rt; input.faults(), faults);
    }
}

#[test]
fn a_writer_goes_on_after_its_fault(rt: HostRuntime) {
    let mut output = Std::new(FailingWriter {
        bytes: Vec::new(rt.alloc()),
        calls: DeviceCalls::failing(2, ErrorKind::Other),
    });
    for (answer, faults) in [(Ok(1), 0), (Err(DeviceFault), 1), (Ok(1), 1)] {
        assert!(rt; output.faults() <= 1);
        assert_eq!(rt; output.write(b"ok"), answer);
        assert_eq!(rt; output.faults(), faults);
    }
    assert_eq!(rt; output.into_inner().bytes.as_slice(), b"oo".as_slice());
}
