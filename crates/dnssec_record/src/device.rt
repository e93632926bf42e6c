//! Devices that a script is read from and its answers are written to.
ghost use Rattle.std.specs.Prelude.{◌≡◌, ℕ, ◌+◌, ◌<◌, ◌≤◌, List, Option, length, IfOk};
ghost use Rattle.std.specs.Io.KnownBytes.{ReadConsumes, WriteAppends};
ghost use Rattle.dnssec_record.specs.Device.{Counts, TakesSome};

use std::io::{Read, Write};

/// A device has failed.
#[derive(Clone, Copy, Debug, PartialEq)]
pub struct DeviceFault;

/// A device that gives bytes.
pub trait Source {
    // The bytes that are left to give, if the device says which.
    ghost left: { Self → Option (List ℕ) };

    // How often the device has failed.
    ghost faults: { Self → ℕ };

    /// Reads the next bytes into the front of `buf`, and answers how many.
    ///
    /// For a buffer that isn't empty the answer is 0 only at the end. The caller makes sure that
    /// the count of faults has room for one more.
    ///
    /// # Errors
    ///
    /// `DeviceFault` if the device fails. It then gave nothing, and the fault is counted.
    fn read(&mut self, buf: &mut [u8]) -> Result<usize, DeviceFault>
        requires { faults self.old < u64.MAX }
        ensures bound { IfOk result (λ n. n ≤ length buf.new) }
        ensures bytes { ReadConsumes (left self.old) (left self.new) result buf.new }
        ensures counted { Counts result (faults self.old) (faults self.new) };

    /// How often the device has failed so far.
    fn faults(&self) -> u64
        ensures { result ≡ faults self.now };
}

/// A device that takes bytes.
pub trait Sink {
    // The bytes that were taken, if the device says which.
    ghost taken: { Self → Option (List ℕ) };

    // How often the device has failed.
    ghost faults: { Self → ℕ };

    /// Writes bytes from the front of `buf`, and answers how many were taken: at least one if `buf`
    /// isn't empty. The caller makes sure that the count of faults has room for one more.
    ///
    /// # Errors
    ///
    /// `DeviceFault` if the device fails. It then took nothing, and the fault is counted.
    fn write(&mut self, buf: &[u8]) -> Result<usize, DeviceFault>
        requires { faults self.old < u64.MAX }
        ensures bound { IfOk result (λ n. n ≤ length buf.now) }
        ensures some { TakesSome result buf.now }
        ensures bytes { WriteAppends (taken self.old) (taken self.new) result buf.now }
        ensures counted { Counts result (faults self.old) (faults self.new) };

    /// How often the device has failed so far.
    fn faults(&self) -> u64
        ensures { result ≡ faults self.now };
}

/// A reader or a writer of the standard library as a device that counts its errors. A write that
/// takes nothing of bytes that it was given counts as an error too.
///
/// ```rust
/// let mut input = Std::new(script.as_bytes());
/// let mut output = Std::new(Vec::new(alloc));
/// run_script(alloc, &mut input, &mut output)?;
/// let answers = output.into_inner();
/// ```
#[derive(Debug, Drop)]
pub struct Std<T> {
    inner: T,
    faults: u64,
}

impl<T> Std<T> {
    ghost use Rattle.dnssec_record.specs.Std.{std_inner, std_faults};

    /// A device that reads or writes `inner`, and has not failed yet.
    #[tactic(auto, using(std::proofs::lemmas::Grind::common_steps))]
    pub fn new(inner: T) -> Self
        ensures inner { std_inner result ≡ inner }
        ensures faults { std_faults result ≡ 0 }
    {
        Std { inner, faults: 0 }
    }

    /// The reader or writer that the device was made from.
    pub fn into_inner(self) -> T
        ensures { result ≡ std_inner self }
    {
        let Std { inner, faults: _ } = self;
        inner
    }

    /// How many reads or writes have failed so far. A write that took none of its bytes has failed
    /// too.
    #[tactic(auto, using(std::proofs::lemmas::Grind::common_steps))]
    fn count(&self) -> u64
        ensures { result ≡ std_faults self.now }
    {
        self.faults
    }
}

impl<T: Read> Source for Std<T> {
    ghost use Rattle.dnssec_record.specs.Std.{std_inner, std_faults};

    ghost left = { λ device. T.remaining (std_inner device) };

    ghost faults = { λ device. std_faults device };

    /// Reads the next bytes of the inner reader into the front of `buf`, and answers how many
    /// bytes: 0 only at the end, or if `buf` is empty. If the reader fails, the count of faults
    /// grows by one, and the error is `DeviceFault`.
    #[tactic(auto, using(std::proofs::lemmas::Grind::common_steps))]
    fn read(&mut self, buf: &mut [u8]) -> Result<usize, DeviceFault> {
        match self.inner.read(buf) {
            Ok(count) => Ok(count),
            Err(_) => {
                self.faults += 1;
                Err(DeviceFault)
            }
        }
    }

    /// How many reads have failed so far.
    fn faults(&self) -> u64 {
        self.count()
    }
}

impl<T: Write> Sink for Std<T> {
    ghost use Rattle.dnssec_record.specs.Std.{std_inner, std_faults};

    ghost taken = { λ device. T.contents (std_inner device) };

    ghost faults = { λ device. std_faults device };

    /// Writes bytes from the front of `buf` to the inner writer, and answers how many bytes it
    /// took. If the writer fails, or takes none of a `buf` that isn't empty, the count of faults
    /// grows by one, and the error is `DeviceFault`.
    #[tactic(auto, using(std::proofs::lemmas::Grind::common_steps))]
    fn write(&mut self, buf: &[u8]) -> Result<usize, DeviceFault> {
        match self.inner.write(buf) {
            Ok(count) if count > 0 || buf.is_empty() => Ok(count),
            _ => {
                self.faults += 1;
                Err(DeviceFault)
            }
        }
    }

    /// How many writes have failed so far. One that took none of its bytes counts too.
    fn faults(&self) -> u64 {
        self.count()
    }
}
