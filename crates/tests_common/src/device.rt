//! Devices in memory that move a few bytes a call, count their calls, and fail at a chosen call.

ghost use Rattle.std.specs.Prelude.{◌≡◌, ◌<◌, ◌≤◌, true, false, [], length, Some, IfOk, MatchResult};
ghost use Rattle.std.specs.Io.KnownBytes.{ReadConsumes, WriteAppends};
ghost use Rattle.link_wire.specs.Device.{Input, Output};

use crate::pace::{Failing, Pace};
use link_wire::{DeviceFault, InDevice, OutDevice};
use std::alloc::Global;

/// A reader of bytes in memory.
#[derive(Drop)]
pub struct TestReader<'a> {
    left: &'a [u8],
    pace: Pace,
}

impl<'a> TestReader<'a> {
    /// A reader that gives these bytes, at most `per_call` of them a call.
    pub fn new(bytes: &'a [u8], per_call: usize, failing: Failing) -> TestReader<'a>
        requires { 0 < per_call }
        ensures state { ⟦<TestReader<'a> as InDevice>⟧.state result
            ≡ record { left = Some bytes.now; failed = false; held = [] } }
        ensures pace { (result.pace.per_call ≡ per_call) × (result.pace.failing ≡ failing) }
    {
        TestReader {
            left: bytes,
            pace: Pace::new(per_call, failing),
        }
    }

    /// The number of bytes that it has given.
    pub fn given(&self) -> usize
        ensures { result ≡ self.now.pace.moved }
    {
        self.pace.moved()
    }

    /// The number of calls of `read`.
    pub fn calls(&self) -> usize
        ensures { result ≡ self.now.pace.calls }
    {
        self.pace.calls()
    }
}

impl InDevice for TestReader<'_> {
    ghost state = { λ r. record { left = Some r.left.now; failed = r.pace.failed; held = [] } };

    fn read(&mut self, buffer: &mut [u8]) -> Result<usize, DeviceFault> {
        let count = self.pace.turn(buffer.len().min(self.left.len()))?;
        let (given, left) = self.left.split_at(count);
        buffer[..count].copy_from_slice(given);
        self.left = left;
        Ok(count)
    }

    fn failed(&self) -> bool {
        self.pace.failed()
    }

    fn held(&self) -> &[u8] {
        &[]
    }

    fn pass_held(&mut self, count: usize) {
        let _ = count;
    }
}

/// A writer that keeps its bytes in memory.
#[derive(Drop)]
pub struct TestWriter {
    written: Vec<u8>,
    pace: Pace,
}

impl TestWriter {
    /// A writer that takes at most `per_call` bytes a call.
    pub fn new(alloc: Global, per_call: usize, failing: Failing) -> TestWriter
        requires { 0 < per_call }
        ensures state { ⟦<TestWriter as OutDevice>⟧.state result
            ≡ record { written = Some []; failed = false; handed = Some [] } }
        ensures pace { (result.pace.per_call ≡ per_call) × (result.pace.failing ≡ failing) }
    {
        TestWriter {
            written: Vec::new(alloc),
            pace: Pace::new(per_call, failing),
        }
    }

    /// The bytes written so far.
    pub fn written(&self) -> &[u8]
        ensures { ⟦<TestWriter as OutDevice>⟧.state self.now
            ≡ record {
              written = Some result.now;
              failed = (⟦<TestWriter as OutDevice>⟧.state self.now).failed;
              handed = Some result.now;
            } }
    {
        self.written.as_slice()
    }

    /// The number of calls of `write`.
    pub fn calls(&self) -> usize
        ensures { result ≡ self.now.pace.calls }
    {
        self.pace.calls()
    }
}

impl OutDevice for TestWriter {
    ghost state = { λ w. record {
      written = Some w.written.items;
      failed = w.pace.failed;
      handed = Some w.written.items;
    } };

    /// The device also fails if a request for memory is refused.
    fn write(&mut self, bytes: &[u8]) -> Result<usize, DeviceFault> {
        let count = self.pace.turn(bytes.len())?;
        match self.written.extend_from_slice(&bytes[..count]) {
            Ok(()) => Ok(count),
            Err(_) => {
                self.pace.fail();
                Err(DeviceFault)
            }
        }
    }

    fn failed(&self) -> bool {
        self.pace.failed()
    }

    fn settle(&mut self) -> Result<(), DeviceFault> {
        Ok(())
    }
}
