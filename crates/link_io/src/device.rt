//! Input and output devices: two traits, and devices made of std's readers and writers.

ghost use Rattle.std.specs.Prelude.{◌≡◌, ℕ, ◌<◌, ◌≤◌, true, false, List, [], length, take, drop, Option, OnOk, IfOk, IfErr, MatchResult};
ghost use Rattle.std.specs.Io.KnownBytes.{Consumes, Keeps, ReadConsumes, WriteAppends};
ghost use Rattle.link_io.specs.Device.{Input, Output, BeginsWith};
ghost use Rattle.link_io.specs.Writing.{WrittenWhole, WrittenPrefix};

use crate::fault::IoFault;
use crate::text::{TEXT_MAX, Text};
use std::io::{BufRead, BufReader, Read, Write};
use thiserror::Error;

/// The failure of a device.
///
/// What the device read or wrote before it failed is not undone.
#[derive(Clone, Copy, Debug, PartialEq, Eq, Error)]
#[error("device failed")]
pub struct DeviceFault;

/// A device that bytes are read from.
pub trait InDevice {
    /// The bytes left, if they are known, whether the device has failed, and what it holds.
    ghost state: { Self → Input };

    /// Reads the next bytes into the start of the buffer, and returns how many.
    ///
    /// If the buffer has room, 0 means the end of the input. After a fault, [`InDevice::failed`]
    /// returns true.
    fn read(&mut self, buffer: &mut [u8]) -> Result<usize, DeviceFault>
        ensures bound { IfOk result (λ n. n ≤ length buffer.new) }
        ensures bytes { ReadConsumes (state self.old).left (state self.new).left result buffer.new }
        ensures failed { MatchResult result
            (λ _. (state self.new).failed ≡ (state self.old).failed)
            (λ _. (state self.new).failed ≡ true) };

    /// Reads as [`InDevice::read`] does. A device with a buffer may return only the first byte of
    /// what it read. It then holds the others ([`InDevice::held`]), which a caller sees in place.
    fn read_first(&mut self, buffer: &mut [u8]) -> Result<usize, DeviceFault>
        ensures bound { IfOk result (λ n. n ≤ length buffer.new) }
        ensures bytes { ReadConsumes (state self.old).left (state self.new).left result buffer.new }
        ensures failed { MatchResult result
            (λ _. (state self.new).failed ≡ (state self.old).failed)
            (λ _. (state self.new).failed ≡ true) }
    {
        self.read(buffer)
    }

    /// Whether a read has failed.
    fn failed(&self) -> bool
        ensures { result ≡ (state self.now).failed };

    /// The next bytes, as many as the device already holds.
    ///
    /// A source that needs bytes takes these if there are any, and does not read.
    fn held(&self) -> &[u8]
        ensures held { result.now ≡ (state self.now).held }
        ensures next { BeginsWith (state self.now).left result.now };

    /// Passes over the first `count` of the bytes held, as if a read had given them.
    fn pass_held(&mut self, count: usize)
        requires { count ≤ length (state self.old).held }
        ensures bytes { Consumes (state self.old).left (state self.new).left
            (take count (state self.old).held) }
        ensures failed { (state self.new).failed ≡ (state self.old).failed }
        ensures rest { (state self.new).held ≡ drop count (state self.old).held };
}

/// A device that bytes are written to.
pub trait OutDevice {
    /// The bytes written, whether the device has failed, and what was handed on.
    ghost state: { Self → Output };

    /// Writes a prefix of the bytes, and returns its length, at least 1 for a nonempty slice.
    ///
    /// After a fault, none of the bytes was written, and [`OutDevice::failed`] returns true.
    fn write(&mut self, bytes: &[u8]) -> Result<usize, DeviceFault>
        ensures bound { IfOk result (λ n. n ≤ length bytes.now) }
        ensures some { IfOk result (λ n. 0 < length bytes.now → 0 < n) }
        ensures bytes { WriteAppends (state self.old).written
            (state self.new).written result bytes.now }
        ensures failed { MatchResult result
            (λ _. (state self.new).failed ≡ (state self.old).failed)
            (λ _. (state self.new).failed ≡ true) };

    /// Whether a write, or a call of [`OutDevice::settle`], has failed.
    fn failed(&self) -> bool
        ensures { result ≡ (state self.now).failed };

    /// Writes all of a text.
    ///
    /// The text is made in `page`. A device may make it in memory of its own instead. If a write
    /// fails, the fault is [`IoFault::Write`], and only a proper prefix of the text was written.
    fn write_text<T: Text>(&mut self, text: &T, page: &mut [u8]) -> Result<(), IoFault>
        requires page { TEXT_MAX ≤ length page.old }
        ensures ok { OnOk result (WrittenWhole state self.old self.new (T.text text.now)) }
        ensures err { IfErr result (WrittenPrefix state self.old self.new (T.text text.now)) }
        ensures size { length page.new ≡ length page.old }
    {
        let end = text.put(page, 0);
        let made = &page[..end];
        let mut at = 0;
        while at < made.len() {
            match self.write(&made[at..]) {
                Ok(n) => at += n,
                Err(_) => return Err(IoFault::Write),
            }
        }
        Ok(())
    }

    /// Hands on the written bytes that the device still holds back.
    fn settle(&mut self) -> Result<(), DeviceFault>
        ensures bytes { Keeps (state self.old).written (state self.new).written }
        ensures handed { OnOk result ((state self.new).handed ≡ (state self.new).written) }
        ensures failed { MatchResult result
            (λ _. (state self.new).failed ≡ (state self.old).failed)
            (λ _. (state self.new).failed ≡ true) };
}

/// An input device made of a reader of std.
///
/// Each error of the reader is a fault, `Interrupted` too.
#[derive(Drop)]
pub struct Reader<R: Read> {
    inner: R,
    failed: bool,
}

impl<R: Read> Reader<R> {
    ghost use Rattle.link_io.specs.Device.{Input};

    /// Makes a device that has not failed.
    pub fn new(inner: R) -> Self
        ensures { ⟦<Reader<R> as InDevice>⟧.state result
            ≡ record { left = R.remaining inner; failed = false; held = [] } }
    {
        Reader {
            inner,
            failed: false,
        }
    }

    /// The reader, as it is now.
    pub fn into_inner(self) -> R
        ensures { R.remaining result ≡ (⟦<Reader<R> as InDevice>⟧.state self).left }
    {
        let Reader { inner, failed: _ } = self;
        inner
    }
}

impl<R: Read> InDevice for Reader<R> {
    ghost state = { λ r.
        record { left = R.remaining r.inner; failed = r.failed; held = [] } };

    fn read(&mut self, buffer: &mut [u8]) -> Result<usize, DeviceFault> {
        match self.inner.read(buffer) {
            Ok(n) => Ok(n),
            Err(_) => {
                self.failed = true;
                Err(DeviceFault)
            }
        }
    }

    fn failed(&self) -> bool {
        self.failed
    }

    fn held(&self) -> &[u8] {
        &[]
    }

    /// Nothing is held, so there is nothing to do.
    fn pass_held(&mut self, count: usize) {
        let _ = count;
    }
}

/// An input device made of a buffered reader of std.
///
/// Each error of the reader is a fault, `Interrupted` too. It holds what is in the reader's buffer:
/// a read does not wait while the buffer has bytes.
#[derive(Drop)]
pub struct BufferedReader<R: Read> {
    buffered: Reader<BufReader<R>>,
}

impl<R: Read> BufferedReader<R> {
    ghost use Rattle.link_io.specs.Device.{Input};
    ghost use Rattle.std.specs.Io.Buffered.{reader_remaining, reader_buffer};

    /// Makes a device that has not failed.
    pub fn new(inner: BufReader<R>) -> Self
        ensures { ⟦<BufferedReader<R> as InDevice>⟧.state result
            ≡ record {
              left = reader_remaining R.remaining inner;
              failed = false;
              held = reader_buffer inner;
            } }
    {
        BufferedReader {
            buffered: Reader {
                inner,
                failed: false,
            },
        }
    }
}

impl<R: Read> InDevice for BufferedReader<R> {
    ghost use Rattle.std.specs.Io.Buffered.{reader_remaining, reader_buffer};

    ghost state = { λ r. record {
      left = reader_remaining R.remaining r.buffered.inner;
      failed = r.buffered.failed;
      held = reader_buffer r.buffered.inner;
    } };

    fn read(&mut self, buffer: &mut [u8]) -> Result<usize, DeviceFault> {
        self.buffered.read(buffer)
    }

    fn read_first(&mut self, buffer: &mut [u8]) -> Result<usize, DeviceFault> {
        let count = buffer.len().min(1);
        self.buffered.read(&mut buffer[..count])
    }

    fn failed(&self) -> bool {
        self.buffered.failed()
    }

    #[inline(always)]
    fn held(&self) -> &[u8] {
        self.buffered.inner.buffer()
    }

    fn pass_held(&mut self, count: usize) {
        self.buffered.inner.consume(count);
    }
}

/// An output device made of a writer of std.
///
/// Each error of the writer is a fault. So is a write that returns 0 for a nonempty slice.
#[derive(Drop)]
pub struct Writer<W: Write> {
    inner: W,
    failed: bool,
}

impl<W: Write> Writer<W> {
    /// Makes a device that has not failed.
    pub fn new(inner: W) -> Self
        ensures { ⟦<Writer<W> as OutDevice>⟧.state result
            ≡ record { written = W.contents inner; failed = false; handed = W.contents inner } }
    {
        Writer {
            inner,
            failed: false,
        }
    }

    /// The writer, as it is now.
    pub fn into_inner(self) -> W
        ensures { W.contents result ≡ (⟦<Writer<W> as OutDevice>⟧.state self).written }
    {
        let Writer { inner, failed: _ } = self;
        inner
    }
}

impl<W: Write> OutDevice for Writer<W> {
    // All that std's writer was given counts as handed on: std does not say what it holds back.
    ghost state = { λ w. record {
      written = W.contents w.inner;
      failed = w.failed;
      handed = W.contents w.inner;
    } };

    fn write(&mut self, bytes: &[u8]) -> Result<usize, DeviceFault> {
        match self.inner.write(bytes) {
            Ok(n) if n > 0 || bytes.is_empty() => Ok(n),
            _ => {
                self.failed = true;
                Err(DeviceFault)
            }
        }
    }

    fn failed(&self) -> bool {
        self.failed
    }

    fn settle(&mut self) -> Result<(), DeviceFault> {
        match self.inner.flush() {
            Ok(()) => Ok(()),
            Err(_) => {
                self.failed = true;
                Err(DeviceFault)
            }
        }
    }
}
