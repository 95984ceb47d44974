//! An output device that makes texts in a page of its own.

ghost use Rattle.std.specs.Prelude.{◌≡◌, ◌+◌, ◌≤◌, ◌++◌, length, take, slice_range, IfOk};

use crate::device::{DeviceFault, OutDevice};
use crate::fault::IoFault;
use crate::text::{TEXT_MAX, Text, copy_into};
use crate::writing::write_out;
use std::alloc::{AllocError, Global};

/// The size of the page of a [`TextWriter`], in bytes.
const PAGE: usize = 64 << 10;

/// A [`TextWriter`] copies a slice into its page only if the slice is shorter than this.
const LARGE: usize = 16 << 10;

/// An output device that makes texts in a page of its own.
///
/// A text is made elsewhere and copied only if the page has less room than [`TEXT_MAX`]. If bytes
/// do not fit into the page, what waits there is first written to the device below. Bytes that wait
/// in the page count as written. So a writer cannot be dropped: [`TextWriter::into_device`] hands
/// on what waits. A large slice is written to the device below from where it lies, after what
/// waits.
pub struct TextWriter<D> {
    device: D,
    page: Vec<u8>,
    /// The number of bytes of the page that wait to be handed on.
    end: usize,
    ghost room: { length page.items ≡ 65536 },
    ghost within: { end ≤ length page.items },
}

impl<D: OutDevice + Drop> TextWriter<D> {
    ghost use Rattle.std.specs.Prelude.{◌≡◌, IfOk};
    ghost use Rattle.link_io.specs.TextWriter.{output_of};

    /// Makes a writer over the device.
    ///
    /// Its page is the only memory that it allocates.
    pub fn new(alloc: Global, device: D) -> Result<TextWriter<D>, AllocError>
        ensures { IfOk result (λ writer. output_of D.state writer ≡ D.state device) }
    {
        Ok(TextWriter::over(device, zeros(alloc, PAGE)?))
    }
}

impl<D: OutDevice> TextWriter<D> {
    /// Makes a writer over the device, with this page of [`PAGE`] bytes, in which nothing waits.
    fn over(device: D, page: Vec<u8>) -> TextWriter<D>
        requires { length page.items ≡ 65536 }
        ensures { output_of D.state result ≡ D.state device }
    {
        TextWriter {
            device,
            page,
            end: 0,
        }
    }

    ghost use Rattle.std.specs.Prelude.{◌≡◌, ◌+◌, ◌<◌, ◌≤◌, [], ◌++◌, length, OnOk, OnErr, IfOk, IfErr, true, MatchResult};
    ghost use Rattle.std.specs.Io.KnownBytes.{Keeps, WriteAppends};
    ghost use Rattle.link_io.specs.Writing.{WrittenWhole, WrittenPrefix};
    ghost use Rattle.link_io.specs.TextWriter.{device_of, waiting, output_of, AppendsPart};

    /// Hands on all that waits, and returns the device below.
    ///
    /// The result is a fault if a write failed. Then a proper prefix of what waits was handed on.
    pub fn into_device(self) -> (D, Result<(), DeviceFault>)
        ensures ok { OnOk result.1
            (Keeps (output_of D.state self).written (D.state result.0).written) }
        ensures part { OnErr result.1
            (AppendsPart (D.state (device_of self)).written
            (D.state result.0).written (waiting self)) }
        ensures failed { MatchResult result.1
            (λ _. (D.state result.0).failed ≡ (output_of D.state self).failed)
            (λ _. (D.state result.0).failed ≡ true) }
    {
        let TextWriter {
            mut device,
            page,
            end,
        } = self;
        let (_, answer) = write_out(&mut device, &page[..end]);
        (device, answer)
    }

    /// Appends bytes to the page, which has room for them.
    #[inline(always)]
    fn append(&mut self, bytes: &[u8])
        requires { length (waiting self.old) + length bytes.now ≤ length self.old.page.items }
        ensures waiting { waiting self.new ≡ waiting self.old ++ bytes.now }
        ensures device { self.new.device ≡ self.old.device }
    {
        self.end = copy_into(&mut self.page, self.end, bytes);
    }

    /// Hands on what waits.
    ///
    /// After a fault, the bytes that were not written still wait.
    fn pass(&mut self) -> Result<(), DeviceFault>
        ensures empty { OnOk result (waiting self.new ≡ []) }
        ensures size { length self.new.page.items ≡ length self.old.page.items }
        // Bytes that wait count as written: none is lost, and none is added.
        ensures bytes { Keeps (output_of D.state self.old).written
            (output_of D.state self.new).written }
        ensures failed { MatchResult result
            (λ _. (D.state self.new.device).failed ≡ (D.state self.old.device).failed)
            (λ _. (D.state self.new.device).failed ≡ true) }
    {
        let (count, answer) = write_out(&mut self.device, &self.page[..self.end]);
        self.end = keep_from(&mut self.page, count, self.end);
        answer
    }

    /// Does `write` for at least [`LARGE`] bytes, or for bytes that the page has no room for. What
    /// waits is handed on first.
    #[cold]
    #[inline(never)]
    fn write_on(&mut self, bytes: &[u8]) -> Result<usize, DeviceFault>
        ensures bound { IfOk result (λ n. n ≤ length bytes.now) }
        ensures some { IfOk result (λ n. 0 < length bytes.now → 0 < n) }
        ensures bytes { WriteAppends (output_of D.state self.old).written
            (output_of D.state self.new).written result bytes.now }
        ensures failed { MatchResult result
            (λ _. (D.state self.new.device).failed ≡ (D.state self.old.device).failed)
            (λ _. (D.state self.new.device).failed ≡ true) }
    {
        self.pass()?;
        if bytes.len() >= LARGE {
            return self.device.write(bytes);
        }
        self.append(bytes);
        Ok(bytes.len())
    }

    /// Appends a text that was made elsewhere, because the page had less room than [`TEXT_MAX`].
    /// What waits is handed on first, unless the text is empty.
    #[cold]
    #[inline(never)]
    fn write_made(&mut self, text: &[u8]) -> Result<(), IoFault>
        requires { length text.now ≤ TEXT_MAX }
        ensures ok { OnOk result (WrittenWhole (output_of D.state) self.old self.new text.now) }
        ensures err { IfErr result (WrittenPrefix (output_of D.state) self.old self.new text.now) }
    {
        if text.is_empty() {
            return Ok(());
        }
        match self.pass() {
            Ok(()) => {
                self.append(text);
                Ok(())
            }
            Err(_) => Err(IoFault::Write),
        }
    }
}

impl<D: OutDevice> OutDevice for TextWriter<D> {
    ghost use Rattle.std.specs.Prelude.{◌≡◌, [], true, OnOk, MatchResult};
    ghost use Rattle.std.specs.Io.KnownBytes.{Keeps};
    ghost use Rattle.link_io.specs.TextWriter.{output_of, waiting};

    ghost state = { output_of D.state };

    #[inline(always)]
    fn write(&mut self, bytes: &[u8]) -> Result<usize, DeviceFault> {
        if bytes.len() < LARGE && bytes.len() <= self.page.len() - self.end {
            self.append(bytes);
            return Ok(bytes.len());
        }
        self.write_on(bytes)
    }

    fn failed(&self) -> bool {
        self.device.failed()
    }

    #[inline(always)]
    fn write_text<T: Text>(&mut self, text: &T, page: &mut [u8]) -> Result<(), IoFault> {
        if self.page.len() - self.end >= TEXT_MAX {
            self.end = text.put(&mut self.page, self.end);
            return Ok(());
        }
        let end = text.put(page, 0);
        self.write_made(&page[..end])
    }

    fn settle(&mut self) -> Result<(), DeviceFault>
        ensures bytes { Keeps (output_of D.state self.old).written
            (output_of D.state self.new).written }
        ensures handed { OnOk result ((output_of D.state self.new).handed
            ≡ (output_of D.state self.new).written) }
        ensures failed { MatchResult result
            (λ _. (output_of D.state self.new).failed ≡ (output_of D.state self.old).failed)
            (λ _. (output_of D.state self.new).failed ≡ true) }
        // On success, nothing waits any more.
        ensures empty { OnOk result (waiting self.new ≡ []) }
    {
        self.pass()?;
        self.device.settle()
    }
}

/// A vector of `size` zeros.
fn zeros(alloc: Global, size: usize) -> Result<Vec<u8>, AllocError>
    ensures { IfOk result (λ page. length page.items ≡ size) }
{
    Ok(vec![in alloc; 0; size]?)
}

/// Moves the bytes `start..end` of the page to its index 0, and returns how many these are.
fn keep_from(page: &mut Vec<u8>, start: usize, end: usize) -> usize
    requires order { start ≤ end }
    requires within { end ≤ length page.old.items }
    ensures bytes { slice_range page.new.items 0 result ≡ slice_range page.old.items start end }
    ensures within { result ≤ length page.new.items }
    ensures size { length page.new.items ≡ length page.old.items }
{
    page.copy_within(start..end, 0);
    end - start
}
