//! Devices of a run over slices: bytes that are read, and a slice that a text is written to.

ghost use Rattle.std.specs.Prelude.{◌≡◌, ◌-◌, ◌^◌, Some, false, [], ◌++◌, length, min, nat_le};
ghost use Rattle.link_ffi_tools.specs.Slice.{overlaid, labelled};

use crate::history::History;
use crate::slice::copy_after;
use link_wire::{DeviceFault, InDevice, OutDevice};

/// A reader of the bytes of a slice, which never fails.
#[derive(Drop)]
pub struct SliceReader<'a> {
    left: &'a [u8],
}

impl<'a> SliceReader<'a> {
    /// A reader of these bytes.
    pub fn new(bytes: &'a [u8]) -> SliceReader<'a>
        ensures { ⟦<SliceReader<'a> as InDevice>⟧.state result
            ≡ record { left = Some bytes.now; failed = false; held = bytes.now } }
    {
        SliceReader { left: bytes }
    }
}

impl InDevice for SliceReader<'_> {
    ghost state = { λ r. record { left = Some r.left.now; failed = false; held = r.left.now } };

    /// Copies the next bytes into the buffer, as many as it has room for. It never fails.
    fn read(&mut self, buffer: &mut [u8]) -> Result<usize, DeviceFault> {
        let count = self.left.len().min(buffer.len());
        let (given, left) = self.left.split_at(count);
        buffer[..count].copy_from_slice(given);
        self.left = left;
        Ok(count)
    }

    fn failed(&self) -> bool {
        false
    }

    /// All bytes that were not read: they are at hand.
    fn held(&self) -> &[u8] {
        self.left
    }

    fn pass_held(&mut self, count: usize) {
        self.left = &self.left[count..];
    }
}

/// A writer into a slice, which never fails.
///
/// It writes as much of its text as fits, and counts all of it. So a run into a slice that is too
/// small goes on to its end, and the count is the length that would have been enough.
#[derive(Drop)]
pub struct SliceWriter<'a> {
    room: &'a mut [u8],
    count: u64,
    history: History,
    ghost counted: { count ≡ min (length history.text) (2 ^ 64 - 1) },
    ghost holds: { room.now ≡ overlaid history.before history.text },
}

impl<'a> SliceWriter<'a> {
    /// A writer that has no text yet.
    pub fn new(room: &'a mut [u8]) -> SliceWriter<'a>
        ensures same_reference { result.room.ghost_name ≡ room.entry.ghost_name }
        ensures history { result.history ≡ record { before = room.old; text = [] } }
    {
        let history = History::new(room);
        SliceWriter {
            room,
            count: 0,
            history,
        }
    }

    /// The number of the text's bytes, which stops at `u64::MAX`.
    pub fn count(&self) -> u64
        ensures { result ≡ min (length self.now.history.text) (2 ^ 64 - 1) }
    {
        self.count
    }

    /// Whether the slice has room for the text.
    pub fn fits(&self) -> bool
        ensures { result ≡ nat_le (length self.now.history.text) (length self.now.room.now) }
    {
        self.count <= self.room.len() as u64
    }
}

impl OutDevice for SliceWriter<'_> {
    /// What is written begins with a label of the slice. A run returns its devices, but no contract
    /// says that they still have the same slices. The label shows it.
    ghost state = { λ w. record {
      written = Some (labelled w.room.ghost_name w.history.before w.history.text);
      failed = false;
      handed = Some (labelled w.room.ghost_name w.history.before w.history.text);
    } };

    /// Appends bytes to the text. All of them count, also those for which the slice has no room.
    fn write(&mut self, bytes: &[u8]) -> Result<usize, DeviceFault> {
        copy_after(self.room, self.count, bytes);
        self.count = self.count.saturating_add(bytes.len() as u64);
        self.history = self.history.and(bytes);
        Ok(bytes.len())
    }

    fn failed(&self) -> bool {
        false
    }

    /// Does nothing: the text is not held back.
    fn settle(&mut self) -> Result<(), DeviceFault> {
        Ok(())
    }
}
