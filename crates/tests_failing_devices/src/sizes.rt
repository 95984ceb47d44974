//! Tests of the calls that a device makes of its reader or writer, with pieces of many sizes.

use link_wire::{BufferedReader, DeviceFault, InDevice, OutDevice, Reader, Writer};
use std::alloc::Global;
use std::io::{self, BufReader, ErrorKind, Read, Write};
use std::process::Abort;
use std::test::Fail;

/// The size in bytes of the program's input buffer.
const BUFFER: usize = 64 << 10;

/// The size in bytes of a source's window.
const WINDOW: usize = 8192;

/// Sizes around a page, a window and the buffer.
static SIZES: [usize; 10] = [
    1, 4095, 4096, 4097, 5000, 8191, 8193, 65_535, 65_536, 65_537,
];

/// The number of a call that is never reached.
const NEVER: usize = usize::MAX;

/// A reader of pieces of one size, without an end. It is interrupted at one call, and goes on then.
///
/// Calls are counted from 1.
#[derive(Drop)]
struct Pieces {
    size: usize,
    calls: usize,
    interrupted_at: usize,
}

impl Read for Pieces {
    fn read(&mut self, buffer: &mut [u8]) -> io::Result<usize> {
        self.calls = self.calls.saturating_add(1);
        if self.calls == self.interrupted_at {
            return Err(io::Error::from(ErrorKind::Interrupted));
        }
        Ok(self.size.min(buffer.len()))
    }
}

fn reader_of(size: usize, interrupted_at: usize) -> Pieces {
    Pieces {
        size,
        calls: 0,
        interrupted_at,
    }
}

/// A writer that takes everything, and counts its calls.
#[derive(Drop)]
struct Takes {
    writes: usize,
    flushes: usize,
}

impl Write for Takes {
    fn write(&mut self, bytes: &[u8]) -> io::Result<usize> {
        self.writes = self.writes.saturating_add(1);
        Ok(bytes.len())
    }

    fn flush(&mut self) -> io::Result<()> {
        self.flushes = self.flushes.saturating_add(1);
        Ok(())
    }
}

/// A buffered device over this reader.
fn buffered<'a>(
    alloc: Global,
    capacity: usize,
    reader: &'a mut Pieces,
) -> io::Result<BufferedReader<&'a mut Pieces>> {
    Ok(BufferedReader::new(BufReader::with_capacity(alloc, capacity, reader)?))
}

/// Passes over all that the device holds.
fn pass_all<R: Read>(device: &mut BufferedReader<R>) {
    let count = device.held().len();
    device.pass_held(count);
}

/// Passes over all that the device holds, which has to be `there` bytes but `given` of them.
fn holds_the_rest<R: Read>(
    rt: &impl Abort,
    device: &mut BufferedReader<R>,
    given: usize,
    there: usize,
) {
    assert_eq!(rt; device.held().len().checked_add(given), Some(there));
    pass_all(device);
    assert!(rt; device.held().is_empty());
}

/// A read gives what one call of the reader gave, and holds the rest.
fn reads_once(rt: &impl Abort, alloc: Global, size: usize) -> Result<(), Fail> {
    let mut reader = reader_of(size, NEVER);
    let mut device = buffered(alloc, BUFFER, &mut reader)?;
    let mut room = [0; WINDOW];
    let there = size.min(BUFFER);
    let given = size.min(WINDOW);
    assert_eq!(rt; device.read(&mut room), Ok(given));
    holds_the_rest(rt, &mut device, given, there);
    assert_eq!(rt; device.read_first(&mut room), Ok(1));
    holds_the_rest(rt, &mut device, 1, there);
    drop(device);
    assert_eq!(rt; reader.calls, 2);
    Ok(())
}

#[test]
fn a_buffered_read_reads_once(rt: HostRuntime) -> Result<(), Fail> {
    for &size in &SIZES {
        reads_once(&rt, rt.alloc(), size)?;
    }
    Ok(())
}

/// Reads pieces of this size, by either call, until the reader is interrupted at its third call.
fn stops(rt: &impl Abort, alloc: Global, size: usize, first: bool) -> Result<(), Fail> {
    let mut reader = reader_of(size, 3);
    let mut device = buffered(alloc, BUFFER, &mut reader)?;
    let mut room = [0; WINDOW];
    for &whole in &[true, true, false] {
        let read = if first {
            device.read_first(&mut room)
        } else {
            device.read(&mut room)
        };
        assert_eq!(rt; (read.is_ok(), device.failed()), (whole, !whole));
        pass_all(&mut device);
    }
    drop(device);
    assert_eq!(rt; reader.calls, 3);
    Ok(())
}

/// An error of the reader is a failure at once, and the reader is not asked again.
#[test]
fn interrupted_buffered_reader(rt: HostRuntime) -> Result<(), Fail> {
    for &size in &SIZES {
        stops(&rt, rt.alloc(), size, false)?;
        stops(&rt, rt.alloc(), size, true)?;
    }
    Ok(())
}

/// Each of these sizes is read with one call.
fn reads_each<R: InDevice>(
    rt: &impl Abort,
    device: &mut R,
    room: &mut [u8],
    sizes: &[usize],
) -> Result<(), Fail> {
    for size in sizes {
        let bytes = room.get_mut(..*size).ok_or("more than the room")?;
        assert_eq!(rt; device.read(bytes), Ok(*size));
    }
    Ok(())
}

/// A device over the reader alone calls it once for each of these sizes.
fn each_read(rt: &impl Abort, room: &mut [u8], sizes: &[usize]) -> Result<(), Fail> {
    let mut device = Reader::new(reader_of(usize::MAX, NEVER));
    reads_each(rt, &mut device, room, sizes)?;
    assert_eq!(rt; device.into_inner().calls, sizes.len());
    Ok(())
}

/// So does a device whose buffer has one byte.
fn each_read_past_a_buffer(
    rt: &impl Abort,
    alloc: Global,
    room: &mut [u8],
    sizes: &[usize],
) -> Result<(), Fail> {
    let mut reader = reader_of(usize::MAX, NEVER);
    let mut device = buffered(alloc, 1, &mut reader)?;
    reads_each(rt, &mut device, room, sizes)?;
    drop(device);
    assert_eq!(rt; reader.calls, sizes.len());
    Ok(())
}

/// A device calls its writer once for each of these sizes.
fn each_written(rt: &impl Abort, room: &[u8], sizes: &[usize]) -> Result<(), Fail> {
    let mut device = Writer::new(Takes {
        writes: 0,
        flushes: 0,
    });
    for size in sizes {
        let bytes = room.get(..*size).ok_or("more than the room")?;
        assert_eq!(rt; device.write(bytes), Ok(*size));
    }
    assert_eq!(rt; device.into_inner().writes, sizes.len());
    Ok(())
}

/// Each of these sizes is read and written with one call, by each device.
fn each_whole(rt: &impl Abort, alloc: Global, sizes: &[usize]) -> Result<(), Fail> {
    let mut room = vec![in alloc; 0u8; 70_000]?;
    let room = room.as_mut_slice();
    each_read(rt, room, sizes)?;
    each_read_past_a_buffer(rt, alloc, room, sizes)?;
    each_written(rt, room, sizes)
}

#[test]
fn each_size_is_read_and_written(rt: HostRuntime) -> Result<(), Fail> {
    let mut sizes = Vec::new(rt.alloc());
    for size in 1..=8193 {
        sizes.push(size)?;
    }
    each_whole(&rt, rt.alloc(), &sizes)?;
    each_whole(&rt, rt.alloc(), &SIZES)
}

/// Handing on flushes once, and writing flushes never.
#[test]
fn handing_on_flushes_once(rt: HostRuntime) {
    let mut writer = Writer::new(Takes {
        writes: 0,
        flushes: 0,
    });
    for _ in 0..3 {
        assert_eq!(rt; writer.write(b"tcpclkit"), Ok(8));
    }
    assert_eq!(rt; writer.settle(), Ok(()));
    let taken = writer.into_inner();
    assert_eq!(rt; (taken.writes, taken.flushes), (3, 1));
}
