//! Tests that a stream is listed alike, wherever a read of the source ends.
//!
//! A source reads 8,192 bytes at a time.

use crate::listings::listing;
use std::alloc::Global;
use std::test::Fail;
use tests_common::checks::counted;
use tests_common::running::{gives, gives_at_each_pace};
use tests_common::stream::{
    BACK, CONTACT, CONTACT_LINE, EDGE, FIRST_SEGMENT, FRONT, LAST_SEGMENT, LENGTH_17, NODE,
    PARAMETERS, WHOLE_TRANSFER, joined,
};

/// A message, and its line without the offset.
struct Part {
    bytes: &'static [&'static [u8]],
    words: &'static [u8],
}

/// Every kind of message, with extension items and data: 168 bytes.
static PARTS: [Part; 9] = [
    Part {
        bytes: &[
            PARAMETERS,
            NODE,
            b"\x00\x00\x00\x0b\x01\x12\x34\x00\x01\xaa\x00\xab\xcd\x00\x00",
        ],
        words: b" sess-init keepalive=60 segment-mru=65536 transfer-mru=1048576 node=ipn:1.0 items=2 item=01:1234:1 item=00:abcd:0\n",
    },
    Part {
        bytes: &[
            FIRST_SEGMENT,
            b"\x00\x00\x00\x0d\x00\x00\x01\x00\x08\x00\x00\x00\x00\x00\x00\x00\x22",
            LENGTH_17,
            FRONT,
        ],
        words: b" xfer-segment flags=02 id=0 items=1 item=00:0001:8 length=17\n",
    },
    Part {
        bytes: &[LAST_SEGMENT, LENGTH_17, BACK],
        words: b" xfer-segment flags=01 id=0 length=17\n",
    },
    Part {
        bytes: &[b"\x02\x01\x00\x00\x00\x00\x00\x00\x00\x00\x00\x00\x00\x00\x00\x00\x00\x22"],
        words: b" xfer-ack flags=01 id=0 length=34\n",
    },
    Part {
        bytes: &[b"\x03\x02\x00\x00\x00\x00\x00\x00\x00\x00"],
        words: b" xfer-refuse reason=02/no-resources id=0\n",
    },
    Part {
        bytes: &[b"\x04"],
        words: b" keepalive\n",
    },
    Part {
        bytes: &[b"\x05\x01\x03"],
        words: b" sess-term flags=01 reason=03/busy\n",
    },
    Part {
        bytes: &[b"\x06\x01\x16"],
        words: b" msg-reject reason=01/message-type-unknown header=16\n",
    },
    Part {
        bytes: &[b"\x05\x00\x7f"],
        words: b" sess-term flags=00 reason=7f/?\n",
    },
];

/// The number of bytes of the parts.
const PARTS_SIZE: usize = 168;

/// A stream and its lines.
#[derive(Drop)]
struct Listed {
    stream: Vec<u8>,
    lines: Vec<u8>,
}

impl Listed {
    /// The stream and its lines with all of `PARTS` after them.
    fn with_parts(&self, alloc: Global) -> Result<Listed, Fail> {
        let stream = joined(alloc, &[&self.stream])?;
        let lines = joined(alloc, &[&self.lines])?;
        let mut whole = Listed { stream, lines };
        for part in &PARTS {
            whole.put(alloc, part)?;
        }
        Ok(whole)
    }

    /// Appends a part.
    fn put(&mut self, alloc: Global, part: &Part) -> Result<(), Fail> {
        let offset = format!(in alloc; "{}", self.stream.len())?;
        self.lines.extend_from_slice(offset.as_bytes())?;
        self.lines.extend_from_slice(part.words)?;
        for piece in part.bytes {
            self.stream.extend_from_slice(piece)?;
        }
        Ok(())
    }
}

/// A contact header and a segment with `size` bytes of data.
fn segment_of(alloc: Global, size: u64) -> Result<Listed, Fail> {
    let mut stream = joined(alloc, &[CONTACT, WHOLE_TRANSFER, &size.to_be_bytes()])?;
    for _ in 0..size {
        stream.push(0xa5)?;
    }
    let line = format!(in alloc; "6 xfer-segment flags=03 id=0 items=0 length={size}\n")?;
    let lines = joined(alloc, &[CONTACT_LINE, line.as_bytes()])?;
    Ok(Listed { stream, lines })
}

/// The parts follow a long segment, and the first read ends at each offset of them in turn.
#[test]
fn after_data(rt: HostRuntime) -> Result<(), Fail> {
    for size in 7996..=8164 {
        let whole = segment_of(rt.alloc(), size)?.with_parts(rt.alloc())?;
        let want = listing(&whole.lines, b"");
        gives_at_each_pace(rt.alloc(), "parts after data", &whole.stream, &want)?;
    }
    Ok(())
}

/// A KEEPALIVE.
const KEEPALIVE: Part = Part {
    bytes: &[b"\x04"],
    words: b" keepalive\n",
};

/// Checks the result for the parts after this stream.
fn parts_given_after(alloc: Global, before: &Listed) -> Result<(), Fail> {
    let whole = before.with_parts(alloc)?;
    let size = before.stream.len().saturating_add(PARTS_SIZE);
    counted("bytes with the parts", whole.stream.len(), size)?;
    let want = listing(&whole.lines, b"");
    gives(
        alloc,
        "parts after keepalives",
        &whole.stream,
        usize::MAX,
        &want,
    )
}

/// The parts follow keepalives, and the first read ends at each offset of them in turn.
#[test]
fn after_keepalives(rt: HostRuntime) -> Result<(), Fail> {
    let stream = joined(rt.alloc(), &[CONTACT])?;
    let lines = joined(rt.alloc(), &[CONTACT_LINE])?;
    let mut before = Listed { stream, lines };
    for offset in 6..=EDGE {
        if offset >= EDGE - PARTS_SIZE {
            parts_given_after(rt.alloc(), &before)?;
        }
        before.put(rt.alloc(), &KEEPALIVE)?;
    }
    Ok(())
}
