//! Reads a recorded session message by message.

use link_wire::{
    Fields, INPUT_LIMIT, MessageBuffer, Reader, Session, Source, Stop, Writer, write_whole,
};
use std::io::{Read, Write};

/// Writes the data of a session's segments, joined, and returns the number of segments.
///
/// An error is the first fault of the stream, a device that failed, or an input that is too long.
pub fn copy_data<R: Read + Drop, W: Write + Drop>(input: R, output: W) -> Result<u64, Stop> {
    let mut session = Session::new(Source::new(Reader::new(input)));
    let mut output = Writer::new(output);
    let mut message = MessageBuffer::new();
    let mut segments = 0;
    session.open()?;
    // Each turn takes at least one byte, and a source gives at most INPUT_LIMIT bytes. So the input
    // ends before the last turn.
    for _turn in 0..INPUT_LIMIT {
        if session.left() > 0 {
            let size = session.load()?;
            write_whole(&mut output, session.loaded()).map_err(Stop::Io)?;
            session.pass(size);
        } else if session.next(&mut message)?.is_none() {
            break;
        } else if let Fields::Segment { .. } = message.fields {
            segments += 1;
        }
    }
    Ok(segments)
}
