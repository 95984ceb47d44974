//! Input and output: devices, a source that reads ahead and gives each byte once, and whole writes.
//!
//! ```
//! let mut source = Source::new(Reader::new(stdin));
//! let mut output = Writer::new(stdout);
//! let mut buffer = [0; 512];
//! loop {
//!     let count = source.some(&mut buffer)?; // 0 only at the end of the input
//!     if count == 0 {
//!         break;
//!     }
//!     write_whole(&mut output, &buffer[..count])?;
//! }
//! ```
#![tactic(auto)]

mod device;
mod fault;
mod source;
mod text;
mod text_writer;
mod writing;

pub use device::{BufferedReader, DeviceFault, InDevice, OutDevice, Reader, Writer};
pub use fault::IoFault;
pub use source::{Filled, INPUT_LIMIT, Source, WINDOW};
pub use text::{TEXT_MAX, Text, copy_into};
pub use text_writer::TextWriter;
pub use writing::write_whole;
