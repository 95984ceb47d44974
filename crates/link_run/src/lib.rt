//! The runs of the tools. Each run reads an input step by step, and writes an output and a report.
//!
//! Each tool implements [`Stages`]: what it does in one step, and what it keeps between two steps.
//! A [`ToolRun`] adds what all tools share: the input, the writers, and the answer, which it
//! returns again after the end. A stage reads only through an [`Input`]. Before a read that may
//! have to wait, the input hands on what was written. A stage writes through its [`Writers`].
//!
//! ```ignore
//! match input.next_message(writers, &mut message) {
//!     Ok(Some(offset)) => {}               // its head was read; its data is still to come
//!     Ok(None) => {}                       // the stream has ended between two messages
//!     Err(stop) => return writers.end(stop), // a fault of the stream, or a device failed
//! }
//! ```
#![tactic(auto)]

mod input;
mod log;
mod next;
mod run;
mod stages;
mod writers;

pub use input::{Feed, Input, Position};
pub use log::Ran;
pub use next::Next;
pub use run::{Progress, Run, RunEnd, Status};
pub use stages::{PIECE, Stages, ToolRun};
pub use writers::Writers;
