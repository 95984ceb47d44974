//! The failures of an input or an output.

use thiserror::Error;

/// The failure of a device or of an allocation, or an input past its limit.
#[derive(Clone, Copy, Debug, PartialEq, Eq, Error)]
pub enum IoFault {
    /// The reader failed.
    #[error("read failed")]
    Read,
    /// The reader gave a byte past the first 2^63 - 1 bytes.
    #[error("input too long")]
    InputTooLong,
    /// A writer failed.
    #[error("write failed")]
    Write,
    /// An allocation was refused.
    #[error("out of memory")]
    Memory,
}
