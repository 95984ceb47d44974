//! Why nothing was written.

use thiserror::Error;

/// Why a writer wrote nothing.
#[derive(Clone, Copy, Debug, PartialEq, Eq, Error)]
pub enum WriteFault {
    /// A value is out of its range: a reader of this toolkit would refuse what was written.
    #[error("out of range")]
    OutOfRange,
    /// The slice is too small. A slice of this many bytes would do.
    #[error("the slice is too small: {0} bytes would do")]
    TooSmall(usize),
}
