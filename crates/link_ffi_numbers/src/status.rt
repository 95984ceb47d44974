//! The statuses that exports return, by the names of the header.

/// The answer is whole.
pub const OK: u32 = 0;
/// Nothing is left at the offset.
pub const END: u32 = 1;
/// The bytes end inside the bundle, the contact header or the head of the message.
pub const TRUNCATED: u32 = 2;
/// The head of the segment is whole, and the bytes end inside its data.
pub const DATA_TRUNCATED: u32 = 3;
/// A fault, which stays one whatever bytes follow.
pub const FAULT: u32 = 4;
/// A slice that was lent is too small.
pub const TOO_SMALL: u32 = 5;
/// A number is out of its range.
pub const RANGE: u32 = 6;
/// A request for memory was refused.
pub const MEMORY: u32 = 8;
/// The scan needed no more bytes, and took none.
pub const SCAN_ENDED: u32 = 9;
