//! What a writer wrote, as numbers.

ghost use Rattle.std.specs.Prelude.{◌≡◌};
ghost use Rattle.link_ffi_writer.specs.Written.{written_shown};

use link_ffi_numbers::status::{OK, RANGE, TOO_SMALL};
use link_writing::WriteFault;

/// `struct tcpclkit_written`: what a call wrote into a slice.
#[repr(C)]
#[derive(Clone, Copy, Debug, PartialEq, Eq)]
pub struct Written {
    /// The number of bytes that were written: 0 unless the status is `OK`.
    pub count: u64,
    /// The number of bytes of the whole: after `TOO_SMALL` a room that would do.
    pub needed: u64,
}

/// What a writer returned, as numbers and a status.
pub fn written_shown(outcome: Result<usize, WriteFault>) -> (Written, u32)
    ensures { result ≡ written_shown outcome }
{
    match outcome {
        Ok(size) => {
            let size = size as u64;
            (
                Written {
                    count: size,
                    needed: size,
                },
                OK,
            )
        }
        Err(WriteFault::TooSmall(size)) => (
            Written {
                count: 0,
                needed: size as u64,
            },
            TOO_SMALL,
        ),
        Err(WriteFault::OutOfRange) => (
            Written {
                count: 0,
                needed: 0,
            },
            RANGE,
        ),
    }
}
