//! Quiet messages at the start of a window.
//!
//! A quiet message has no data, and it changes neither the order nor the transfers of its sender:
//! XFER_ACK, XFER_REFUSE, KEEPALIVE and MSG_REJECT (RFC 9174 sections 5.1.1, 5.1.2, 5.2.3, 5.2.4).

ghost use Rattle.std.specs.Prelude.{◌≡◌, ◌<◌, ◌≤◌, ℕ, length, take};
ghost use Rattle.link_wire.specs.Whole.{AreQuietMessages, quiet_size};

/// The entry of a type byte that no quiet message has: more bytes than a slice can have.
const NONE: usize = 1 << 63;

/// The length of a quiet message, by its type byte.
// A `match` would become a jump table, with a jump for each message that is hard to predict.
#[rattlefmt::skip]
static SIZES: [usize; 256] = [
    NONE, // 0: no message has it
    NONE, // XFER_SEGMENT
    18, // XFER_ACK
    10, // XFER_REFUSE
    1, // KEEPALIVE
    NONE, // SESS_TERM
    3, // MSG_REJECT
    NONE, // SESS_INIT
    // 8 to 255: no message has them
    NONE, NONE, NONE, NONE, NONE, NONE, NONE, NONE,
    NONE, NONE, NONE, NONE, NONE, NONE, NONE, NONE, NONE, NONE, NONE, NONE, NONE, NONE, NONE, NONE,
    NONE, NONE, NONE, NONE, NONE, NONE, NONE, NONE, NONE, NONE, NONE, NONE, NONE, NONE, NONE, NONE,
    NONE, NONE, NONE, NONE, NONE, NONE, NONE, NONE, NONE, NONE, NONE, NONE, NONE, NONE, NONE, NONE,
    NONE, NONE, NONE, NONE, NONE, NONE, NONE, NONE, NONE, NONE, NONE, NONE, NONE, NONE, NONE, NONE,
    NONE, NONE, NONE, NONE, NONE, NONE, NONE, NONE, NONE, NONE, NONE, NONE, NONE, NONE, NONE, NONE,
    NONE, NONE, NONE, NONE, NONE, NONE, NONE, NONE, NONE, NONE, NONE, NONE, NONE, NONE, NONE, NONE,
    NONE, NONE, NONE, NONE, NONE, NONE, NONE, NONE, NONE, NONE, NONE, NONE, NONE, NONE, NONE, NONE,
    NONE, NONE, NONE, NONE, NONE, NONE, NONE, NONE, NONE, NONE, NONE, NONE, NONE, NONE, NONE, NONE,
    NONE, NONE, NONE, NONE, NONE, NONE, NONE, NONE, NONE, NONE, NONE, NONE, NONE, NONE, NONE, NONE,
    NONE, NONE, NONE, NONE, NONE, NONE, NONE, NONE, NONE, NONE, NONE, NONE, NONE, NONE, NONE, NONE,
    NONE, NONE, NONE, NONE, NONE, NONE, NONE, NONE, NONE, NONE, NONE, NONE, NONE, NONE, NONE, NONE,
    NONE, NONE, NONE, NONE, NONE, NONE, NONE, NONE, NONE, NONE, NONE, NONE, NONE, NONE, NONE, NONE,
    NONE, NONE, NONE, NONE, NONE, NONE, NONE, NONE, NONE, NONE, NONE, NONE, NONE, NONE, NONE, NONE,
    NONE, NONE, NONE, NONE, NONE, NONE, NONE, NONE, NONE, NONE, NONE, NONE, NONE, NONE, NONE, NONE,
    NONE, NONE, NONE, NONE, NONE, NONE, NONE, NONE, NONE, NONE, NONE, NONE, NONE, NONE, NONE, NONE,
];

/// The length of a quiet message with this type byte, or [`NONE`] if no quiet message has it.
#[inline(always)]
fn quiet_size(kind: u8) -> usize
    ensures size { result ≡ quiet_size kind }
    ensures some { 0 < result }
    ensures fits { result ≤ NONE }
{
    SIZES[usize::from(kind)]
}

/// The number of bytes of the quiet messages that lie whole at the start of the window.
#[inline(always)]
pub fn quiet(window: &[u8]) -> usize
    ensures within { result ≤ length window.now }
    ensures quiet { (offset : ℕ) → AreQuietMessages offset (take result window.now) }
{
    let mut at = 0;
    let mut next = 0;
    // All messages before `at` are quiet and whole. So is the message at `at` if it ends where the
    // window ends. A message that is not quiet never ends there, since its size is `NONE`.
    while next < window.len() {
        at = next;
        next = at + quiet_size(window[at]);
    }
    if next == window.len() { next } else { at }
}
