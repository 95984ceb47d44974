//! Inner segments that lie whole in the window, with their data.
//!
//! An inner segment has no flags: it is neither the first nor the last of its transfer (RFC 9174
//! section 5.2.2).

ghost use Rattle.std.specs.Prelude.{IfSome};
ghost use Rattle.link_wire.specs.Inner.{HasInnerSegment};

use super::{Phase, Session};
use crate::plain::{PLAIN_HEAD, id_and_length};
use byteorder::{BigEndian, ByteOrder};
use link_io::InDevice;

/// The first two bytes of an inner segment: the type byte of XFER_SEGMENT, and no flags.
const INNER: u16 = 0x0100;

/// The length of the segment's data, if the window begins with an inner segment of transfer `id`.
///
/// It is `None` unless the segment has data, and all of it is in the window.
#[tactic(auto, using(crate::proofs::Inners::inner_head, crate::proofs::Inners::two_bytes))]
#[inline(always)]
fn inner_size(window: &[u8], id: u64) -> Option<usize>
    ensures { IfSome result (HasInnerSegment id window.now) }
{
    if window.len() < PLAIN_HEAD {
        return None;
    }
    if BigEndian::read_u16(&window[..2]) != INNER {
        return None;
    }
    let (transfer, size) = id_and_length(window);
    if transfer != id {
        return None;
    }
    if size == 0 || size > (window.len() - PLAIN_HEAD) as u64 {
        return None;
    }
    Some(size as usize)
}

impl<R: InDevice> Session<R> {
    ghost use Rattle.std.specs.Prelude.{◌≡◌, ◌<◌, ℕ, List, length, IfSome, None, IsTrue};
    ghost use Rattle.link_io.specs.Source.{reader_of, window_of, reach};
    ghost use Rattle.link_wire.specs.Inner.{HasInnerSegment, inner_bytes, PassedInner};
    ghost use Rattle.link_wire.specs.Session.{source_of, may_read, is_opened, HasStopped, IsSessionAt};

    /// The data of the next message, if that message is an inner segment of transfer `id`, has
    /// data, and lies whole in the window.
    ///
    /// Without such a message, and after a stop, it returns `None`.
    #[inline(always)]
    pub fn inner_data(&self, id: u64) -> Option<&[u8]>
        ensures is { IfSome result (λ bytes.
            HasInnerSegment id (window_of (source_of self.now)) (length bytes.now)) }
        ensures bytes { IfSome result (λ bytes.
            bytes.now ≡ inner_bytes (window_of (source_of self.now)) (length bytes.now)) }
        ensures stopped { (stop : _) → HasStopped self.now stop → result ≡ None }
    {
        if let Phase::Stopped(_) = self.phase {
            return None;
        }
        let window = self.source.window();
        match inner_size(window, id) {
            Some(size) => Some(&window[PLAIN_HEAD..PLAIN_HEAD + size]),
            None => None,
        }
    }

    /// Gives the inner segment whose data [`Session::inner_data`] has shown: its head, and the
    /// `size` bytes of its data.
    #[inline(always)]
    pub fn pass_inner(&mut self, size: usize)
        requires may_read { IsTrue (may_read self.old) }
        requires inner { (id : ℕ) × HasInnerSegment id (window_of (source_of self.old)) size }
        ensures reader { reader_of (source_of self.new) ≡ reader_of (source_of self.old) }
        ensures may_read { IsTrue (may_read self.new) }
        ensures opened { IsTrue (is_opened self.new) }
        ensures gives { (id : ℕ) (history : List ℕ) → IsSessionAt R.state self.old history
            → HasInnerSegment id (window_of (source_of self.old)) size
            → PassedInner R.state self.old self.new history id
            (inner_bytes (window_of (source_of self.old)) size) }
        ensures shrinks { length (window_of (source_of self.new))
            < length (window_of (source_of self.old)) }
        ensures unread { reach R.state (source_of self.new) ≡ reach R.state (source_of self.old) }
    {
        let offset = self.source.given();
        self.source.give(PLAIN_HEAD);
        self.source.give(size);
        self.offset = offset;
    }
}
