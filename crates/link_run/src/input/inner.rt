//! Inner segments of the session that lie whole in the window.

use super::Input;
use link_wire::{InDevice, OutDevice, Session};

impl<R: InDevice, W: OutDevice, E: OutDevice> Input<Session<R>, W, E> {
    ghost use Rattle.std.specs.Prelude.{◌≡◌, ◌<◌, ℕ, List, length, IfSome, None, IsTrue};
    ghost use Rattle.link_wire.specs.Inner.{HasInnerSegment, inner_bytes, PassedInner};
    ghost use Rattle.link_wire.specs.Session.{source_of, may_read, is_opened, HasStopped, IsSessionAt};
    ghost use Rattle.link_wire.specs.Source.{given_by, window_of};
    ghost use Rattle.link_run.specs.Reading.{feed_of, ReadsNothing};

    /// The number of bytes given, which is the offset of the next byte.
    #[inline(always)]
    pub fn given(&self) -> u64
        ensures { result ≡ given_by (source_of (feed_of self.now)) }
    {
        self.feed.given()
    }

    /// The data of the next message, if this is an inner segment of transfer `id` that has data and
    /// lies whole in the window. Otherwise, and after a stop, it is `None`.
    #[inline(always)]
    pub fn inner_data(&self, id: u64) -> Option<&[u8]>
        ensures is { IfSome result (λ bytes.
            HasInnerSegment id (window_of (source_of (feed_of self.now))) (length bytes.now)) }
        ensures bytes { IfSome result (λ bytes.
            bytes.now ≡ inner_bytes (window_of (source_of (feed_of self.now))) (length bytes.now)) }
        ensures stopped { (stop : _) → HasStopped (feed_of self.now) stop → result ≡ None }
    {
        self.feed.inner_data(id)
    }

    /// Gives the inner segment that [`Input::inner_data`] found, as [`Session::pass_inner`] does.
    /// `size` is the number of bytes of its data.
    ///
    /// It reads nothing, so it hands nothing on.
    #[inline(always)]
    pub fn pass_inner(&mut self, size: usize)
        requires may_read { IsTrue (may_read (feed_of self.old)) }
        requires inner { (id : ℕ) × HasInnerSegment id (window_of (source_of (feed_of self.old))) size }
        ensures may_read { IsTrue (may_read (feed_of self.new)) }
        ensures opened { IsTrue (is_opened (feed_of self.new)) }
        ensures gives { (id : ℕ) (history : List ℕ) → IsSessionAt R.state (feed_of self.old) history
            → HasInnerSegment id (window_of (source_of (feed_of self.old))) size
            → PassedInner R.state (feed_of self.old) (feed_of self.new) history id
            (inner_bytes (window_of (source_of (feed_of self.old))) size) }
        ensures shrinks { length (window_of (source_of (feed_of self.new)))
            < length (window_of (source_of (feed_of self.old))) }
        ensures unread { ReadsNothing R.state source_of self.old self.new }
    {
        self.feed.pass_inner(size);
    }
}
