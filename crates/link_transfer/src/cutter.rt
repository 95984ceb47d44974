//! Cutting bundles into the chunks that become the data of segments.

ghost use Rattle.std.specs.Prelude.{◌≡◌, ◌+◌, ◌<◌, ◌≤◌, Bool, true, false, ◌&&◌, not, ◌==◌, max, List, [], ◌∷◌, ◌++◌, length, take, is_some, is_ok, IfOk, IfSome, IfNone, OnSome, vec_capacity};
ghost use Rattle.std.specs.Bool.{OnTrue, OnFalse};

use crate::cut::Cut;
use crate::held::Held;
use std::alloc::{AllocError, Global};

/// Cuts bundles, one after another, into the data of their segments (RFC 9174 section 5.2.2).
///
/// Each chunk has the size of a segment, except a bundle's last chunk, which has the rest. A chunk
/// is ready as soon as it is full or the bundle has ended. But while a bundle is incomplete and has
/// at most `hold` bytes, no chunk is ready. So the first chunk can announce the length of the whole
/// bundle.
#[derive(Drop)]
pub struct Cutter {
    /// The bytes that were not cut, and the chunk of the latest cut.
    held: Held,
    /// The greatest length of a chunk.
    segment: usize,
    /// The greatest length of a bundle that is announced.
    hold: usize,
    /// Whether a chunk of the current bundle was cut.
    begun: bool,
    /// Whether the last byte of the current bundle was pushed.
    ended: bool,
    ghost room: { held.room ≡ max segment (hold + 1) },
    ghost some: { 0 < segment },
    ghost some_left: { ended ≡ true → 0 < length held.bytes },
    ghost hold_within: { hold ≤ 1048576 },
}

impl Cutter {
    ghost use Rattle.link_transfer.specs.Chunks.{chunks};
    ghost use Rattle.link_transfer.specs.Cutting.{Cutting, beginning, with_bytes, with_each, due, next_chunk, next_cut, after_cut, without_chunk, shown};
    ghost use Rattle.link_transfer.specs.Cutter.{IsCutterAt, has_ready_chunk, wanted_by, held_size};
    ghost use Rattle.link_transfer.specs.Held.{cut_of, is_chunk, is_last_of, announcement_of};

    /// A cutter for segments of at most `segment` bytes. It announces lengths up to `hold` bytes.
    ///
    /// `segment` is 1 to 65,536, and `hold` is 0 to 1,048,576. This call requests memory once, for
    /// the greater of `segment` and `hold + 1` bytes, and no later call requests any. `AllocError`
    /// means that the request was refused.
    pub fn new(alloc: Global, segment: usize, hold: usize) -> Result<Cutter, AllocError>
        requires positive { 0 < segment }
        requires segment_within { segment ≤ 65536 }
        requires hold_within { hold ≤ 1048576 }
        ensures start { IfOk result (λ cutter. IsCutterAt cutter (beginning segment hold)) }
        ensures quiet { IfOk result (λ cutter. has_ready_chunk cutter ≡ false) }
    {
        Cutter::over(
            Vec::with_capacity(alloc, segment.max(hold + 1)),
            segment,
            hold,
        )
    }

    /// Makes a cutter that holds its bytes in this memory. If `memory` is an error, returns it.
    fn over(
        memory: Result<Vec<u8>, AllocError>,
        segment: usize,
        hold: usize,
    ) -> Result<Cutter, AllocError>
        requires positive { 0 < segment }
        requires hold_within { hold ≤ 1048576 }
        requires empty { IfOk memory (λ buffer. buffer.items ≡ []) }
        requires room { IfOk memory (λ buffer. vec_capacity buffer ≡ max segment (hold + 1)) }
        ensures start { IfOk result (λ cutter. IsCutterAt cutter (beginning segment hold)) }
        ensures quiet { IfOk result (λ cutter. has_ready_chunk cutter ≡ false) }
        ensures given { is_ok result ≡ is_ok memory }
    {
        Ok(Cutter {
            held: Held::new(memory?, segment.max(hold + 1)),
            segment,
            hold,
            begun: false,
            ended: false,
        })
    }

    /// Whether a chunk is ready for `cut`.
    ///
    /// If none is, every chunk that is due so far was cut.
    #[inline]
    pub fn waiting(&self) -> bool
        ensures waits { result ≡ has_ready_chunk self.now }
        ensures cut { (so_far : Cutting) → IsCutterAt self.now so_far
            → result ≡ is_some (next_cut so_far) }
        ensures given { (so_far : Cutting) → IsCutterAt self.now so_far
            → OnFalse result (length so_far.given ≡ due so_far) }
    {
        self.waits()
    }

    /// Whether a chunk is ready.
    ///
    /// A chunk is ready if the bundle has ended, or if a chunk is full and the length can no longer
    /// be announced.
    #[inline]
    fn waits(&self) -> bool
        ensures { result ≡ has_ready_chunk self.now }
    {
        let size = self.held.len();
        self.ended || size >= self.segment && (self.begun || size > self.hold)
    }

    /// Returns the chunk of the latest cut, until the next push or cut. At any other time, returns
    /// the bytes that were not cut.
    pub fn bytes(&self) -> &[u8]
        ensures { (so_far : Cutting) → IsCutterAt self.now so_far → result.now ≡ shown so_far }
    {
        let given = self.held.given();
        if given.is_empty() {
            self.held.bytes()
        } else {
            given
        }
    }

    /// Takes the next byte of the current bundle. `last` is whether it is the bundle's last byte.
    ///
    /// This may be called only if no chunk is ready.
    #[inline]
    pub fn push(&mut self, byte: u8, last: bool)
        requires { has_ready_chunk self.old ≡ false }
        ensures { (so_far : Cutting) → IsCutterAt self.old so_far
            → IsCutterAt self.new (with_bytes (byte ∷ []) last so_far) }
    {
        self.held.push(byte);
        self.ended = last;
    }

    /// Takes bytes of the current bundle until a chunk is ready, or all, and returns how many.
    ///
    /// `last` is whether the last byte of the slice is the bundle's last. Pushing the same bytes
    /// one at a time has the same effect. This may be called only if no chunk is ready.
    #[inline]
    pub fn push_slice(&mut self, bytes: &[u8], last: bool) -> usize
        requires { has_ready_chunk self.old ≡ false }
        ensures within { result ≤ length bytes.now }
        ensures some { 0 < length bytes.now → 0 < result }
        ensures whole { length bytes.now ≤ wanted_by self.old → result ≡ length bytes.now }
        ensures pushed { (so_far : Cutting) → IsCutterAt self.old so_far
            → IsCutterAt self.new
            (with_bytes (take result bytes.now) (last && result == length bytes.now) so_far) }
        ensures each { (so_far : Cutting) → IsCutterAt self.old so_far
            → with_bytes (take result bytes.now) (last && result == length bytes.now) so_far
            ≡ with_each bytes.now last so_far }
    {
        if bytes.is_empty() {
            return 0;
        }
        let count = self.wanted().min(bytes.len());
        self.held.append(&bytes[..count]);
        self.ended = last && count == bytes.len();
        count
    }

    /// Cuts these bytes without taking them, if the cutter holds nothing and they are exactly the
    /// next chunk. Otherwise returns `None` and changes nothing.
    ///
    /// `last` is whether the last byte of the slice is the bundle's last. Cutting the bytes has the
    /// same effect as three calls: a push of the bytes, a `cut`, and a second `cut`, which returns
    /// `None`. This may be called only if no chunk is ready.
    #[inline(always)]
    pub fn cut_slice(&mut self, bytes: &[u8], last: bool) -> Option<Cut>
        requires { has_ready_chunk self.old ≡ false }
        ensures cut { (so_far : Cutting) → IsCutterAt self.old so_far
            → IfSome result (λ cut. next_cut (with_bytes bytes.now last so_far) ≡ Some cut) }
        ensures chunk { (so_far : Cutting) → IsCutterAt self.old so_far
            → OnSome result (next_chunk (with_bytes bytes.now last so_far) ≡ bytes.now) }
        ensures after { (so_far : Cutting) → IsCutterAt self.old so_far
            → OnSome result (IsCutterAt self.new
            (without_chunk (after_cut (with_bytes bytes.now last so_far)))) }
        ensures quiet { has_ready_chunk self.new ≡ false }
        ensures none { IfNone result (self.new ≡ self.old) }
    {
        if self.held.len() > 0 {
            return None;
        }
        if !self.is_chunk(bytes.len(), last) {
            return None;
        }
        // Such a chunk announces no length: the bundle has no more bytes than a segment, or its
        // length can no longer be announced.
        let cut = self.described(last, None);
        self.held.forget();
        self.begun = !last;
        Some(cut)
    }

    /// Whether `size` bytes are exactly the next chunk, if the cutter holds nothing.
    ///
    /// `last` is whether the bundle ends with them.
    #[inline(always)]
    fn is_chunk(&self, size: usize, last: bool) -> bool
        ensures { result ≡ is_chunk self.now.begun last self.now.segment self.now.hold size }
    {
        if last {
            return 0 < size && size <= self.segment;
        }
        size == self.segment && (self.begun || size > self.hold)
    }

    /// The number of further bytes that are needed until a chunk is ready.
    ///
    /// If the bundle ends earlier, a chunk is ready at its end. This may be called only if no chunk
    /// is ready.
    #[inline]
    pub fn wanted(&self) -> usize
        requires { has_ready_chunk self.now ≡ false }
        ensures some { 0 < result }
        ensures value { result ≡ wanted_by self.now }
        ensures room { length self.now.held.bytes + result ≤ self.now.held.room }
    {
        let full = if self.begun {
            self.segment
        } else {
            self.segment.max(self.hold + 1)
        };
        full - self.held.len()
    }

    /// Cuts the next chunk, if one is ready. [`Cutter::bytes`] then returns that chunk.
    ///
    /// After the last chunk of a bundle, the next push begins another bundle.
    pub fn cut(&mut self) -> Option<Cut>
        ensures cut { (so_far : Cutting) → IsCutterAt self.old so_far → result ≡ next_cut so_far }
        ensures after { (so_far : Cutting) → IsCutterAt self.old so_far
            → IsCutterAt self.new (after_cut so_far) }
        ensures waits { is_some result ≡ has_ready_chunk self.old }
        ensures quiet { IfNone result (has_ready_chunk self.new ≡ false) }
        ensures shrinks { OnSome result (held_size self.new < held_size self.old) }
        // After the last chunk, all chunks of the bundle were cut.
        ensures all { (so_far : Cutting) → IsCutterAt self.old so_far
            → IfSome result (λ cut. OnTrue cut.last
            (so_far.given ++ next_chunk so_far ∷ [] ≡ chunks so_far.segment so_far.bundle)) }
    {
        if !self.waits() {
            self.held.forget();
            return None;
        }
        let cut = self.next_cut();
        self.held.give(self.segment.min(self.held.len()));
        self.begun = !cut.last;
        self.ended &= !cut.last;
        Some(cut)
    }

    /// The description of the chunk that is ready.
    fn next_cut(&self) -> Cut
        ensures { result
            ≡ cut_of self.now.begun self.now.ended self.now.segment self.now.hold
            (held_size self.now) }
    {
        self.described(self.is_last(), self.announcement())
    }

    /// The description of the next chunk. `last` is whether it is the bundle's last chunk, and
    /// `announce` is the length that it announces.
    #[inline(always)]
    fn described(&self, last: bool, announce: Option<u64>) -> Cut
        ensures { result
            ≡ record { first = not self.now.begun; last = last; announce = announce } }
    {
        Cut {
            first: !self.begun,
            last,
            announce,
        }
    }

    /// Whether the bytes held are the bundle's last chunk.
    fn is_last(&self) -> bool
        ensures { result ≡ is_last_of self.now.ended self.now.segment (held_size self.now) }
    {
        self.ended && self.held.len() <= self.segment
    }

    /// The length of the bundle, if the next chunk announces it, or `None`. Only the first chunk
    /// announces it, and only if the bundle has ended, with more bytes than a segment and at most
    /// `hold`.
    fn announcement(&self) -> Option<u64>
        ensures { result
            ≡ announcement_of self.now.begun self.now.ended self.now.segment self.now.hold
            (held_size self.now) }
    {
        let size = self.held.len();
        if self.begun || !self.ended || size <= self.segment || size > self.hold {
            return None;
        }
        Some(size as u64)
    }
}
