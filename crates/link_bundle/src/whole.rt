//! Reads a bundle that lies whole in a slice.
//!
//! An error means only that no bundle was read: it is cut or has a fault, or a head in it is
//! spelled at greater length than it has to be. The scan then finds out which, part by part.
ghost use Rattle.std.specs.Prelude.{◌≡◌, List, ◌<◌, [], length, is_some, Some, Ok, IfOk, IsTrue, true};
ghost use Rattle.link_bundle_blocks.specs.Primary.{primary_at};
ghost use Rattle.link_bundle_blocks.specs.Blocks.{Block};
ghost use Rattle.link_bundle_blocks.specs.Bundle.{bundle_at};
ghost use Rattle.link_bundle.specs.Left.{primary_of, bundle_of, HasPrimary};
ghost use Rattle.link_bundle_blocks.specs.Whole.{whole_primary};

use crate::draft::Draft;
use link_bundle_blocks::{
    OPENING, blocks_at, eid_at, field_at, fragment_at, pair_at, small_at, unsigned_at,
};
use link_bundle_heads::row;
use link_bundle_types::BundleFault;
use link_cbor::CheckKind;

impl Draft {
    /// Reads the primary block up to its check field (RFC 9171 section 4.3.1).
    ///
    /// Returns the block's check type, and the offset after what was read.
    #[inline(always)]
    fn primary_at(
        &mut self,
        bytes: &[u8],
        offset: usize,
    ) -> Result<(Option<CheckKind>, usize), BundleFault>
        ensures read { IfOk result (λ read. primary_at bytes.now offset
            ≡ Ok ((primary_of self.new, read.0), read.1)) }
        ensures numbers { self.new.numbers ≡ self.old.numbers }
        ensures payload { self.new.payload_span ≡ self.old.payload_span }
        ensures whole { self.new.whole ≡ self.old.whole }
    {
        let (head, offset) = small_at(row::ARRAY, bytes, offset)?;
        let count = row::primary_block(head)?;
        let (head, offset) = small_at(row::UNSIGNED, bytes, offset)?;
        row::version(head)?;
        let (flags, offset) = unsigned_at(bytes, offset)?;
        let (head, offset) = small_at(row::UNSIGNED, bytes, offset)?;
        let check = row::primary_check_type(count, flags, head)?;
        let (destination, offset) = eid_at(bytes, offset)?;
        self.destination.keep(destination);
        let (source, offset) = eid_at(bytes, offset)?;
        self.source.keep(source);
        let (report_to, offset) = eid_at(bytes, offset)?;
        self.report_to.keep(report_to);
        let offset = pair_at(bytes, offset)?;
        let (time, offset) = unsigned_at(bytes, offset)?;
        let (sequence, offset) = unsigned_at(bytes, offset)?;
        let (lifetime, offset) = unsigned_at(bytes, offset)?;
        let (fragment, offset) = fragment_at(row::is_fragment(flags), bytes, offset)?;
        self.flags = flags;
        self.time = time;
        self.sequence = sequence;
        self.lifetime = lifetime;
        self.fragment = fragment;
        Ok((check, offset))
    }

    /// Reads the first byte of a bundle and its primary block.
    ///
    /// Returns the block's check type, and the offset after the block. After an error, the draft
    /// may have some of the block's fields.
    #[tactic(auto, using(link_bundle_blocks::proofs::Readings::opening_at_array), unfolding(link_bundle_blocks::specs::Whole::whole_primary))]
    #[inline(always)]
    pub fn whole_primary(&mut self, bytes: &[u8]) -> Result<(Option<CheckKind>, usize), BundleFault>
        requires some { 0 < length bytes.now }
        ensures read { IfOk result (λ read. whole_primary bytes.now
            ≡ Ok ((primary_of self.new, read.0), read.1)) }
        ensures numbers { self.new.numbers ≡ self.old.numbers }
        ensures payload { self.new.payload_span ≡ self.old.payload_span }
        ensures whole { self.new.whole ≡ self.old.whole }
    {
        if bytes[0] != OPENING {
            return Err(BundleFault::NotABundle);
        }
        let (check, offset) = self.primary_at(bytes, 1)?;
        let next = field_at(check, 1, bytes, offset)?;
        Ok((check, next))
    }

    /// Reads the bundle that the bytes begin with, and returns its length.
    ///
    /// After an error, the draft has to be restarted before it is used again.
    #[inline(always)]
    pub fn whole(&mut self, bytes: &[u8]) -> Result<usize, BundleFault>
        requires some { 0 < length bytes.now }
        requires blank { self.old.numbers ≡ [] }
        ensures read { IfOk result (λ size. (blocks : List Block)
            × (bundle_at bytes.now ≡ Ok (record (bundle_of self.new size) { blocks = blocks }))) }
        ensures primary { IfOk result (λ _. HasPrimary self.new bytes.now) }
        ensures payload { IfOk result (λ _. IsTrue (is_some self.new.payload_span)) }
        ensures whole { IfOk result (λ _. IsTrue self.new.whole) }
    {
        let (_, offset) = self.whole_primary(bytes)?;
        let (payload, end) = blocks_at(&mut self.numbers, bytes, offset)?;
        self.payload_span = Some(payload);
        self.whole = true;
        Ok(end)
    }
}
