//! The lines of packed bundles.

ghost use Rattle.std.specs.Prelude.{◌≡◌, ◌+◌, ◌≤◌, [], length};
ghost use Rattle.link_bundle_types.specs.BundleView.{viewed_info};
ghost use Rattle.link_bundle_types.specs.ShortNames.{HasShortNames};
ghost use Rattle.link_report.specs.ShortNames.{HasShortNames-prop};
ghost use Rattle.link_report.specs.Packed.{packed_text, viewed_packed};
ghost use Rattle.link_report.specs.Written.{PutsText};

use crate::identity::write_identity;
use crate::page::{write_bytes, write_number};
use crate::put::{Line, put_whole};
use link_bundle_types::{BundleInfo, BundleView};
use link_wire::{TEXT_MAX, Text};

/// The values in the line of a packed bundle.
#[derive(Debug, PartialEq, Eq, Drop)]
pub struct PackedEntry {
    /// The bundle's number, which is its transfer ID too.
    pub number: u64,
    /// The number of segments that the bundle was cut into.
    pub segments: u64,
    /// The bundle's length in bytes.
    pub length: u64,
    /// The fields of the bundle.
    pub info: BundleInfo,
}

/// A [`PackedEntry`] by reference.
#[derive(Clone, Copy, Debug, PartialEq, Eq)]
pub struct PackedView<'a> {
    /// The bundle's number, which is its transfer ID too.
    pub number: u64,
    /// The number of segments that the bundle was cut into.
    pub segments: u64,
    /// The bundle's length in bytes.
    pub length: u64,
    /// The fields of the bundle.
    pub info: BundleView<'a>,
}

/// The line of a packed bundle, as a text.
#[derive(Drop)]
pub struct PackedText<'a> {
    pub entry: PackedView<'a>,
    ghost short: { HasShortNames (viewed_info entry.info) } by { HasShortNames-prop (viewed_info entry.info) },
}

/// Writes the line of a packed bundle.
///
/// The names in the bundle's source and destination have at most 1,024 bytes each.
#[tactic(auto, unfolding(crate::specs::Packed::packed_text))]
#[inline(never)]
fn write_packed(page: &mut [u8], at: usize, entry: &PackedView<'_>) -> usize
    requires short { HasShortNames (viewed_info entry.now.info) }
    requires room { at + TEXT_MAX ≤ length page.old }
    ensures { PutsText page.old page.new at result TEXT_MAX
        (packed_text (viewed_packed entry.now)) }
{
    let at = write_number(page, at, *b"bundle ", entry.number);
    let at = write_number(page, at, *b" segments=", entry.segments);
    let at = write_number(page, at, *b" length=", entry.length);
    let at = write_bytes(page, at, *b" ");
    let at = write_identity(page, at, &entry.info);
    write_bytes(page, at, *b"\n")
}

impl<'a> Text for PackedText<'a> {
    ghost text = { λ line. packed_text (viewed_packed line.entry) };

    #[inline(always)]
    fn put(&self, page: &mut [u8], at: usize) -> usize {
        write_packed(page, at, &self.entry)
    }
}

/// Writes the line of a packed bundle into an empty line, from an entry by reference.
///
/// The names in the bundle's source and destination have at most 1,024 bytes each.
pub fn packed_view_line(line: &mut Line, entry: &PackedView<'_>)
    requires empty { line.old.items ≡ [] }
    requires short { HasShortNames (viewed_info entry.now.info) }
    ensures { line.new.items ≡ packed_text (viewed_packed entry.now) }
{
    put_whole(line, &PackedText { entry: *entry });
}

/// Writes the line of a packed bundle into an empty line.
pub fn packed_line(line: &mut Line, entry: &PackedEntry)
    requires { line.old.items ≡ [] }
    ensures { line.new.items ≡ packed_text entry.now }
{
    let view = PackedView {
        number: entry.number,
        segments: entry.segments,
        length: entry.length,
        info: entry.info.view(),
    };
    packed_view_line(line, &view);
}
