//! The lines of transfers.

ghost use Rattle.std.specs.Prelude.{◌≡◌, ◌+◌, ◌≤◌, [], length};
ghost use Rattle.link_report.specs.Judgement.{viewed_judgement, HasOnlyShortNames};
ghost use Rattle.link_report.specs.ShortNames.{HasOnlyShortNames-prop};
ghost use Rattle.link_report.specs.Transfer.{extent_text, transfer_text, viewed_transfer};
ghost use Rattle.link_report.specs.Written.{PutsText};

use crate::judgement::{Judgement, JudgementView, write_judgement};
use crate::page::{write_bytes, write_number};
use crate::put::{Line, put_whole};
use link_wire::{TEXT_MAX, Text};

/// The values in the line of a transfer.
#[derive(Debug, PartialEq, Eq, Drop)]
pub struct TransferEntry {
    /// The transfer ID.
    pub id: u64,
    /// The offset in the output of the transfer's first byte.
    pub start: u64,
    /// The number of the transfer's bytes in the output.
    pub written: u64,
    /// The number of data bytes in the transfer's segments.
    pub length: u64,
    /// The judgement on these data.
    pub judgement: Judgement,
}

/// A [`TransferEntry`] by reference.
#[derive(Clone, Copy, Debug, PartialEq, Eq)]
pub struct TransferView<'a> {
    /// The transfer ID.
    pub id: u64,
    /// The offset in the output of the transfer's first byte.
    pub start: u64,
    /// The number of the transfer's bytes in the output.
    pub written: u64,
    /// The number of data bytes in the transfer's segments.
    pub length: u64,
    /// The judgement on these data.
    pub judgement: JudgementView<'a>,
}

/// The line of a transfer, as a text.
#[derive(Drop)]
pub struct TransferText<'a> {
    pub entry: TransferView<'a>,
    ghost short: { HasOnlyShortNames (viewed_judgement entry.judgement) } by { HasOnlyShortNames-prop (viewed_judgement entry.judgement) },
}

/// Writes the ID and the extent of a transfer, and returns the index after them.
///
/// The output contains `written` bytes of the transfer, from the offset `start` on. `size` is the
/// number of its data bytes. The text takes at most 33 bytes, and four numbers of at most 20
/// digits.
#[tactic(auto, unfolding(crate::specs::Transfer::extent_text))]
#[inline(always)]
fn write_extent(page: &mut [u8], at: usize, id: u64, start: u64, written: u64, size: u64) -> usize
    requires { at + 113 ≤ length page.old }
    ensures { PutsText page.old page.new at result 113 (extent_text id start written size) }
{
    let at = write_number(page, at, *b"transfer ", id);
    let at = write_number(page, at, *b" start=", start);
    let at = write_number(page, at, *b" written=", written);
    write_number(page, at, *b" length=", size)
}

/// Writes the line of a transfer.
///
/// The names in the source and destination of a good bundle have at most 1,024 bytes each.
#[tactic(auto, unfolding(crate::specs::Transfer::transfer_text))]
#[inline(never)]
fn write_transfer(page: &mut [u8], at: usize, entry: &TransferView<'_>) -> usize
    requires short { HasOnlyShortNames (viewed_judgement entry.now.judgement) }
    requires room { at + TEXT_MAX ≤ length page.old }
    ensures { PutsText page.old page.new at result TEXT_MAX
        (transfer_text (viewed_transfer entry.now)) }
{
    let at = write_extent(page, at, entry.id, entry.start, entry.written, entry.length);
    let at = write_bytes(page, at, *b" ");
    let at = write_judgement(page, at, &entry.judgement);
    write_bytes(page, at, *b"\n")
}

impl<'a> Text for TransferText<'a> {
    ghost text = { λ line. transfer_text (viewed_transfer line.entry) };

    #[inline(always)]
    fn put(&self, page: &mut [u8], at: usize) -> usize {
        write_transfer(page, at, &self.entry)
    }
}

/// Writes the line of a transfer into an empty line, from an entry by reference.
///
/// The names in the source and destination of a good bundle have at most 1,024 bytes each.
pub fn transfer_view_line(line: &mut Line, entry: &TransferView<'_>)
    requires empty { line.old.items ≡ [] }
    requires short { HasOnlyShortNames (viewed_judgement entry.now.judgement) }
    ensures { line.new.items ≡ transfer_text (viewed_transfer entry.now) }
{
    put_whole(line, &TransferText { entry: *entry });
}

/// Writes the line of a transfer into an empty line.
pub fn transfer_line(line: &mut Line, entry: &TransferEntry)
    requires { line.old.items ≡ [] }
    ensures { line.new.items ≡ transfer_text entry.now }
{
    let view = TransferView {
        id: entry.id,
        start: entry.start,
        written: entry.written,
        length: entry.length,
        judgement: entry.judgement.view(),
    };
    transfer_view_line(line, &view);
}
