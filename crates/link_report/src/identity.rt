//! The text of a bundle in a line (RFC 9171 section 4.3.1), and the texts of endpoint IDs.

ghost use Rattle.std.specs.Prelude.{◌≡◌, ◌+◌, ◌≤◌, ◌++◌, length, take, codes};
ghost use Rattle.arrayvec.specs.ArrayVec.{array_vec_len};
ghost use Rattle.link_bundle_types.specs.EidView.{viewed_eid};
ghost use Rattle.link_bundle_types.specs.BundleView.{viewed_info};
ghost use Rattle.link_bundle_types.specs.ShortNames.{HasNoLongName, HasShortNames};
ghost use Rattle.link_report.specs.Eid.{eid_text};
ghost use Rattle.link_report.specs.Identity.{fragment_text, origin_text, identity_text};
ghost use Rattle.link_report.specs.Text.{escaped, number_text};
ghost use Rattle.link_report.specs.Written.{PutsText};

use crate::page::{write_bytes, write_escaped, write_number};
use crate::put::{LINE_MAX, Line, put_bytes};
use link_bundle_types::{BundleView, EID_LIMIT, EidView};

/// The greatest length of an endpoint ID's text: 4 bytes, and a name with each byte escaped.
pub const EID_MAX: usize = 4 + 4 * EID_LIMIT;

/// The greatest length of a fragment's text: 11 bytes and two numbers.
pub const FRAGMENT_MAX: usize = 51;

/// The greatest length of a bundle's text in bytes.
///
/// It is two endpoint IDs, 45 bytes, three numbers and the text of a fragment.
pub(crate) const IDENTITY_MAX: usize = 2 * EID_MAX + 105 + FRAGMENT_MAX;

/// Writes an endpoint ID with a dtn name from `at` on, and returns the index after it.
#[cold]
#[inline(never)]
fn write_name(page: &mut [u8], at: usize, name: &[u8]) -> usize
    requires short { length name.now ≤ EID_LIMIT }
    requires room { at + EID_MAX ≤ length page.old }
    ensures { PutsText page.old page.new at result EID_MAX (codes "dtn:" ++ escaped name.now) }
{
    let at = write_bytes(page, at, *b"dtn:");
    write_escaped(page, at, name)
}

/// Writes an ipn endpoint ID of three numbers from `at` on, and returns the index after it.
#[cold]
#[inline(never)]
fn write_three(page: &mut [u8], at: usize, allocator: u64, node: u64, service: u64) -> usize
    requires { at + EID_MAX ≤ length page.old }
    ensures { PutsText page.old page.new at result EID_MAX
        (number_text (codes "ipn:") allocator ++ number_text (codes ".") node
        ++ number_text (codes ".") service) }
{
    let at = write_number(page, at, *b"ipn:", allocator);
    let at = write_number(page, at, *b".", node);
    write_number(page, at, *b".", service)
}

/// Writes an endpoint ID from `at` on, and returns the index after it.
#[tactic(auto, unfolding(crate::specs::Eid::eid_text))]
#[inline(always)]
pub fn write_eid(page: &mut [u8], at: usize, eid: &EidView<'_>) -> usize
    requires short { HasNoLongName (viewed_eid eid.now) }
    requires room { at + EID_MAX ≤ length page.old }
    ensures { PutsText page.old page.new at result EID_MAX (eid_text (viewed_eid eid.now)) }
{
    match *eid {
        EidView::DtnNone => write_bytes(page, at, *b"dtn:none"),
        EidView::Dtn(name) => write_name(page, at, name),
        EidView::Ipn(node, service) => {
            let at = write_number(page, at, *b"ipn:", node);
            write_number(page, at, *b".", service)
        }
        EidView::Ipn3(allocator, node, service) => {
            write_three(page, at, allocator, node, service)
        }
    }
}

/// Writes the fragment offset and the total length of a fragment, and returns the index after them.
#[cold]
#[inline(never)]
fn write_fragment_numbers(page: &mut [u8], at: usize, offset: u64, total: u64) -> usize
    requires { at + FRAGMENT_MAX ≤ length page.old }
    ensures { PutsText page.old page.new at result FRAGMENT_MAX
        (number_text (codes " fragment=") offset ++ number_text (codes "/") total) }
{
    let at = write_number(page, at, *b" fragment=", offset);
    write_number(page, at, *b"/", total)
}

/// Writes the fragment offset and the total length, or nothing if the bundle is no fragment
/// (`None`). Returns the index after them.
#[tactic(auto, unfolding(crate::specs::Identity::fragment_text))]
#[inline(always)]
pub fn write_fragment(page: &mut [u8], at: usize, fragment: Option<(u64, u64)>) -> usize
    requires { at + FRAGMENT_MAX ≤ length page.old }
    ensures { PutsText page.old page.new at result FRAGMENT_MAX (fragment_text fragment) }
{
    match fragment {
        Some((offset, total)) => write_fragment_numbers(page, at, offset, total),
        None => at,
    }
}

/// Writes a source and a creation timestamp, and returns the index after them.
///
/// The three labels take 23 bytes, and each of the two numbers takes at most 20.
#[tactic(auto, unfolding(crate::specs::Identity::origin_text))]
#[inline(always)]
fn write_origin(page: &mut [u8], at: usize, source: &EidView<'_>, time: u64, sequence: u64) -> usize
    requires short { HasNoLongName (viewed_eid source.now) }
    requires room { at + EID_MAX + 63 ≤ length page.old }
    ensures { PutsText page.old page.new at result (EID_MAX + 63)
        (origin_text (viewed_eid source.now) time sequence) }
{
    let at = write_bytes(page, at, *b"source=");
    let at = write_eid(page, at, source);
    let at = write_number(page, at, *b" time=", time);
    write_number(page, at, *b" sequence=", sequence)
}

/// Writes what a line says of a bundle: the source, the creation timestamp, the destination, the
/// length of the payload, and the two numbers of a fragment. Returns the index after them.
#[tactic(auto, unfolding(crate::specs::Identity::identity_text))]
#[inline(always)]
pub(crate) fn write_identity(page: &mut [u8], at: usize, info: &BundleView<'_>) -> usize
    requires short { HasShortNames (viewed_info info.now) }
    requires room { at + IDENTITY_MAX ≤ length page.old }
    ensures text { take result page.new
        ≡ take at page.old ++ identity_text (viewed_info info.now) }
    ensures fits { result ≤ at + IDENTITY_MAX }
    ensures size { length page.new ≡ length page.old }
{
    let at = write_origin(page, at, &info.source, info.time, info.sequence);
    let at = write_bytes(page, at, *b" destination=");
    let at = write_eid(page, at, &info.destination);
    let at = write_number(page, at, *b" payload=", info.payload);
    write_fragment(page, at, info.fragment)
}

/// Appends an endpoint ID.
///
/// It takes at most 4,100 bytes: `dtn:`, and 1,024 escapes of 4 bytes each.
pub fn put_eid(line: &mut Line, eid: &EidView<'_>)
    requires short { HasNoLongName (viewed_eid eid.now) }
    requires room { array_vec_len line.old + 4100 ≤ LINE_MAX }
    ensures items { line.new.items ≡ line.old.items ++ eid_text (viewed_eid eid.now) }
    ensures len { array_vec_len line.new ≤ array_vec_len line.old + 4100 }
{
    let mut page = [0; EID_MAX];
    let end = write_eid(&mut page, 0, eid);
    put_bytes(line, &page[..end]);
}
