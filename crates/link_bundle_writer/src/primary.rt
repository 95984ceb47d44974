//! The primary block (RFC 9171 section 4.3.1).

ghost use Rattle.std.specs.Prelude.{◌≡◌, ◌≤◌, ◌++◌, [], true};
ghost use Rattle.arrayvec.specs.ArrayVec.{array_vec_len};
ghost use Rattle.link_bundle_heads.specs.Rows.{is_fragment};
ghost use Rattle.link_bundle_writer.specs.NewBlocks.{says_fragment, has_short_names, primary_is_writable, fragment_elements, primary_front, primary_eids, primary_rest, primary_elements, primary_of};
ghost use Rattle.link_bundle_writer.specs.NewPrimary.{viewed_new};
ghost use Rattle.link_writing.specs.Writes.{WritesIntoSlice};

use crate::check::{check_elements, check_type, field_of};
use crate::eid::{is_short, put_eid};
use crate::head::{put_array, put_unsigned};
use arrayvec::ArrayVec;
use link_bundle_heads::row::is_fragment;
use link_bundle_types::EidView;
use link_cbor::CheckKind;
use link_writing::{WriteFault, write_parts};

/// The most bytes of the elements of a primary block: ten heads, and three endpoint IDs.
const ELEMENTS_MAX: usize = 3243;

/// A room for every primary block.
pub const PRIMARY_MAX: usize = 3248;

/// The version of bundles (RFC 9171 section 4.3.1).
const VERSION: u64 = 7;

/// The fields of a primary block that is to be written.
#[derive(Clone, Copy, Debug, PartialEq, Eq)]
pub struct NewPrimary<'a> {
    /// The bundle processing control flags (RFC 9171 section 4.2.3). Flag 01 is set in a fragment
    /// alone.
    pub flags: u64,
    /// The kind of the block's check, if it has one (RFC 9171 section 4.2.1).
    pub check: Option<CheckKind>,
    /// The endpoint ID of the destination (RFC 9171 section 4.2.5.1).
    pub destination: EidView<'a>,
    /// The endpoint ID of the source node.
    pub source: EidView<'a>,
    /// The endpoint ID to which reports on the bundle go.
    pub report_to: EidView<'a>,
    /// The creation time, in milliseconds since 2000-01-01 UTC (RFC 9171 section 4.2.6).
    pub time: u64,
    /// The sequence number of the creation timestamp (RFC 9171 section 4.2.7).
    pub sequence: u64,
    /// The lifetime, in milliseconds after the creation time.
    pub lifetime: u64,
    /// The offset and the total length of a fragment, both in bytes.
    pub fragment: Option<(u64, u64)>,
}

/// Whether flag 01 and `fragment` agree on whether the bundle is a fragment.
fn says_fragment(flags: u64, fragment: Option<(u64, u64)>) -> bool
    ensures { result ≡ says_fragment (is_fragment flags) fragment }
{
    is_fragment(flags) == fragment.is_some()
}

/// Whether flag 01 and `fragment` agree, and each dtn name has at most 1,024 bytes. A scan accepts
/// no other primary block.
#[tactic(auto, unfolding(crate::specs::NewBlocks::primary_is_writable))]
fn is_writable(primary: &NewPrimary<'_>) -> bool
    ensures { result ≡ primary_is_writable (viewed_new primary.now) }
{
    says_fragment(primary.flags, primary.fragment)
        && is_short(&primary.destination)
        && is_short(&primary.source)
        && is_short(&primary.report_to)
}

/// The bytes of the elements.
type Elements = ArrayVec<u8, ELEMENTS_MAX>;

/// The number of elements that a fragment adds.
fn fragment_elements(fragment: Option<(u64, u64)>) -> u64
    ensures { result ≡ fragment_elements fragment }
{
    match fragment {
        None => 0,
        Some(_) => 2,
    }
}

/// Appends the array's head, the version, the flags and the check type. Each of these four heads
/// has at most nine bytes, so together they have at most 36.
fn put_front(elements: &mut Elements, primary: &NewPrimary<'_>)
    requires { elements.old.items ≡ [] }
    ensures items { elements.new.items ≡ primary_front (viewed_new primary.now) primary.now.check }
    ensures len { array_vec_len elements.new ≤ 36 }
{
    // Each primary block has eight elements. A fragment and a check add to them.
    let fields = 8 + fragment_elements(primary.fragment) + check_elements(primary.check);
    put_array(elements, fields);
    put_unsigned(elements, VERSION);
    put_unsigned(elements, primary.flags);
    put_unsigned(elements, check_type(primary.check));
}

/// Appends the three endpoint IDs after the bytes of [`put_front`], which are at most 36. Each
/// endpoint ID has at most 1,051 bytes (`EID_MAX`), so all bytes together are at most 3,189.
fn put_eids(elements: &mut Elements, primary: &NewPrimary<'_>)
    requires short { has_short_names (viewed_new primary.now) ≡ true }
    requires room { array_vec_len elements.old ≤ 36 }
    ensures items { elements.new.items ≡ elements.old.items
        ++ primary_eids (viewed_new primary.now) }
    ensures len { array_vec_len elements.new ≤ 3189 }
{
    put_eid(elements, &primary.destination);
    put_eid(elements, &primary.source);
    put_eid(elements, &primary.report_to);
}

/// Appends the creation timestamp, the lifetime, and the fields of a fragment. At most 3,189 bytes
/// come before them, as [`put_eids`] says.
fn put_rest(elements: &mut Elements, primary: &NewPrimary<'_>)
    requires { array_vec_len elements.old ≤ 3189 }
    ensures { elements.new.items ≡ elements.old.items ++ primary_rest (viewed_new primary.now) }
{
    put_array(elements, 2);
    put_unsigned(elements, primary.time);
    put_unsigned(elements, primary.sequence);
    put_unsigned(elements, primary.lifetime);
    if let Some((offset, total)) = primary.fragment {
        put_unsigned(elements, offset);
        put_unsigned(elements, total);
    }
}

/// The primary block up to its check field.
#[tactic(auto, unfolding(crate::specs::NewBlocks::primary_elements))]
fn elements_of(primary: &NewPrimary<'_>) -> Elements
    requires { has_short_names (viewed_new primary.now) ≡ true }
    ensures { result.items ≡ primary_elements (viewed_new primary.now) primary.now.check }
{
    let mut elements = Elements::new();
    put_front(&mut elements, primary);
    put_eids(&mut elements, primary);
    put_rest(&mut elements, primary);
    elements
}

/// Writes a primary block, with its check field, to the start of the slice. Returns the number of
/// bytes.
///
/// # Errors
///
/// Flag 01 and `fragment` do not agree on whether the bundle is a fragment. Or a dtn name has more
/// than 1,024 bytes, or the slice is too small.
#[tactic(auto, unfolding(crate::specs::NewBlocks::primary_bytes, crate::specs::NewBlocks::primary_is_writable))]
pub fn write_primary(primary: &NewPrimary<'_>, slice: &mut [u8]) -> Result<usize, WriteFault>
    ensures { WritesIntoSlice
        (primary_of (viewed_new primary.now) primary.now.check) slice.old slice.new
        result }
{
    if !is_writable(primary) {
        return Err(WriteFault::OutOfRange);
    }
    let elements = elements_of(primary);
    let field = field_of(primary.check, elements.as_slice());
    write_parts(elements.as_slice(), field.as_slice(), &[], slice)
}
