//! The text of an endpoint ID.

ghost use Rattle.std.specs.Prelude.{◌≡◌, ◌≢◌, ℕ, ◌^◌, ◌<◌, ◌==◌, List, [], ◌∷◌, ◌++◌, codes, decimal, IfSome, IfNone};
ghost use Rattle.std.specs.Bool.{OnTrue, OnFalse};
ghost use Rattle.std.specs.List.{position};
ghost use Rattle.link_bundle_types.specs.KeptEid.{formed_eid};
ghost use Rattle.link_report_eid_parser.specs.TextOf.{IsTextOf, IsNoText, ReadsText};

use crate::decimal::read_decimal;
use crate::name::read_name;
use crate::prefix::after;
use link_bundle_types::EidForm;
use thiserror::Error;

/// Why no endpoint ID was read.
#[derive(Clone, Copy, Debug, PartialEq, Eq, Error)]
pub enum TextFault {
    /// No endpoint ID has this text.
    #[error("no endpoint id")]
    NoText,
    /// The slice is too small for the dtn name, which has this many bytes.
    #[error("the slice is too small: {0} bytes would do")]
    NameTooLong(usize),
}

/// The index of the first dot.
fn first_dot(text: &[u8]) -> Option<usize>
    ensures { result ≡ position (λ byte. byte == 46) text.now }
{
    text.iter().position(|byte| *byte == b'.')
}

/// The number before the first dot, and the text after the dot. `None` without a dot, or if the
/// text before the dot is no number below 2^64.
fn read_pair(text: &[u8]) -> Option<(u64, &[u8])>
    ensures some { IfSome result (λ read. decimal read.0 ++ 46 ∷ read.1.now ≡ text.now) }
    ensures fits { IfSome result (λ read. read.0 < 2 ^ 64) }
    ensures none { IfNone result ((number : ℕ) (rest : List ℕ) → number < 2 ^ 64
        → decimal number ++ 46 ∷ rest ≢ text.now) }
{
    let dot = first_dot(text)?;
    let first = read_decimal(&text[..dot])?;
    Some((first, &text[dot + 1..]))
}

/// The form of an ipn endpoint ID, by the text after `ipn:`. `None` if no endpoint ID has the text.
fn read_ipn(text: &[u8]) -> Option<EidForm>
    ensures some { IfSome result (λ form. IsTextOf (formed_eid form []) (codes "ipn:" ++ text.now)) }
    ensures none { IfNone result (IsNoText (codes "ipn:" ++ text.now)) }
{
    let (first, rest) = read_pair(text)?;
    if let Some(service) = read_decimal(rest) {
        return Some(EidForm::Ipn(first, service));
    }
    let (node, rest) = read_pair(rest)?;
    let service = read_decimal(rest)?;
    Some(EidForm::Ipn3(first, node, service))
}

/// Whether the text after `dtn:` is that of the null endpoint.
fn is_none(text: &[u8]) -> bool
    ensures yes { OnTrue result (text.now ≡ codes "none") }
    ensures no { OnFalse result (text.now ≢ codes "none") }
{
    text == b"none".as_slice()
}

/// Reads a dtn endpoint ID, by the text after `dtn:`.
fn read_dtn(text: &[u8], name: &mut [u8]) -> Result<(EidForm, usize), TextFault>
    ensures { ReadsText (codes "dtn:" ++ text.now) name.old name.new result }
{
    if is_none(text) {
        return Ok((EidForm::DtnNone, 0));
    }
    let Some(read) = read_name(text) else {
        return Err(TextFault::NoText);
    };
    let size = read.len();
    if size > name.len() {
        return Err(TextFault::NameTooLong(size));
    }
    name[..size].copy_from_slice(&read);
    Ok((EidForm::Dtn, size))
}

/// Reads the text of an endpoint ID, and returns its form.
///
/// A dtn name is written to the start of the slice, without its escapes, and its length is returned
/// too. The length is 0 for the other forms.
///
/// # Errors
///
/// No endpoint ID has this text, so [`put_eid`](link_report::put_eid) never appends it. Or the dtn
/// name is longer than the slice. In both cases the slice stays as it was. A slice of 1,024 bytes
/// has room for every name.
pub fn read_eid_text(text: &[u8], name: &mut [u8]) -> Result<(EidForm, usize), TextFault>
    ensures { ReadsText text.now name.old name.new result }
{
    if let Some(rest) = after(b"dtn:", text) {
        return read_dtn(rest, name);
    }
    let Some(rest) = after(b"ipn:", text) else {
        return Err(TextFault::NoText);
    };
    match read_ipn(rest) {
        Some(form) => Ok((form, 0)),
        None => Err(TextFault::NoText),
    }
}
