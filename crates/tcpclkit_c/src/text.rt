//! Exports that write the texts of faults, of endpoint IDs, of codes that have a name, and of the
//! data of blocks, and one that reads the text of an endpoint ID.

ghost use Rattle.std.specs.Prelude.{◌≡◌, ◌≤◌, ◌-◌, ◌^◌, ◌++◌, true, false, [], length, take, drop, codes, option_map};
ghost use Rattle.link_bundle_data.specs.BlockData.{data_of};
ghost use Rattle.link_report.specs.Reason.{name_in};
ghost use Rattle.link_report_blocks.specs.Fields.{type_name};
ghost use Rattle.link_report_blocks.specs.Words.{report_names, words_text};
ghost use Rattle.link_ffi_numbers.specs.Bundle.{eid_by};
ghost use Rattle.link_ffi_numbers.specs.Named.{named_by};
ghost use Rattle.link_ffi_numbers.specs.Status.{status_range};
ghost use Rattle.tcpclkit_c.specs.EidText.{ReturnsEidOfText};
ghost use Rattle.tcpclkit_c.specs.Text.{answer_text, named_text, option_text, option_eid_text, reason_text_by, is_data_of, data_words, ReturnsThisText, ReturnsText};

use link_bundle_data::{DataKind, DataScan};
use link_bundle_types::EidForm;
use link_ffi_numbers::block::BlockNumbers;
use link_ffi_numbers::bundle::{EidNumbers, eid_by};
use link_ffi_numbers::named::{Named, named_by};
use link_ffi_numbers::status::{OK, RANGE, TOO_SMALL};
use link_ffi_tools::copy_front;
use link_ffi_writer::{form_shown, reason_of_by};
use link_report::{Line, code_of, order_words, put_eid, put_text, put_wire, reason_name, words_of};
use link_report_blocks::{WORDS_MAX, block_type_name, data_kind, report_reason_name, write_words};
use link_report_eid_parser::{TextFault, read_eid_text};
use link_transfer_answer_judge::AnswerFault;

/// The words of a fault of an answer to a transfer.
#[tactic(auto, unfolding(crate::specs::Text::answer_text))]
fn answer_words(fault: AnswerFault) -> &'static str
    ensures words { result.now ≡ answer_text fault }
    ensures short { length result.now ≤ 40 }
{
    match fault {
        AnswerFault::OtherTransfer => "another transfer",
        AnswerFault::LengthFalls => "acknowledged length falls",
        AnswerFault::LengthNotSent => "acknowledged length was not sent",
        AnswerFault::EndTooEarly => "end without the whole transfer",
    }
}

/// Writes the words of a fault into an empty line. The code of a bundle's fault comes before them.
fn put_named(line: &mut Line, named: Named)
    requires { line.old.items ≡ [] }
    ensures { line.new.items ≡ named_text named }
{
    match named {
        Named::Wire(fault) => put_wire(line, fault),
        Named::Order(fault) => put_text(line, order_words(fault)),
        Named::Answer(fault) => put_text(line, answer_words(fault)),
        Named::Bundle(fault) => {
            put_text(line, code_of(fault));
            put_text(line, " ");
            put_text(line, words_of(fault));
        }
    }
}

/// Copies a text into the slice, as far as there is room, and writes the number of bytes copied to
/// `written`. Returns `OK`, or `TOO_SMALL` if the text does not fit.
fn give(text: &[u8], slice: &mut [u8], written: &mut u64) -> u32
    ensures { ReturnsThisText text.now slice.old slice.new written.new result }
{
    *written = text.len().min(slice.len()) as u64;
    if copy_front(slice, text) {
        OK
    } else {
        TOO_SMALL
    }
}

/// Writes the words of the fault with these numbers. Returns `OK` or `TOO_SMALL`, or `RANGE` if
/// there is no such fault.
#[unsafe(no_mangle)]
pub extern "C" fn tcpclkit_raw_write_fault_text(
    code: u64,
    number: u64,
    text: &mut [u8],
    written: &mut u64,
) -> u32
    ensures text { ReturnsText (option_text (named_by code number)) text.old text.new written.new
        result }
    ensures range { result ≡ status_range → (text.new ≡ text.old) × (written.new ≡ written.old) }
{
    match named_by(code, number) {
        None => RANGE,
        Some(named) => {
            let mut line = Line::new();
            put_named(&mut line, named);
            give(line.as_slice(), text, written)
        }
    }
}

/// Writes the text of the endpoint ID with these numbers and this name. Returns `OK` or
/// `TOO_SMALL`, or `RANGE` if there is no such endpoint ID.
#[unsafe(no_mangle)]
pub extern "C" fn tcpclkit_raw_write_eid_text(
    eid: &EidNumbers,
    name: &[u8],
    text: &mut [u8],
    written: &mut u64,
) -> u32
    ensures text { ReturnsText (option_eid_text (eid_by eid.now name.now)) text.old text.new
        written.new result }
    ensures range { result ≡ status_range → (text.new ≡ text.old) × (written.new ≡ written.old) }
{
    match eid_by(eid, name) {
        None => RANGE,
        Some(view) => {
            let mut line = Line::new();
            put_eid(&mut line, &view);
            give(line.as_slice(), text, written)
        }
    }
}

/// Reads the text of an endpoint ID. Writes the numbers of the endpoint ID to `eid`, and a dtn name
/// to `name`. Returns `OK`.
///
/// If `name` is too small for the name, writes the numbers alone and returns `TOO_SMALL`. If no
/// endpoint ID has this text, writes zeros to `eid` and returns `RANGE`.
#[unsafe(no_mangle)]
pub extern "C" fn tcpclkit_raw_read_eid_text(
    text: &[u8],
    eid: &mut EidNumbers,
    name: &mut [u8],
) -> u32
    ensures { ReturnsEidOfText text.now name.old name.new eid.new result }
{
    match read_eid_text(text, name) {
        Ok((form, size)) => {
            *eid = form_shown(form, size);
            OK
        }
        Err(TextFault::NameTooLong(size)) => {
            *eid = form_shown(EidForm::Dtn, size);
            TOO_SMALL
        }
        Err(TextFault::NoText) => {
            *eid = EidNumbers {
                kind: 0,
                allocator: 0,
                node: 0,
                service: 0,
                name_length: 0,
            };
            RANGE
        }
    }
}

/// Writes the name of a reason of a message of this kind. Returns `OK` or `TOO_SMALL`, or `RANGE`
/// if the kind has no reason, or the reason is above 255.
#[unsafe(no_mangle)]
pub extern "C" fn tcpclkit_raw_write_reason_text(
    kind: u64,
    reason: u64,
    text: &mut [u8],
    written: &mut u64,
) -> u32
    ensures text { ReturnsText (reason_text_by kind reason) text.old text.new written.new result }
    ensures range { result ≡ status_range → (text.new ≡ text.old) × (written.new ≡ written.old) }
{
    let Some(of) = reason_of_by(kind) else {
        return RANGE;
    };
    if reason > 255 {
        return RANGE;
    }
    give(reason_name(of, reason as u8).as_bytes(), text, written)
}

/// Writes the name of a reason of a status report. Returns `OK` or `TOO_SMALL`.
#[unsafe(no_mangle)]
pub extern "C" fn tcpclkit_raw_write_report_reason_text(
    reason: u64,
    text: &mut [u8],
    written: &mut u64,
) -> u32
    ensures { ReturnsThisText (name_in report_names reason) text.old text.new written.new result }
{
    give(report_reason_name(reason).as_bytes(), text, written)
}

/// Writes the name of a block type. Returns `OK` or `TOO_SMALL`.
#[unsafe(no_mangle)]
pub extern "C" fn tcpclkit_raw_write_block_type_text(
    block_type: u64,
    text: &mut [u8],
    written: &mut u64,
) -> u32
    ensures { ReturnsThisText (type_name block_type) text.old text.new written.new result }
{
    give(block_type_name(block_type).as_bytes(), text, written)
}

/// Whether these are a primary block, a canonical block, and all of the canonical block's data. The
/// canonical block may be cut after its data. The data ends at an offset of at most 2^64 - 1.
fn is_data_of(primary: &BlockNumbers, block: &BlockNumbers, content: &[u8]) -> bool
    ensures { result ≡ is_data_of primary.now block.now (length content.now) }
{
    primary.kind == 1
        && block.kind == 2
        && block.data_length == content.len() as u64
        && block.data_offset <= u64::MAX - block.data_length
}

/// Writes the words for a block's data to the start of the page, and returns their length.
///
/// The data begins at offset `start` of the bundle. If `kind` is `None`, the data is not read, and
/// there are no words.
fn write_data(page: &mut [u8], kind: Option<DataKind>, start: u64, content: &[u8]) -> usize
    requires room { WORDS_MAX ≤ length page.old }
    requires start { start ≤ 2 ^ 64 - 1 - length content.now }
    ensures text { take result page.new
        ≡ words_text start (option_map (λ kind. data_of kind content.now) kind) }
    ensures size { length page.new ≡ length page.old }
    ensures within { result ≤ length page.old }
{
    match kind {
        None => 0,
        Some(kind) => {
            let mut scan = DataScan::new(kind);
            scan.take(content);
            write_words(page, 0, start, &Some(scan.view()))
        }
    }
}

/// The words without the space before them.
fn without_space(words: &[u8]) -> &[u8]
    ensures { result.now ≡ drop 1 words.now }
{
    &words[1.min(words.len())..]
}

/// Writes the words for the data of a block, without the space before them. There are no words if
/// the data is not read. Returns `OK` or `TOO_SMALL`, or `RANGE` if [`is_data_of`] is false.
#[unsafe(no_mangle)]
pub extern "C" fn tcpclkit_raw_read_block_data(
    primary: &BlockNumbers,
    block: &BlockNumbers,
    content: &[u8],
    text: &mut [u8],
    written: &mut u64,
) -> u32
    ensures text { is_data_of primary.now block.now (length content.now) ≡ true
        → ReturnsThisText (data_words primary.now block.now content.now) text.old text.new written.new result }
    ensures range { is_data_of primary.now block.now (length content.now) ≡ false
        → (result ≡ status_range) × (text.new ≡ text.old) × (written.new ≡ written.old) }
{
    if !is_data_of(primary, block, content) {
        return RANGE;
    }
    let kind = data_kind(primary.flags, block.block_type);
    let mut page = [0; WORDS_MAX];
    let end = write_data(&mut page, kind, block.data_offset, content);
    give(without_space(&page[..end]), text, written)
}
