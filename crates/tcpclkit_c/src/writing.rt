//! Exports that write messages, and parts of bundles, into a slice of the caller.

ghost use Rattle.std.specs.Prelude.{◌≡◌, ℕ, List, [], ◌++◌, Some, None, nat_lt, if◌then◌else◌};
ghost use Rattle.std.specs.Option.{option_and_then};
ghost use Rattle.link_bundle_writer.specs.EndpointIds.{eid_of};
ghost use Rattle.link_bundle_writer.specs.NewBlocks.{check_field};
ghost use Rattle.link_bundle_writer.specs.NewData.{age_bytes, hop_count_bytes};
ghost use Rattle.link_cbor.specs.Crc.{crc};
ghost use Rattle.link_cbor.specs.declared.check.CheckKind.{CheckKind};
ghost use Rattle.link_ffi_numbers.specs.Bundle.{eid_by};
ghost use Rattle.link_ffi_numbers.specs.Status.{status_ok, status_range};
ghost use Rattle.link_ffi_writer.specs.Bundles.{primary_bytes_by, block_bytes_by};
ghost use Rattle.link_ffi_writer.specs.Checks.{kind_by, kind_of, IsKeptCheckAt};
ghost use Rattle.link_ffi_writer.specs.Messages.{HasFields, IsNoMessage, item_by};
ghost use Rattle.link_ffi_writer.specs.Written.{written_shown, ReturnsWritten};
ghost use Rattle.link_wire.specs.Spelling.{contact_bytes};
ghost use Rattle.link_wire.specs.declared.message.Fields.{Fields};
ghost use Rattle.link_wire_writer.specs.MessageBytes.{message_of};

use link_bundle_writer::{write_age, write_block_head, write_eid, write_hop_count, write_primary};
use link_ffi_numbers::block::BlockNumbers;
use link_ffi_numbers::bundle::{Bundle, EidNumbers, eid_by};
use link_ffi_numbers::recording::Message;
use link_ffi_numbers::status::{OK, RANGE};
use link_ffi_writer::{
    KeptCheck, Written, block_head_by, check_by, fields_by, item_numbers, primary_by, written_shown,
};
use link_wire_writer::{write_contact, write_item, write_message};
use link_writing::WriteFault;

/// Turns the result of a writer into numbers, and writes them. Returns `OK`, `TOO_SMALL`, or
/// `RANGE` if a value is out of its range.
fn give(outcome: Result<usize, WriteFault>, written: &mut Written) -> u32
    ensures { (written.new, result) ≡ written_shown outcome }
{
    let (shown, status) = written_shown(outcome);
    *written = shown;
    status
}

/// Writes a contact header. Returns `OK` or `TOO_SMALL`, or `RANGE` if `flags` is above 255.
#[unsafe(no_mangle)]
pub extern "C" fn tcpclkit_raw_write_contact(
    flags: u64,
    bytes: &mut [u8],
    written: &mut Written,
) -> u32
    ensures { ReturnsWritten (if nat_lt flags 256 then Some (contact_bytes flags) else None)
        bytes.old bytes.new written.new result }
{
    let outcome = if flags < 256 {
        write_contact(flags as u8, bytes)
    } else {
        Err(WriteFault::OutOfRange)
    };
    give(outcome, written)
}

/// Writes an extension item. Returns `OK`, `TOO_SMALL` or `RANGE`.
#[unsafe(no_mangle)]
pub extern "C" fn tcpclkit_raw_write_item(
    flags: u64,
    item_type: u64,
    value: &[u8],
    bytes: &mut [u8],
    written: &mut Written,
) -> u32
    ensures { ReturnsWritten (item_by flags item_type value.now) bytes.old bytes.new written.new
        result }
{
    let outcome = match item_numbers(flags, item_type) {
        Some((flags, kind)) => write_item(flags, kind, value, bytes),
        None => Err(WriteFault::OutOfRange),
    };
    give(outcome, written)
}

/// Writes a message, without the data of a segment. Returns `OK`, `TOO_SMALL` or `RANGE`.
#[unsafe(no_mangle)]
pub extern "C" fn tcpclkit_raw_write_message(
    message: &Message,
    node: &[u8],
    items: &[u8],
    bytes: &mut [u8],
    written: &mut Written,
) -> u32
    ensures message { (fields : Fields) → HasFields message.now fields
        → ReturnsWritten (message_of fields node.now items.now) bytes.old bytes.new written.new
        result }
    ensures none { IsNoMessage message.now
        → ReturnsWritten None bytes.old bytes.new written.new result }
{
    let outcome = match fields_by(message) {
        Some(fields) => write_message(fields, node, items, bytes),
        None => Err(WriteFault::OutOfRange),
    };
    give(outcome, written)
}

/// Writes a primary block with its check field. Returns `OK`, `TOO_SMALL` or `RANGE`.
#[unsafe(no_mangle)]
pub extern "C" fn tcpclkit_raw_write_primary(
    bundle: &Bundle,
    check: u64,
    destination: &[u8],
    source: &[u8],
    report_to: &[u8],
    bytes: &mut [u8],
    written: &mut Written,
) -> u32
    ensures { ReturnsWritten (primary_bytes_by bundle.now check (record {
      destination = destination.now;
      source = source.now;
      report_to = report_to.now;
    })) bytes.old bytes.new written.new result }
{
    let primary = match check_by(check) {
        Some(check) => primary_by(bundle, check, destination, source, report_to),
        None => None,
    };
    let outcome = match primary {
        Some(primary) => write_primary(&primary, bytes),
        None => Err(WriteFault::OutOfRange),
    };
    give(outcome, written)
}

/// Writes a canonical block up to its data. Returns `OK`, `TOO_SMALL` or `RANGE`.
#[unsafe(no_mangle)]
pub extern "C" fn tcpclkit_raw_write_block_head(
    block: &BlockNumbers,
    bytes: &mut [u8],
    written: &mut Written,
) -> u32
    ensures { ReturnsWritten (block_bytes_by block.now) bytes.old bytes.new written.new result }
{
    let outcome = match block_head_by(block) {
        Some(head) => write_block_head(&head, bytes),
        None => Err(WriteFault::OutOfRange),
    };
    give(outcome, written)
}

/// Makes a check to which no byte was fed, and returns `OK`. Writes zeros and returns `RANGE` if
/// no check has this kind.
#[unsafe(no_mangle)]
pub extern "C" fn tcpclkit_raw_start_check(check: &mut KeptCheck, kind: u64) -> u32
    ensures started { (known : CheckKind) → kind_by kind ≡ Some known
        → (result ≡ status_ok) × IsKeptCheckAt known check.new [] }
    ensures range { kind_by kind ≡ None
        → (result ≡ status_range) × (check.new ≡ record { kind = 0; state = 0 }) }
{
    match KeptCheck::new(kind) {
        Some(started) => {
            *check = started;
            OK
        }
        None => {
            *check = KeptCheck { kind: 0, state: 0 };
            RANGE
        }
    }
}

/// Feeds the next bytes of a block to its check.
///
/// Returns `OK`, or `RANGE` if a field of `check` is out of its range.
#[unsafe(no_mangle)]
pub extern "C" fn tcpclkit_raw_feed_check(check: &mut KeptCheck, piece: &[u8]) -> u32
    ensures fed { (kind : CheckKind) (before : List ℕ) → IsKeptCheckAt kind check.old before
        → (result ≡ status_ok) × IsKeptCheckAt kind check.new (before ++ piece.now) }
    ensures range { kind_of check.old ≡ None → (result ≡ status_range) × (check.new ≡ check.old) }
{
    if check.feed(piece) { OK } else { RANGE }
}

/// Writes the check value of the bytes that were fed, and returns `OK`. If a field of `check` is
/// out of its range, writes 0 and returns `RANGE`.
#[unsafe(no_mangle)]
pub extern "C" fn tcpclkit_raw_end_check(check: &KeptCheck, value: &mut u64) -> u32
    ensures value { (kind : CheckKind) (bytes : List ℕ) → IsKeptCheckAt kind check.now bytes
        → (result ≡ status_ok) × (value.new ≡ crc kind bytes) }
    ensures range { kind_of check.now ≡ None → (result ≡ status_range) × (value.new ≡ 0) }
{
    match check.value() {
        Some(found) => {
            *value = u64::from(found);
            OK
        }
        None => {
            *value = 0;
            RANGE
        }
    }
}

/// Writes the check field of a block. All bytes of the block before this field were fed to `check`.
///
/// Returns `OK` or `TOO_SMALL`, or `RANGE` if a field of `check` is out of its range.
#[unsafe(no_mangle)]
pub extern "C" fn tcpclkit_raw_write_check(
    check: &KeptCheck,
    bytes: &mut [u8],
    written: &mut Written,
) -> u32
    ensures field { (kind : CheckKind) (block : List ℕ) → IsKeptCheckAt kind check.now block
        → ReturnsWritten (Some (check_field kind block)) bytes.old bytes.new written.new result }
    ensures range { kind_of check.now ≡ None
        → ReturnsWritten None bytes.old bytes.new written.new result }
{
    give(check.write_field(bytes), written)
}

/// Writes an endpoint ID in CBOR. Returns `OK`, `TOO_SMALL` or `RANGE`.
#[unsafe(no_mangle)]
pub extern "C" fn tcpclkit_raw_write_eid(
    eid: &EidNumbers,
    name: &[u8],
    bytes: &mut [u8],
    written: &mut Written,
) -> u32
    ensures { ReturnsWritten (option_and_then eid_of (eid_by eid.now name.now)) bytes.old bytes.new
        written.new result }
{
    let outcome = match eid_by(eid, name) {
        Some(eid) => write_eid(&eid, bytes),
        None => Err(WriteFault::OutOfRange),
    };
    give(outcome, written)
}

/// Writes the data of a bundle age block. Returns `OK` or `TOO_SMALL`.
#[unsafe(no_mangle)]
pub extern "C" fn tcpclkit_raw_write_age(age: u64, bytes: &mut [u8], written: &mut Written) -> u32
    ensures { ReturnsWritten (Some (age_bytes age)) bytes.old bytes.new written.new result }
{
    give(write_age(age, bytes), written)
}

/// Writes the data of a hop count block. Returns `OK` or `TOO_SMALL`.
#[unsafe(no_mangle)]
pub extern "C" fn tcpclkit_raw_write_hop_count(
    limit: u64,
    count: u64,
    bytes: &mut [u8],
    written: &mut Written,
) -> u32
    ensures { ReturnsWritten (Some (hop_count_bytes limit count)) bytes.old bytes.new written.new
        result }
{
    give(write_hop_count(limit, count, bytes), written)
}
