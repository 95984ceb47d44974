//! The lines of faults.

ghost use Rattle.std.specs.Prelude.{◌≡◌, ◌+◌, ◌<◌, ◌≤◌, [], ◌++◌, length};
ghost use Rattle.arrayvec.specs.ArrayVec.{array_vec_len};
ghost use Rattle.link_report.specs.Fault.{offset_text, bundle_offset_text, wire_text, place_text, order_text, fault_text};

use crate::bundle_fault::{code_of, words_of};
use crate::put::{LINE_MAX, Line, put_hex2, put_number, put_text};
use link_bundle_types::BundleFault;
use link_transfer::OrderFault;
use link_wire::WireFault;

/// A fault that ends a run, and its position.
///
/// The position is the offset of the message, or the number of the bundle and the offset in it.
#[derive(Clone, Copy, Debug, PartialEq, Eq)]
pub enum Fault {
    /// The stream is no recorded session: the offset, and the fault.
    Wire(u64, WireFault),
    /// A message may not come where it does: its offset, and the fault.
    Order(u64, OrderFault),
    /// The bytes are no bundle: the bundle's number, the offset in it, and the fault.
    Bundle(u64, u64, BundleFault),
    /// The bundle is longer than the receiver's transfer MRU (RFC 9174 section 4.6).
    ///
    /// The numbers are the bundle's number and the offset in it.
    TooLong(u64, u64),
}

/// The text of a fault in the order of messages.
#[tactic(auto, unfolding(crate::specs::Fault::order_text))]
pub fn order_words(fault: OrderFault) -> &'static str
    ensures words { result.now ≡ order_text fault }
    ensures short { length result.now ≤ 40 }
{
    match fault {
        OrderFault::SecondSessInit => "second session initiation",
        OrderFault::SegmentBeforeSessInit => "segment before session initiation",
        OrderFault::NoSuchOpenTransfer => "no such open transfer",
        OrderFault::StartRepeatsOpenId => "start repeats the open transfer",
        OrderFault::StartAfterSessTerm => "start after session termination",
    }
}

/// Appends the text of a fault of the wire to a line, which is empty, or has `tcpclkit: ` and an
/// offset (at most 37 bytes).
#[tactic(auto, unfolding(crate::specs::Fault::wire_text))]
pub fn put_wire(line: &mut Line, fault: WireFault)
    requires { array_vec_len line.old ≤ 37 }
    ensures items { line.new.items ≡ line.old.items ++ wire_text fault }
    ensures len { array_vec_len line.new < LINE_MAX }
{
    match fault {
        WireFault::Truncated => put_text(line, "truncated"),
        WireFault::BadMagic => put_text(line, "not a contact header"),
        WireFault::BadVersion(version) => put_number(
            line,
            "unsupported version ",
            u64::from(version),
        ),
        WireFault::UnknownType(kind) => {
            put_text(line, "unknown message type ");
            put_hex2(line, kind);
        }
        WireFault::NodeIdTooLong(size) => put_number(line, "node id too long: ", u64::from(size)),
        WireFault::ListTooLong(size) => put_number(
            line,
            "extension list too long: ",
            u64::from(size),
        ),
        WireFault::TooManyItems => put_text(line, "too many extension items"),
        WireFault::ItemsOverrun => put_text(line, "extension items overrun their list"),
    }
}

/// Appends `byte `, the offset and `: ` to a line that has the 10 bytes `tcpclkit: `.
#[tactic(auto, unfolding(crate::specs::Fault::offset_text))]
fn put_offset(line: &mut Line, offset: u64)
    requires { array_vec_len line.old ≤ 10 }
    ensures items { line.new.items ≡ line.old.items ++ offset_text offset }
    ensures len { array_vec_len line.new ≤ 37 }
{
    put_number(line, "byte ", offset);
    put_text(line, ": ");
}

/// Appends `bundle `, the bundle's number, ` byte `, the offset in the bundle and `: ` to a line
/// that has the 10 bytes `tcpclkit: `.
#[tactic(auto, unfolding(crate::specs::Fault::bundle_offset_text))]
fn put_bundle_offset(line: &mut Line, number: u64, offset: u64)
    requires { array_vec_len line.old ≤ 10 }
    ensures items { line.new.items ≡ line.old.items ++ bundle_offset_text number offset }
    ensures len { array_vec_len line.new ≤ 65 }
{
    put_number(line, "bundle ", number);
    put_number(line, " byte ", offset);
    put_text(line, ": ");
}

/// Appends the position and the text of a fault to a line that has the 10 bytes `tcpclkit: `.
///
/// The code of a bundle's fault comes before the text. `P1` is the code of a bundle that is too
/// long.
#[tactic(auto, unfolding(crate::specs::Fault::place_text))]
fn put_place(line: &mut Line, fault: &Fault)
    requires { array_vec_len line.old ≤ 10 }
    ensures items { line.new.items ≡ line.old.items ++ place_text fault.now }
    ensures len { array_vec_len line.new < LINE_MAX }
{
    match *fault {
        Fault::Wire(offset, fault) => {
            put_offset(line, offset);
            put_wire(line, fault);
        }
        Fault::Order(offset, fault) => {
            put_offset(line, offset);
            put_text(line, order_words(fault));
        }
        Fault::Bundle(number, offset, fault) => {
            put_bundle_offset(line, number, offset);
            put_text(line, code_of(fault));
            put_text(line, " ");
            put_text(line, words_of(fault));
        }
        Fault::TooLong(number, offset) => {
            put_bundle_offset(line, number, offset);
            put_text(line, "P1 longer than the peer's transfer limit");
        }
    }
}

/// Writes the line of a fault into an empty line.
#[tactic(auto, unfolding(crate::specs::Fault::fault_text))]
pub fn fault_line(line: &mut Line, fault: &Fault)
    requires { line.old.items ≡ [] }
    ensures { line.new.items ≡ fault_text fault.now }
{
    put_text(line, "tcpclkit: ");
    put_place(line, fault);
    put_text(line, "\n");
}
