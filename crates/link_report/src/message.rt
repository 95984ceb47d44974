//! The lines of the contact header and of the messages (RFC 9174 sections 4.2 to 6.1).

ghost use Rattle.std.specs.Prelude.{◌≡◌, ◌+◌, ◌*◌, ◌≤◌, [], ◌++◌, length, take, codes};
ghost use Rattle.link_wire.specs.MessageBuffer.{message_of, message_with};
ghost use Rattle.link_report.specs.Reason.{name_in, refuse_names, term_names, reject_names};
ghost use Rattle.link_report.specs.Text.{hex2, number_text};
ghost use Rattle.link_report.specs.Message.{flags_text, reason_text, item_text, items_text, parameters_text, start_items_text, segment_text, body_text, contact_text, message_text};
ghost use Rattle.link_report.specs.Written.{PutsText};

use crate::kept_digits::KeptDigits;
use crate::page::{write_bytes, write_escaped, write_hex2, write_hex4, write_number, write_text};
use crate::put::{Line, put_bytes, put_hex2, put_text};
use crate::reason::{refuse_name, reject_name, term_name};
use link_wire::{
    Contact, Fields, Item, MAX_ITEMS, MAX_NODE_ID, Message, MessageBuffer, START, TEXT_MAX, Text,
};

/// The greatest length of a list's text in bytes: 27, plus 34 for each item.
const ITEMS_TEXT_MAX: usize = 27 + 34 * MAX_ITEMS;

/// A bound on the line of a message with a reason, between its offset and its newline.
///
/// The longest of these lines is a little shorter.
const REASON_MAX: usize = 80;

/// The greatest length in bytes of a line between its offset and its newline.
///
/// A SESS_INIT can have this length: 114 bytes, the node ID with each byte escaped, and the list.
const BODY_MAX: usize = 114 + 4 * MAX_NODE_ID + ITEMS_TEXT_MAX;

/// Writes ` reason=`, the code of a reason, `/` and its name: 11 bytes and the name. Returns the
/// index after them.
#[tactic(auto, unfolding(crate::specs::Message::reason_text))]
fn write_reason(page: &mut [u8], at: usize, reason: u8, name: &str) -> usize
    requires { at + 11 + length name.now ≤ length page.old }
    ensures text { take result page.new ≡ take at page.old ++ reason_text reason name.now }
    ensures end { result ≡ at + 11 + length name.now }
    ensures size { length page.new ≡ length page.old }
{
    let at = write_bytes(page, at, *b" reason=");
    let at = write_hex2(page, at, reason);
    let at = write_bytes(page, at, *b"/");
    write_text(page, at, name)
}

/// Writes ` item=`, and the flags, the type and the length of an extension item, with `:` between
/// them.
///
/// It takes 14 bytes and a number of at most 20 digits.
#[tactic(auto, unfolding(crate::specs::Message::item_text))]
fn write_item(page: &mut [u8], at: usize, item: &Item) -> usize
    requires { at + 34 ≤ length page.old }
    ensures { PutsText page.old page.new at result 34 (item_text item.now) }
{
    let at = write_bytes(page, at, *b" item=");
    let at = write_hex2(page, at, item.flags);
    let at = write_bytes(page, at, *b":");
    let at = write_hex4(page, at, item.kind);
    write_number(page, at, *b":", u64::from(item.length))
}

/// Writes ` items=`, the number of items, and each item. Returns the index after them.
#[cold]
#[inline(never)]
#[tactic(auto, unfolding(crate::specs::Message::items_text))]
fn write_items(page: &mut [u8], at: usize, items: &[Item]) -> usize
    requires room { at + ITEMS_TEXT_MAX ≤ length page.old }
    requires items { length items.now ≤ MAX_ITEMS }
    ensures { PutsText page.old page.new at result ITEMS_TEXT_MAX (items_text items.now) }
{
    let mut end = write_number(page, at, *b" items=", items.len() as u64);
    for item in items {
        end = write_item(page, end, item);
    }
    end
}

/// Writes the part of a SESS_INIT's line between its offset and its newline.
#[tactic(auto, unfolding(crate::specs::Message::parameters_text))]
#[cold]
#[inline(never)]
fn write_session(
    page: &mut [u8],
    at: usize,
    keepalive: u16,
    segment_mru: u64,
    transfer_mru: u64,
    node: &[u8],
    items: &[Item],
) -> usize
    requires room { at + BODY_MAX ≤ length page.old }
    requires node { length node.now ≤ MAX_NODE_ID }
    requires items { length items.now ≤ MAX_ITEMS }
    ensures text { take result page.new ≡ take at page.old
        ++ parameters_text keepalive segment_mru transfer_mru node.now ++ items_text items.now }
    ensures fits { result ≤ at + BODY_MAX }
    ensures size { length page.new ≡ length page.old }
{
    let at = write_number(page, at, *b" sess-init keepalive=", u64::from(keepalive));
    let at = write_number(page, at, *b" segment-mru=", segment_mru);
    let at = write_number(page, at, *b" transfer-mru=", transfer_mru);
    let at = write_bytes(page, at, *b" node=");
    let at = write_escaped(page, at, node);
    write_items(page, at, items)
}

/// Writes the items of a segment with START, and nothing for other segments. Returns the index
/// after them.
///
/// Most transfers begin without items, so this case is written without a call.
#[tactic(auto, using(crate::proofs::Segments::no_items), unfolding(crate::specs::Message::start_items_text))]
#[inline(always)]
fn write_start_items(page: &mut [u8], at: usize, flags: u8, items: &[Item]) -> usize
    requires room { at + ITEMS_TEXT_MAX ≤ length page.old }
    requires items { length items.now ≤ MAX_ITEMS }
    ensures { PutsText page.old page.new at result ITEMS_TEXT_MAX
        (start_items_text flags items.now) }
{
    if flags & START != START {
        return at;
    }
    if items.is_empty() {
        return write_bytes(page, at, *b" items=0");
    }
    write_items(page, at, items)
}

/// Writes the part of a segment's line between its offset and its newline.
#[tactic(auto, unfolding(crate::specs::Message::segment_text, crate::specs::Message::flags_text))]
#[inline(always)]
fn write_segment(page: &mut [u8], at: usize, flags: u8, id: u64, items: &[Item], size: u64) -> usize
    requires room { at + BODY_MAX ≤ length page.old }
    requires items { length items.now ≤ MAX_ITEMS }
    ensures { PutsText page.old page.new at result BODY_MAX (segment_text flags id items.now size) }
{
    let at = write_bytes(page, at, *b" xfer-segment flags=");
    let at = write_hex2(page, at, flags);
    let at = write_number(page, at, *b" id=", id);
    let at = write_start_items(page, at, flags, items);
    write_number(page, at, *b" length=", size)
}

/// Writes the part of an XFER_REFUSE's line between its offset and its newline.
#[tactic(auto, unfolding(crate::specs::Message::reason_text))]
#[inline(never)]
fn write_refuse(page: &mut [u8], at: usize, reason: u8, id: u64) -> usize
    requires { at + REASON_MAX ≤ length page.old }
    ensures text { take result page.new ≡ take at page.old
        ++ codes " xfer-refuse" ++ reason_text reason (name_in refuse_names reason)
        ++ number_text (codes " id=") id }
    ensures fits { result ≤ at + REASON_MAX }
    ensures size { length page.new ≡ length page.old }
{
    let at = write_bytes(page, at, *b" xfer-refuse");
    let at = write_reason(page, at, reason, refuse_name(reason));
    write_number(page, at, *b" id=", id)
}

/// Writes the part of a SESS_TERM's line between its offset and its newline.
#[tactic(auto, unfolding(crate::specs::Message::flags_text))]
#[cold]
#[inline(never)]
fn write_sess_term(page: &mut [u8], at: usize, flags: u8, reason: u8) -> usize
    requires { at + REASON_MAX ≤ length page.old }
    ensures { PutsText page.old page.new at result REASON_MAX
        (codes " sess-term" ++ flags_text flags ++ reason_text reason (name_in term_names reason)) }
{
    let at = write_bytes(page, at, *b" sess-term flags=");
    let at = write_hex2(page, at, flags);
    write_reason(page, at, reason, term_name(reason))
}

/// Writes the part of a MSG_REJECT's line between its offset and its newline.
#[cold]
#[inline(never)]
fn write_msg_reject(page: &mut [u8], at: usize, reason: u8, header: u8) -> usize
    requires { at + REASON_MAX ≤ length page.old }
    ensures text { take result page.new ≡ take at page.old
        ++ codes " msg-reject" ++ reason_text reason (name_in reject_names reason)
        ++ codes " header=" ++ hex2 header }
    ensures fits { result ≤ at + REASON_MAX }
    ensures size { length page.new ≡ length page.old }
{
    let at = write_bytes(page, at, *b" msg-reject");
    let at = write_reason(page, at, reason, reject_name(reason));
    let at = write_bytes(page, at, *b" header=");
    write_hex2(page, at, header)
}

/// Writes the part of a message's line between its offset and its newline.
///
/// Only a SESS_INIT has a node ID, and only a SESS_INIT and a segment have items.
#[tactic(auto, using(crate::proofs::Segments::text_of_segment), unfolding(crate::specs::Message::body_text, crate::specs::Message::flags_text))]
#[inline(always)]
fn write_body(page: &mut [u8], at: usize, fields: &Fields, node: &[u8], items: &[Item]) -> usize
    requires room { at + BODY_MAX ≤ length page.old }
    requires node { length node.now ≤ MAX_NODE_ID }
    requires items { length items.now ≤ MAX_ITEMS }
    ensures { PutsText page.old page.new at result BODY_MAX (body_text (message_with fields.now
        (record { items = node.now }) (record { items = items.now }))) }
{
    match *fields {
        Fields::SessInit {
            keepalive,
            segment_mru,
            transfer_mru,
        } => write_session(page, at, keepalive, segment_mru, transfer_mru, node, items),
        Fields::Segment { flags, id, length } => write_segment(page, at, flags, id, items, length),
        Fields::Ack { flags, id, length } => {
            let at = write_bytes(page, at, *b" xfer-ack flags=");
            let at = write_hex2(page, at, flags);
            let at = write_number(page, at, *b" id=", id);
            write_number(page, at, *b" length=", length)
        }
        Fields::Refuse { reason, id } => write_refuse(page, at, reason, id),
        Fields::Keepalive => write_bytes(page, at, *b" keepalive"),
        Fields::SessTerm { flags, reason } => write_sess_term(page, at, flags, reason),
        Fields::MsgReject { reason, header } => write_msg_reject(page, at, reason, header),
    }
}

/// Writes the line of a message whose type byte is at `offset`.
#[tactic(auto, unfolding(crate::specs::Message::message_text))]
#[inline(always)]
fn write_message(
    page: &mut [u8],
    at: usize,
    kept: &KeptDigits,
    offset: u64,
    fields: &Fields,
    node: &[u8],
    items: &[Item],
) -> usize
    requires room { at + TEXT_MAX ≤ length page.old }
    requires node { length node.now ≤ MAX_NODE_ID }
    requires items { length items.now ≤ MAX_ITEMS }
    ensures { PutsText page.old page.new at result TEXT_MAX (message_text offset (message_with
        fields.now (record { items = node.now }) (record { items = items.now }))) }
{
    let at = kept.write(page, at, offset);
    let at = write_body(page, at, fields, node, items);
    write_bytes(page, at, *b"\n")
}

/// The line of the message in a buffer.
#[derive(Drop)]
pub struct MessageText<'a> {
    /// The offset of the message's type byte.
    pub offset: u64,
    /// The message.
    pub message: &'a MessageBuffer,
    /// Kept digits of the offset. They save time, and do not change the text.
    pub kept: &'a KeptDigits,
}

impl<'a> Text for MessageText<'a> {
    ghost text = { λ line. message_text line.offset (message_of line.message.now) };

    #[inline(always)]
    fn put(&self, page: &mut [u8], at: usize) -> usize {
        let message = self.message;
        write_message(
            page,
            at,
            self.kept,
            self.offset,
            &message.fields,
            &message.node,
            &message.items,
        )
    }
}

/// Writes the line of the contact header into an empty line.
#[tactic(auto, unfolding(crate::specs::Message::contact_text, crate::specs::Message::flags_text))]
pub fn contact_line(line: &mut Line, contact: &Contact)
    requires { line.old.items ≡ [] }
    ensures { line.new.items ≡ contact_text contact.now }
{
    put_text(line, "0 contact version=4");
    put_text(line, " flags=");
    put_hex2(line, contact.flags);
    put_text(line, "\n");
}

/// Writes the line of a message with these fields into an empty line.
///
/// The type byte of the message is at `offset`.
fn put_fields(line: &mut Line, offset: u64, fields: &Fields, node: &[u8], items: &[Item])
    requires empty { line.old.items ≡ [] }
    requires node { length node.now ≤ MAX_NODE_ID }
    requires items { length items.now ≤ MAX_ITEMS }
    ensures { line.new.items ≡ message_text offset
        (message_with fields.now (record { items = node.now }) (record { items = items.now })) }
{
    let mut page = [0; TEXT_MAX];
    let end = write_message(
        &mut page,
        0,
        &KeptDigits::new(),
        offset,
        fields,
        node,
        items,
    );
    put_bytes(line, &page[..end]);
}

/// Writes the line of a message without node ID and items into an empty line.
fn put_plain(line: &mut Line, offset: u64, fields: Fields)
    requires { line.old.items ≡ [] }
    ensures { line.new.items ≡ message_text offset
        (message_with fields (record { items = [] }) (record { items = [] })) }
{
    put_fields(line, offset, &fields, &[], &[]);
}

/// Writes the line of the message whose type byte is at `offset` into an empty line.
#[tactic(auto, using(crate::proofs::Segments::text_of_segment), unfolding(crate::specs::Message::message_text, crate::specs::Message::body_text))]
pub fn message_line(line: &mut Line, offset: u64, message: &Message)
    requires { line.old.items ≡ [] }
    ensures { line.new.items ≡ message_text offset message.now }
{
    match *message {
        Message::SessInit {
            keepalive,
            segment_mru,
            transfer_mru,
            ref node,
            ref items,
        } => {
            let fields = Fields::SessInit {
                keepalive,
                segment_mru,
                transfer_mru,
            };
            put_fields(line, offset, &fields, node, items);
        }
        Message::Segment(ref head) => {
            let fields = Fields::Segment {
                flags: head.flags,
                id: head.id,
                length: head.length,
            };
            put_fields(line, offset, &fields, &[], &head.items);
        }
        Message::Ack { flags, id, length } => {
            put_plain(line, offset, Fields::Ack { flags, id, length });
        }
        Message::Refuse { reason, id } => put_plain(line, offset, Fields::Refuse { reason, id }),
        Message::Keepalive => put_plain(line, offset, Fields::Keepalive),
        Message::SessTerm { flags, reason } => {
            put_plain(line, offset, Fields::SessTerm { flags, reason });
        }
        Message::MsgReject { reason, header } => {
            put_plain(line, offset, Fields::MsgReject { reason, header });
        }
    }
}
