//! Worked streams, and the texts and the status of listing them.

use tests_common::rows::{TRANSFER, TRANSFER_LINES};
use tests_common::stream::{
    BACK, CONTACT, CONTACT_LINE, FIRST_SEGMENT, FRONT, LAST_SEGMENT, LENGTH_17, LENGTH_34,
    NO_ITEMS, NODE, PARAMETERS, SESSION_LINE, SESSION_WORDS, WHOLE_TRANSFER,
};

/// A recorded stream and its listing.
pub struct Row {
    pub name: &'static str,
    pub stream: &'static [&'static [u8]],
    pub output: &'static [&'static [u8]],
    pub report: &'static [u8],
    pub status: u8,
}

/// An extension item without a value.
const ITEM: &[u8] = b"\x00\xab\xcd\x00\x00";

/// 16 of these items.
const ITEMS_16: &[u8] =
    b"\x00\xab\xcd\x00\x00\x00\xab\xcd\x00\x00\x00\xab\xcd\x00\x00\x00\xab\xcd\x00\x00\
    \x00\xab\xcd\x00\x00\x00\xab\xcd\x00\x00\x00\xab\xcd\x00\x00\x00\xab\xcd\x00\x00\
    \x00\xab\xcd\x00\x00\x00\xab\xcd\x00\x00\x00\xab\xcd\x00\x00\x00\xab\xcd\x00\x00\
    \x00\xab\xcd\x00\x00\x00\xab\xcd\x00\x00\x00\xab\xcd\x00\x00\x00\xab\xcd\x00\x00";

/// The words of a line for the item.
const ITEM_WORDS: &[u8] = b" item=00:abcd:0";

/// The words of a line for 16 of the items.
const WORDS_16: &[u8] = b" item=00:abcd:0 item=00:abcd:0 item=00:abcd:0 item=00:abcd:0\
    \x20item=00:abcd:0 item=00:abcd:0 item=00:abcd:0 item=00:abcd:0\
    \x20item=00:abcd:0 item=00:abcd:0 item=00:abcd:0 item=00:abcd:0\
    \x20item=00:abcd:0 item=00:abcd:0 item=00:abcd:0 item=00:abcd:0";

/// An XFER_ACK, an XFER_REFUSE, a KEEPALIVE, a SESS_TERM, a MSG_REJECT and another SESS_TERM.
const SHORT_MESSAGES: &[u8] =
    b"\x02\x01\x00\x00\x00\x00\x00\x00\x00\x00\x00\x00\x00\x00\x00\x00\x00\x22\
    \x03\x02\x00\x00\x00\x00\x00\x00\x00\x00\
    \x04\
    \x05\x01\x03\
    \x06\x01\x16\
    \x05\x00\x7f";

/// A stream of every kind of message but segments, without extension items.
pub const MESSAGES: &[&[u8]] = &[CONTACT, PARAMETERS, NODE, NO_ITEMS, SHORT_MESSAGES];

/// The lines of `MESSAGES`: one for the contact header, and one for each message.
pub const MESSAGE_LINES: &[&[u8]] = &[
    CONTACT_LINE,
    SESSION_LINE,
    b"38 xfer-ack flags=01 id=0 length=34\n",
    b"56 xfer-refuse reason=02/no-resources id=0\n",
    b"66 keepalive\n",
    b"67 sess-term flags=01 reason=03/busy\n",
    b"70 msg-reject reason=01/message-type-unknown header=16\n",
    b"73 sess-term flags=00 reason=7f/?\n",
];

/// Streams without segments.
pub static SESSIONS: [Row; 8] = [
    Row {
        name: "every message but segments",
        stream: MESSAGES,
        output: MESSAGE_LINES,
        report: b"",
        status: 0,
    },
    Row {
        name: "a contact header",
        stream: &[CONTACT],
        output: &[CONTACT_LINE],
        report: b"",
        status: 0,
    },
    Row {
        name: "two session items",
        stream: &[
            CONTACT,
            PARAMETERS,
            NODE,
            b"\x00\x00\x00\x0b\x01\x124\x00\x01\xaa\x00\xab\xcd\x00\x00",
        ],
        output: &[
            CONTACT_LINE,
            SESSION_WORDS,
            b" node=ipn:1.0 items=2 item=01:1234:1 item=00:abcd:0\n",
        ],
        report: b"",
        status: 0,
    },
    Row {
        name: "17 items",
        stream: &[
            CONTACT,
            PARAMETERS,
            NODE,
            b"\x00\x00\x00\x55",
            ITEMS_16,
            ITEM,
        ],
        output: &[
            CONTACT_LINE,
            SESSION_WORDS,
            b" node=ipn:1.0 items=17",
            WORDS_16,
            ITEM_WORDS,
            b"\n",
        ],
        report: b"",
        status: 0,
    },
    Row {
        name: "64 items",
        stream: &[
            CONTACT,
            PARAMETERS,
            NODE,
            b"\x00\x00\x01\x40",
            ITEMS_16,
            ITEMS_16,
            ITEMS_16,
            ITEMS_16,
        ],
        output: &[
            CONTACT_LINE,
            SESSION_WORDS,
            b" node=ipn:1.0 items=64",
            WORDS_16,
            WORDS_16,
            WORDS_16,
            WORDS_16,
            b"\n",
        ],
        report: b"",
        status: 0,
    },
    Row {
        name: "a node ID of bytes that are escaped",
        stream: &[CONTACT, PARAMETERS, b"\x00\x03 \x5c\xff", NO_ITEMS],
        output: &[
            CONTACT_LINE,
            SESSION_WORDS,
            b" node=\\x20\\x5c\\xff items=0\n",
        ],
        report: b"",
        status: 0,
    },
    Row {
        name: "a second SESS_INIT",
        stream: &[
            CONTACT, PARAMETERS, NODE, NO_ITEMS, PARAMETERS, NODE, NO_ITEMS,
        ],
        output: &[
            CONTACT_LINE,
            SESSION_LINE,
            b"38 sess-init keepalive=60 segment-mru=65536 transfer-mru=1048576",
            b" node=ipn:1.0 items=0\n",
        ],
        report: b"",
        status: 0,
    },
    Row {
        name: "a keepalive and an end",
        stream: &[
            CONTACT,
            PARAMETERS,
            NODE,
            NO_ITEMS,
            b"\x04",
            b"\x05\x01\x03",
        ],
        output: &[
            CONTACT_LINE,
            SESSION_LINE,
            b"38 keepalive\n",
            b"39 sess-term flags=01 reason=03/busy\n",
        ],
        report: b"",
        status: 0,
    },
];

/// Streams with segments.
pub static TRANSFERS: [Row; 5] = [
    Row {
        name: "one transfer",
        stream: TRANSFER,
        output: TRANSFER_LINES,
        report: b"",
        status: 0,
    },
    Row {
        name: "an announced length that differs",
        stream: &[
            CONTACT,
            PARAMETERS,
            NODE,
            NO_ITEMS,
            FIRST_SEGMENT,
            b"\x00\x00\x00\x0d\x00\x00\x01\x00\x08\x00\x00\x00\x00\x00\x00\x00#",
            LENGTH_17,
            FRONT,
            LAST_SEGMENT,
            LENGTH_17,
            BACK,
        ],
        output: &[
            CONTACT_LINE,
            SESSION_LINE,
            b"38 xfer-segment flags=02 id=0 items=1 item=00:0001:8 length=17\n",
            b"90 xfer-segment flags=01 id=0 length=17\n",
        ],
        report: b"",
        status: 0,
    },
    Row {
        name: "a transfer after SESS_TERM",
        stream: &[
            CONTACT,
            PARAMETERS,
            NODE,
            NO_ITEMS,
            FIRST_SEGMENT,
            NO_ITEMS,
            LENGTH_17,
            FRONT,
            b"\x05\x00\x00",
            LAST_SEGMENT,
            LENGTH_17,
            BACK,
            b"\x01\x03\x00\x00\x00\x00\x00\x00\x00\x01",
            NO_ITEMS,
            LENGTH_34,
            FRONT,
            BACK,
        ],
        output: &[
            CONTACT_LINE,
            SESSION_LINE,
            b"38 xfer-segment flags=02 id=0 items=0 length=17\n",
            b"77 sess-term flags=00 reason=00/unknown\n",
            b"80 xfer-segment flags=01 id=0 length=17\n",
            b"115 xfer-segment flags=03 id=1 items=0 length=34\n",
        ],
        report: b"",
        status: 0,
    },
    Row {
        name: "a transfer before SESS_INIT",
        stream: &[CONTACT, WHOLE_TRANSFER, LENGTH_34, FRONT, BACK],
        output: &[
            CONTACT_LINE,
            b"6 xfer-segment flags=03 id=0 items=0 length=34\n",
        ],
        report: b"",
        status: 0,
    },
    // The stream of examples/every-message.tcpcl.
    Row {
        name: "every kind of message, with extension items",
        stream: &[
            CONTACT,
            PARAMETERS,
            NODE,
            b"\x00\x00\x00\x0b\x01\x12\x34\x00\x01\xaa\x00\xab\xcd\x00\x00",
            FIRST_SEGMENT,
            b"\x00\x00\x00\x0d\x00\x00\x01\x00\x08\x00\x00\x00\x00\x00\x00\x00\x22",
            LENGTH_17,
            FRONT,
            LAST_SEGMENT,
            LENGTH_17,
            BACK,
            SHORT_MESSAGES,
        ],
        output: &[
            CONTACT_LINE,
            SESSION_WORDS,
            b" node=ipn:1.0 items=2 item=01:1234:1 item=00:abcd:0\n",
            b"49 xfer-segment flags=02 id=0 items=1 item=00:0001:8 length=17\n",
            b"101 xfer-segment flags=01 id=0 length=17\n",
            b"136 xfer-ack flags=01 id=0 length=34\n",
            b"154 xfer-refuse reason=02/no-resources id=0\n",
            b"164 keepalive\n",
            b"165 sess-term flags=01 reason=03/busy\n",
            b"168 msg-reject reason=01/message-type-unknown header=16\n",
            b"171 sess-term flags=00 reason=7f/?\n",
        ],
        report: b"",
        status: 0,
    },
];

/// Streams with a fault.
pub static FAULTS: [Row; 16] = [
    Row {
        name: "nothing",
        stream: &[],
        output: &[],
        report: b"tcpclkit: byte 0: truncated\n",
        status: 3,
    },
    Row {
        name: "version 3",
        stream: &[b"dtn!\x03\x00"],
        output: &[],
        report: b"tcpclkit: byte 0: unsupported version 3\n",
        status: 3,
    },
    Row {
        name: "magic before version",
        stream: &[b"dtn \x03\x00"],
        output: &[],
        report: b"tcpclkit: byte 0: not a contact header\n",
        status: 3,
    },
    Row {
        name: "five bytes",
        stream: &[b"\x00\x00\x00\x00\x00"],
        output: &[],
        report: b"tcpclkit: byte 0: truncated\n",
        status: 3,
    },
    Row {
        name: "an unknown type",
        stream: &[CONTACT, PARAMETERS, NODE, NO_ITEMS, b"\x16"],
        output: &[CONTACT_LINE, SESSION_LINE],
        report: b"tcpclkit: byte 38: unknown message type 16\n",
        status: 3,
    },
    Row {
        name: "the longest segment cut",
        stream: &[
            CONTACT,
            PARAMETERS,
            NODE,
            NO_ITEMS,
            WHOLE_TRANSFER,
            b"\xff\xff\xff\xff\xff\xff\xff\xff",
            b"\x9f\x88\x07",
        ],
        output: &[CONTACT_LINE, SESSION_LINE],
        report: b"tcpclkit: byte 38: truncated\n",
        status: 3,
    },
    Row {
        name: "an item longer than its list",
        stream: &[
            CONTACT,
            PARAMETERS,
            NODE,
            b"\x00\x00\x00\x0b\x01\x124\x00\x01\xaa\x00\xab\xcd\x00\x01",
        ],
        output: &[CONTACT_LINE],
        report: b"tcpclkit: byte 6: extension items overrun their list\n",
        status: 3,
    },
    Row {
        name: "a list over its limit, and nothing after it",
        stream: &[CONTACT, PARAMETERS, NODE, b"\x00\x01\x00\x01"],
        output: &[CONTACT_LINE],
        report: b"tcpclkit: byte 6: extension list too long: 65537\n",
        status: 3,
    },
    Row {
        name: "a list of 4,097 bytes, and nothing after it",
        stream: &[CONTACT, PARAMETERS, NODE, b"\x00\x00\x10\x01"],
        output: &[CONTACT_LINE],
        report: b"tcpclkit: byte 6: truncated\n",
        status: 3,
    },
    Row {
        name: "the longest list length",
        stream: &[CONTACT, PARAMETERS, NODE, b"\xff\xff\xff\xff"],
        output: &[CONTACT_LINE],
        report: b"tcpclkit: byte 6: extension list too long: 4294967295\n",
        status: 3,
    },
    Row {
        name: "no room for an item's head, and nothing there",
        stream: &[CONTACT, PARAMETERS, NODE, b"\x00\x00\x00\x04"],
        output: &[CONTACT_LINE],
        report: b"tcpclkit: byte 6: extension items overrun their list\n",
        status: 3,
    },
    Row {
        name: "an item's head cut",
        stream: &[
            CONTACT,
            PARAMETERS,
            NODE,
            b"\x00\x00\x00\x05",
            b"\x00\xab\xcd\x00",
        ],
        output: &[CONTACT_LINE],
        report: b"tcpclkit: byte 6: truncated\n",
        status: 3,
    },
    Row {
        name: "65 items",
        stream: &[
            CONTACT,
            PARAMETERS,
            NODE,
            b"\x00\x00\x01\x45",
            ITEMS_16,
            ITEMS_16,
            ITEMS_16,
            ITEMS_16,
            ITEM,
        ],
        output: &[CONTACT_LINE],
        report: b"tcpclkit: byte 6: too many extension items\n",
        status: 3,
    },
    Row {
        name: "an item a byte longer, and nothing after it",
        stream: &[
            CONTACT,
            PARAMETERS,
            NODE,
            b"\x00\x00\x10\x00",
            b"\x00\xab\xcd\x0f\xfc",
        ],
        output: &[CONTACT_LINE],
        report: b"tcpclkit: byte 6: extension items overrun their list\n",
        status: 3,
    },
    Row {
        name: "a node ID over its limit, and nothing after it",
        stream: &[CONTACT, PARAMETERS, b"\x04\x01"],
        output: &[CONTACT_LINE],
        report: b"tcpclkit: byte 6: node id too long: 1025\n",
        status: 3,
    },
    Row {
        name: "the longest node ID length",
        stream: &[CONTACT, PARAMETERS, b"\xff\xff"],
        output: &[CONTACT_LINE],
        report: b"tcpclkit: byte 6: node id too long: 65535\n",
        status: 3,
    },
];
