//! The rows of the tests of block data.

use link_bundle_data::{Assertion, DataKind, DataView, Integer, Report, SecurityBlock};
use link_bundle_types::EidView;

/// Data that is not malformed.
pub(crate) struct Row {
    pub kind: DataKind,
    pub bytes: &'static [u8],
    /// The offset of each head of the item.
    pub heads: &'static [usize],
    /// The offset after the item.
    pub end: usize,
    /// Whether bytes may follow the item.
    pub may_follow: bool,
    pub data: DataView<'static>,
}

pub(crate) static GOOD: [Row; 26] = [
    // an ipn endpoint ID of two numbers
    Row {
        kind: DataKind::PreviousNode,
        bytes: b"\x82\x02\x82\x01\x01",
        heads: &[0, 1, 2, 3, 4],
        end: 5,
        may_follow: false,
        data: DataView::PreviousNode(EidView::Ipn(1, 1)),
    },
    // an ipn endpoint ID of three numbers, in heads longer than needed
    Row {
        kind: DataKind::PreviousNode,
        bytes: b"\x98\x02\x18\x02\x9a\x00\x00\x00\x03\x19\x00\x01\x18\x02\x03",
        heads: &[0, 2, 4, 9, 12, 14],
        end: 15,
        may_follow: false,
        data: DataView::PreviousNode(EidView::Ipn3(1, 2, 3)),
    },
    // dtn:none
    Row {
        kind: DataKind::PreviousNode,
        bytes: b"\x82\x01\x00",
        heads: &[0, 1, 2],
        end: 3,
        may_follow: false,
        data: DataView::PreviousNode(EidView::DtnNone),
    },
    // dtn:none in a head longer than needed
    Row {
        kind: DataKind::PreviousNode,
        bytes: b"\x82\x01\x18\x00",
        heads: &[0, 1, 2],
        end: 4,
        may_follow: false,
        data: DataView::PreviousNode(EidView::DtnNone),
    },
    // a dtn name
    Row {
        kind: DataKind::PreviousNode,
        bytes: b"\x82\x01\x65\x2f\x2f\x6e\x31\x2f",
        heads: &[0, 1, 2],
        end: 8,
        may_follow: false,
        data: DataView::PreviousNode(EidView::Dtn(b"//n1/")),
    },
    // a dtn name that is no UTF-8
    Row {
        kind: DataKind::PreviousNode,
        bytes: b"\x82\x01\x78\x02\xff\xfe",
        heads: &[0, 1, 2],
        end: 6,
        may_follow: false,
        data: DataView::PreviousNode(EidView::Dtn(b"\xff\xfe")),
    },
    // an empty dtn name
    Row {
        kind: DataKind::PreviousNode,
        bytes: b"\x82\x01\x60",
        heads: &[0, 1, 2],
        end: 3,
        may_follow: false,
        data: DataView::PreviousNode(EidView::Dtn(b"")),
    },
    Row {
        kind: DataKind::BundleAge,
        bytes: b"\x00",
        heads: &[0],
        end: 1,
        may_follow: false,
        data: DataView::BundleAge(0),
    },
    Row {
        kind: DataKind::BundleAge,
        bytes: b"\x1a\x00\x00\x03\xe8",
        heads: &[0],
        end: 5,
        may_follow: false,
        data: DataView::BundleAge(1000),
    },
    Row {
        kind: DataKind::BundleAge,
        bytes: b"\x1b\xff\xff\xff\xff\xff\xff\xff\xff",
        heads: &[0],
        end: 9,
        may_follow: false,
        data: DataView::BundleAge(u64::MAX),
    },
    Row {
        kind: DataKind::HopCount,
        bytes: b"\x82\x18\x20\x01",
        heads: &[0, 1, 3],
        end: 4,
        may_follow: false,
        data: DataView::HopCount(32, 1),
    },
    Row {
        kind: DataKind::HopCount,
        bytes: b"\x98\x02\x19\x00\xff\x1b\x00\x00\x00\x00\x00\x00\x00\x00",
        heads: &[0, 2, 5],
        end: 14,
        may_follow: false,
        data: DataView::HopCount(255, 0),
    },
    // one target
    Row {
        kind: DataKind::Security,
        bytes: b"\x81\x01\x01\x00\x82\x02\x82\x01\x01",
        heads: &[0, 1, 2, 3, 4, 5, 6, 7, 8],
        end: 9,
        may_follow: true,
        data: DataView::Security(
            SecurityBlock {
                targets: 1,
                targets_primary: false,
                context: Integer {
                    negative: false,
                    argument: 1,
                },
                flags: 0,
                size: 9,
            },
            &[1],
            EidView::Ipn(1, 1),
        ),
    },
    // 0 is the first target
    Row {
        kind: DataKind::Security,
        bytes: b"\x82\x00\x02\x02\x01\x82\x01\x00",
        heads: &[0, 1, 2, 3, 4, 5, 6, 7],
        end: 8,
        may_follow: true,
        data: DataView::Security(
            SecurityBlock {
                targets: 2,
                targets_primary: true,
                context: Integer {
                    negative: false,
                    argument: 2,
                },
                flags: 1,
                size: 8,
            },
            &[0, 2],
            EidView::DtnNone,
        ),
    },
    // 0 is the last target, in two bytes, and the context is -1
    Row {
        kind: DataKind::Security,
        bytes: b"\x83\x02\x03\x18\x00\x20\x00\x82\x01\x63\x2f\x2f\x61",
        heads: &[0, 1, 2, 3, 5, 6, 7, 8, 9],
        end: 13,
        may_follow: true,
        data: DataView::Security(
            SecurityBlock {
                targets: 3,
                targets_primary: true,
                context: Integer {
                    negative: true,
                    argument: 0,
                },
                flags: 0,
                size: 13,
            },
            &[2, 3, 0],
            EidView::Dtn(b"//a"),
        ),
    },
    // no target, and the context is -2^64
    Row {
        kind: DataKind::Security,
        bytes: b"\x80\x3b\xff\xff\xff\xff\xff\xff\xff\xff\x18\x00\x82\x01\x00",
        heads: &[0, 1, 10, 12, 13, 14],
        end: 15,
        may_follow: true,
        data: DataView::Security(
            SecurityBlock {
                targets: 0,
                targets_primary: false,
                context: Integer {
                    negative: true,
                    argument: u64::MAX,
                },
                flags: 0,
                size: 15,
            },
            &[],
            EidView::DtnNone,
        ),
    },
    // the beginning of the block in RFC 9173 appendix A.1.3.2
    Row {
        kind: DataKind::Security,
        bytes: b"\x81\x01\x01\x01\x82\x02\x82\x02\x01\x82\x82\x01\x07\x82\x03\x00\x81\x81\x82\x01\x58\x40\x3b\xdc\x69\xb3",
        heads: &[0, 1, 2, 3, 4, 5, 6, 7, 8],
        end: 9,
        may_follow: true,
        data: DataView::Security(
            SecurityBlock {
                targets: 1,
                targets_primary: false,
                context: Integer {
                    negative: false,
                    argument: 1,
                },
                flags: 1,
                size: 9,
            },
            &[1],
            EidView::Ipn(2, 1),
        ),
    },
    // flags of the context in three bytes, and a name longer than 23 bytes
    Row {
        kind: DataKind::Security,
        bytes: b"\x81\x01\x02\x19\x01\x02\x82\x01\x78\x18//abcdefghijklmnopqrstu/",
        heads: &[0, 1, 2, 3, 6, 7, 8],
        end: 34,
        may_follow: true,
        data: DataView::Security(
            SecurityBlock {
                targets: 1,
                targets_primary: false,
                context: Integer {
                    negative: false,
                    argument: 2,
                },
                flags: 258,
                size: 34,
            },
            &[1],
            EidView::Dtn(b"//abcdefghijklmnopqrstu/"),
        ),
    },
    // a status report without times
    Row {
        kind: DataKind::Record,
        bytes: b"\x82\x01\x84\x84\x81\xf4\x81\xf4\x81\xf5\x81\xf4\x00\x82\x02\x82\x01\x01\x82\x19\x03\xe8\x05",
        heads: &[
            0, 1, 2, 3, 4, 5, 6, 7, 8, 9, 10, 11, 12, 13, 14, 15, 16, 17, 18, 19, 22,
        ],
        end: 23,
        may_follow: false,
        data: DataView::StatusReport(
            Report {
                received: Assertion::No,
                forwarded: Assertion::No,
                delivered: Assertion::Yes,
                deleted: Assertion::No,
                timed: false,
                untimed: true,
                reason: 0,
                time: 1000,
                sequence: 5,
                fragment: None,
            },
            EidView::Ipn(1, 1),
        ),
    },
    // a status report with times, about a fragment
    Row {
        kind: DataKind::Record,
        bytes: b"\x82\x01\x86\x84\x82\xf5\x07\x82\xf5\x08\x82\xf5\x09\x82\xf5\x0a\x01\x82\x01\x64\x2f\x2f\x6e\x2f\x82\x01\x02\x18\x64\x18\x32",
        heads: &[
            0, 1, 2, 3, 4, 5, 6, 7, 8, 9, 10, 11, 12, 13, 14, 15, 16, 17, 18, 19, 24, 25, 26, 27,
            29,
        ],
        end: 31,
        may_follow: false,
        data: DataView::StatusReport(
            Report {
                received: Assertion::YesAt(7),
                forwarded: Assertion::YesAt(8),
                delivered: Assertion::YesAt(9),
                deleted: Assertion::YesAt(10),
                timed: true,
                untimed: false,
                reason: 1,
                time: 1,
                sequence: 2,
                fragment: Some((100, 50)),
            },
            EidView::Dtn(b"//n/"),
        ),
    },
    // six status assertions, and heads longer than needed
    Row {
        kind: DataKind::Record,
        bytes: b"\x98\x02\x18\x01\x98\x04\x98\x06\x98\x01\xf5\x82\xf5\x19\x00\x03\x81\xf4\x99\x00\x01\xf5\x82\xf5\x00\x81\xf4\x18\x11\x82\x01\x00\x98\x02\x00\x1a\x00\x00\x00\x07",
        heads: &[
            0, 2, 4, 6, 8, 10, 11, 12, 13, 16, 17, 18, 21, 22, 23, 24, 25, 26, 27, 29, 30, 31, 32,
            34, 35,
        ],
        end: 40,
        may_follow: false,
        data: DataView::StatusReport(
            Report {
                received: Assertion::Yes,
                forwarded: Assertion::YesAt(3),
                delivered: Assertion::No,
                deleted: Assertion::Yes,
                timed: true,
                untimed: true,
                reason: 17,
                time: 0,
                sequence: 7,
                fragment: None,
            },
            EidView::DtnNone,
        ),
    },
    // no status is asserted
    Row {
        kind: DataKind::Record,
        bytes: b"\x82\x01\x84\x84\x81\xf4\x81\xf4\x81\xf4\x81\xf4\x00\x82\x01\x00\x82\x00\x00",
        heads: &[
            0, 1, 2, 3, 4, 5, 6, 7, 8, 9, 10, 11, 12, 13, 14, 15, 16, 17, 18,
        ],
        end: 19,
        may_follow: false,
        data: DataView::StatusReport(
            Report {
                received: Assertion::No,
                forwarded: Assertion::No,
                delivered: Assertion::No,
                deleted: Assertion::No,
                timed: false,
                untimed: false,
                reason: 0,
                time: 0,
                sequence: 0,
                fragment: None,
            },
            EidView::DtnNone,
        ),
    },
    // only a status after the first four has a time, and one without a time follows it
    Row {
        kind: DataKind::Record,
        bytes: b"\x82\x01\x84\x86\x81\xf4\x81\xf4\x81\xf4\x81\xf4\x82\xf5\x00\x81\xf5\x00\x82\x01\x00\x82\x00\x00",
        heads: &[
            0, 1, 2, 3, 4, 5, 6, 7, 8, 9, 10, 11, 12, 13, 14, 15, 16, 17, 18, 19, 20, 21, 22, 23,
        ],
        end: 24,
        may_follow: false,
        data: DataView::StatusReport(
            Report {
                received: Assertion::No,
                forwarded: Assertion::No,
                delivered: Assertion::No,
                deleted: Assertion::No,
                timed: true,
                untimed: true,
                reason: 0,
                time: 0,
                sequence: 0,
                fragment: None,
            },
            EidView::DtnNone,
        ),
    },
    Row {
        kind: DataKind::Record,
        bytes: b"\x82\x02",
        heads: &[0, 1],
        end: 2,
        may_follow: true,
        data: DataView::OtherRecord(2),
    },
    Row {
        kind: DataKind::Record,
        bytes: b"\x9a\x00\x00\x00\x02\x18\x00",
        heads: &[0, 5],
        end: 7,
        may_follow: true,
        data: DataView::OtherRecord(0),
    },
    Row {
        kind: DataKind::Record,
        bytes: b"\x82\x1b\xff\xff\xff\xff\xff\xff\xff\xff",
        heads: &[0, 1],
        end: 10,
        may_follow: true,
        data: DataView::OtherRecord(u64::MAX),
    },
];

/// Malformed data, and the offset at which it is malformed. No limit of this toolkit is the reason.
pub(crate) static MALFORMED: [(DataKind, &[u8], usize); 92] = [
    // no data
    (DataKind::PreviousNode, b"", 0),
    (DataKind::BundleAge, b"", 0),
    (DataKind::HopCount, b"", 0),
    (DataKind::Security, b"", 0),
    (DataKind::Record, b"", 0),
    // an endpoint ID of one element, and of three
    (DataKind::PreviousNode, b"\x81\x01", 0),
    (DataKind::PreviousNode, b"\x83\x02\x82\x01\x01\x00", 0),
    (DataKind::PreviousNode, b"\x02", 0),
    // a negative scheme
    (DataKind::PreviousNode, b"\x82\x20\x00", 1),
    // a specific part that the scheme does not have
    (DataKind::PreviousNode, b"\x82\x01\x01", 2),
    (DataKind::PreviousNode, b"\x82\x01\x82\x01\x01", 2),
    (DataKind::PreviousNode, b"\x82\x02\x00", 2),
    (DataKind::PreviousNode, b"\x82\x02\x60", 2),
    (DataKind::PreviousNode, b"\x82\x02\x81\x01", 2),
    (DataKind::PreviousNode, b"\x82\x02\x84\x01\x01\x01\x01", 2),
    // no unsigned integer in an ipn endpoint ID
    (DataKind::PreviousNode, b"\x82\x02\x82\x20\x01", 3),
    (DataKind::PreviousNode, b"\x82\x02\x82\x01\x20", 4),
    (DataKind::PreviousNode, b"\x82\x02\x83\x01\x01\xf4", 5),
    // a longest name that the data cuts
    (DataKind::PreviousNode, b"\x82\x01\x79\x04\x00\x61", 6),
    // a name that the data cuts, and an endpoint ID that it cuts
    (DataKind::PreviousNode, b"\x82\x01\x62\x61", 4),
    (DataKind::PreviousNode, b"\x82\x01\x62", 3),
    (DataKind::PreviousNode, b"\x82\x02\x82\x01", 4),
    // an age that is no unsigned integer
    (DataKind::BundleAge, b"\x20", 0),
    (DataKind::BundleAge, b"\xf4", 0),
    (DataKind::BundleAge, b"\x81\x00", 0),
    (DataKind::BundleAge, b"\xf9\x00\x00", 0),
    // the break, and heads of information 31 and 30 that are ill-formed
    (DataKind::BundleAge, b"\xff", 0),
    (DataKind::BundleAge, b"\x1f", 0),
    (DataKind::BundleAge, b"\xdf", 0),
    (DataKind::BundleAge, b"\x5e", 0),
    (DataKind::Record, b"\x82\xff", 1),
    // heads of indefinite length after an item
    (DataKind::BundleAge, b"\x05\x9f", 1),
    (DataKind::HopCount, b"\x82\x05\x05\x5f", 3),
    // a hop limit and count in other arrays, and numbers of other kinds
    (DataKind::HopCount, b"\x81\x00", 0),
    (DataKind::HopCount, b"\x83\x00\x00\x00", 0),
    (DataKind::HopCount, b"\x00", 0),
    (DataKind::HopCount, b"\x82\x20\x00", 1),
    (DataKind::HopCount, b"\x82\x00\x20", 2),
    (DataKind::HopCount, b"\x82\x00\x81\x00", 2),
    // targets, context, flags and source of other kinds
    (DataKind::Security, b"\x00", 0),
    (DataKind::Security, b"\xa0\x00\x00\x82\x01\x00", 0),
    (DataKind::Security, b"\x82\x00\x20", 2),
    (DataKind::Security, b"\x80\x81\x00", 1),
    (DataKind::Security, b"\x80\x60", 1),
    (DataKind::Security, b"\x80\xf4", 1),
    (DataKind::Security, b"\x80\x00\x20", 2),
    (DataKind::Security, b"\x80\x00\x00\x00", 3),
    // targets that the data cuts
    (
        DataKind::Security,
        b"\x9b\xff\xff\xff\xff\xff\xff\xff\xff\x01\x02",
        11,
    ),
    // the array of a record, and its type code
    (DataKind::Record, b"\x81\x02", 0),
    (DataKind::Record, b"\x83\x02\x00\x00", 0),
    (DataKind::Record, b"\x02", 0),
    (DataKind::Record, b"\x82\x20", 1),
    (DataKind::Record, b"\x82\x60\x00", 1),
    // the array of a status report
    (DataKind::Record, b"\x82\x01\x00", 2),
    (DataKind::Record, b"\x82\x01\x83", 2),
    (DataKind::Record, b"\x82\x01\x85", 2),
    (DataKind::Record, b"\x82\x01\x87", 2),
    (DataKind::Record, b"\x82\x01", 2),
    // the array of status assertions
    (DataKind::Record, b"\x82\x01\x84\xf4", 3),
    (DataKind::Record, b"\x82\x01\x84\x83", 3),
    (DataKind::Record, b"\x82\x01\x84\x80", 3),
    // the array of a status assertion
    (DataKind::Record, b"\x82\x01\x84\x84\xf5", 4),
    (DataKind::Record, b"\x82\x01\x84\x84\x80", 4),
    (DataKind::Record, b"\x82\x01\x84\x84\x83\xf5\x00\x00", 4),
    // a Boolean that is another item, or longer than one byte
    (DataKind::Record, b"\x82\x01\x84\x84\x81\x00", 5),
    (DataKind::Record, b"\x82\x01\x84\x84\x81\x01", 5),
    (DataKind::Record, b"\x82\x01\x84\x84\x81\xf6", 5),
    (DataKind::Record, b"\x82\x01\x84\x84\x81\xe0", 5),
    (DataKind::Record, b"\x82\x01\x84\x84\x81\xf8\x14", 5),
    (DataKind::Record, b"\x82\x01\x84\x84\x81\xf8\xf4", 5),
    (DataKind::Record, b"\x82\x01\x84\x84\x81\xf9\x00\x14", 5),
    (
        DataKind::Record,
        b"\x82\x01\x84\x84\x81\xfa\x00\x00\x00\x15",
        5,
    ),
    (DataKind::Record, b"\x82\x01\x84\x84\x81\xf9\x00", 7),
    (DataKind::Record, b"\x82\x01\x84\x84\x82\xf9\x00\x15\x00", 5),
    // a time after false, and a time of another kind
    (DataKind::Record, b"\x82\x01\x84\x84\x82\xf4", 5),
    (DataKind::Record, b"\x82\x01\x84\x84\x82\xf4\x00", 5),
    (DataKind::Record, b"\x82\x01\x84\x84\x82\xf5\x20", 6),
    (DataKind::Record, b"\x82\x01\x84\x84\x82\xf5\xf5", 6),
    (DataKind::Record, b"\x82\x01\x84\x84\x82\xf5", 6),
    // a fifth status assertion
    (
        DataKind::Record,
        b"\x82\x01\x84\x85\x81\xf4\x81\xf4\x81\xf4\x81\xf4\x82\xf4\x00",
        13,
    ),
    (
        DataKind::Record,
        b"\x82\x01\x84\x85\x81\xf4\x81\xf4\x81\xf4\x81\xf4\x00",
        12,
    ),
    // reason, source, timestamp and sequence number of other kinds
    (
        DataKind::Record,
        b"\x82\x01\x84\x84\x81\xf4\x81\xf4\x81\xf4\x81\xf4\x20",
        12,
    ),
    (
        DataKind::Record,
        b"\x82\x01\x84\x84\x81\xf4\x81\xf4\x81\xf4\x81\xf4\x00\x00",
        13,
    ),
    (
        DataKind::Record,
        b"\x82\x01\x84\x84\x81\xf4\x81\xf4\x81\xf4\x81\xf4\x00\x82\x20",
        14,
    ),
    (
        DataKind::Record,
        b"\x82\x01\x84\x84\x81\xf4\x81\xf4\x81\xf4\x81\xf4\x00\x82\x01\x00\x83",
        16,
    ),
    (
        DataKind::Record,
        b"\x82\x01\x84\x84\x81\xf4\x81\xf4\x81\xf4\x81\xf4\x00\x82\x01\x00\x82\x20",
        17,
    ),
    (
        DataKind::Record,
        b"\x82\x01\x84\x84\x81\xf4\x81\xf4\x81\xf4\x81\xf4\x00\x82\x01\x00\x82\x00\x20",
        18,
    ),
    // a report of four elements with the fields of a fragment
    (
        DataKind::Record,
        b"\x82\x01\x84\x84\x81\xf4\x81\xf4\x81\xf4\x81\xf4\x00\x82\x01\x00\x82\x00\x00\x00\x00",
        19,
    ),
    // a report of six elements without them, and with others
    (
        DataKind::Record,
        b"\x82\x01\x86\x84\x81\xf4\x81\xf4\x81\xf4\x81\xf4\x00\x82\x01\x00\x82\x00\x00",
        19,
    ),
    (
        DataKind::Record,
        b"\x82\x01\x86\x84\x81\xf4\x81\xf4\x81\xf4\x81\xf4\x00\x82\x01\x00\x82\x00\x00\x20\x00",
        19,
    ),
    (
        DataKind::Record,
        b"\x82\x01\x86\x84\x81\xf4\x81\xf4\x81\xf4\x81\xf4\x00\x82\x01\x00\x82\x00\x00\x00\x20",
        20,
    ),
    (
        DataKind::Record,
        b"\x82\x01\x86\x84\x81\xf4\x81\xf4\x81\xf4\x81\xf4\x00\x82\x01\x00\x82\x00\x00\x00\x00\x00",
        21,
    ),
];

/// Data that exceeds a limit of this toolkit, and the offset of the item that does.
pub(crate) static NOT_READ: [(DataKind, &[u8], usize); 29] = [
    // an array of indefinite length, and other items of indefinite length where one is due
    (DataKind::HopCount, b"\x9f\x18\x20\x01\xff", 0),
    (DataKind::PreviousNode, b"\x9f\x02\x82\x01\x00\xff", 0),
    (DataKind::PreviousNode, b"\x82\x02\x9f\x01\x00\xff", 2),
    (DataKind::Record, b"\x9f\x02\x00\xff", 0),
    (DataKind::Record, b"\xbf", 0),
    (DataKind::Record, b"\x82\x01\x9f\x84", 2),
    (DataKind::Record, b"\x82\x01\x84\x9f\x81\xf4", 3),
    (DataKind::Record, b"\x82\x01\x84\x84\x9f\xf4\xff", 4),
    (DataKind::Security, b"\x9f\x01\xff", 0),
    // the same where a number is due
    (DataKind::BundleAge, b"\x5f\x41\x05\xff", 0),
    (DataKind::BundleAge, b"\xbf", 0),
    (DataKind::HopCount, b"\x82\x05\x7f", 2),
    (DataKind::PreviousNode, b"\x82\x9f", 1),
    (DataKind::PreviousNode, b"\x82\x02\x82\x01\x5f", 4),
    (DataKind::Record, b"\x82\x9f", 1),
    (
        DataKind::Record,
        b"\x82\x01\x84\x84\x81\xf4\x81\xf4\x81\xf4\x81\xf4\x00\x82\x18\xff",
        14,
    ),
    (DataKind::Security, b"\x81\x5f", 1),
    (DataKind::Security, b"\x80\xbf", 1),
    // the same where a Boolean, and where a name is due
    (DataKind::Record, b"\x82\x01\x84\x84\x81\x9f", 5),
    (
        DataKind::PreviousNode,
        b"\x82\x01\x7f\x63\x2f\x2f\x6e\x61\x2f\xff",
        2,
    ),
    (DataKind::PreviousNode, b"\x82\x01\x5f\x41\x61\xff", 2),
    // the schemes 0, 3, 65536 and the greatest number
    (DataKind::PreviousNode, b"\x82\x00\x00", 1),
    (DataKind::PreviousNode, b"\x82\x03\x00", 1),
    (DataKind::PreviousNode, b"\x82\x03", 1),
    (DataKind::PreviousNode, b"\x82\x1a\x00\x01\x00\x00\x00", 1),
    (
        DataKind::PreviousNode,
        b"\x82\x1b\xff\xff\xff\xff\xff\xff\xff\xff",
        1,
    ),
    // a scheme in a record and in a security block, and a name of 1,025 bytes
    (
        DataKind::Record,
        b"\x82\x01\x84\x84\x81\xf4\x81\xf4\x81\xf4\x81\xf4\x00\x82\x05",
        14,
    ),
    (DataKind::Security, b"\x80\x00\x00\x82\x04", 4),
    (DataKind::PreviousNode, b"\x82\x01\x79\x04\x01", 2),
];

/// Targets of a security block: as many as are kept.
pub(crate) static TARGETS: [u64; 64] = [
    32, 33, 34, 35, 36, 37, 38, 39, 40, 41, 42, 43, 44, 45, 46, 47, 48, 49, 50, 51, 52, 53, 54, 55,
    56, 57, 58, 59, 60, 61, 62, 63, 64, 65, 66, 67, 68, 69, 70, 71, 72, 73, 74, 75, 76, 77, 78, 79,
    80, 81, 82, 83, 84, 85, 86, 87, 88, 89, 90, 91, 92, 93, 94, 95,
];

/// Data, and the offset of its first head that is longer than its number needs.
pub(crate) static LONG: [(DataKind, &[u8], Option<u64>); 29] = [
    // each head is as short as can be
    (DataKind::PreviousNode, b"\x82\x02\x82\x01\x01", None),
    (DataKind::BundleAge, b"\x18\x18", None),
    (DataKind::BundleAge, b"\x19\x01\x00", None),
    (DataKind::BundleAge, b"\x1a\x00\x01\x00\x00", None),
    (
        DataKind::BundleAge,
        b"\x1b\x00\x00\x00\x01\x00\x00\x00\x00",
        None,
    ),
    (DataKind::HopCount, b"\x82\x18\x20\x01", None),
    // the greatest number that a shorter head can have
    (DataKind::BundleAge, b"\x18\x17", Some(0)),
    (DataKind::BundleAge, b"\x19\x00\xff", Some(0)),
    (DataKind::BundleAge, b"\x1a\x00\x00\xff\xff", Some(0)),
    (
        DataKind::BundleAge,
        b"\x1b\x00\x00\x00\x00\xff\xff\xff\xff",
        Some(0),
    ),
    // each head of a hop count, and two of them
    (DataKind::HopCount, b"\x98\x02\x01\x02", Some(0)),
    (DataKind::HopCount, b"\x82\x18\x01\x02", Some(1)),
    (DataKind::HopCount, b"\x82\x01\x18\x02", Some(2)),
    (DataKind::HopCount, b"\x82\x18\x01\x18\x02", Some(1)),
    // the bytes of a name are no heads
    (
        DataKind::PreviousNode,
        b"\x82\x01\x65\x18\x01\x18\x01\x18",
        None,
    ),
    (
        DataKind::PreviousNode,
        b"\x82\x01\x78\x05\x2f\x2f\x61\x2f\x2f",
        Some(2),
    ),
    // each part of a security block
    (
        DataKind::Security,
        b"\x98\x01\x01\x01\x00\x82\x01\x00",
        Some(0),
    ),
    (
        DataKind::Security,
        b"\x82\x01\x18\x02\x01\x00\x82\x01\x00",
        Some(2),
    ),
    (
        DataKind::Security,
        b"\x81\x01\x38\x00\x00\x82\x01\x00",
        Some(2),
    ),
    (
        DataKind::Security,
        b"\x81\x01\x01\x18\x01\x82\x01\x00",
        Some(3),
    ),
    (
        DataKind::Security,
        b"\x81\x01\x01\x00\x82\x01\x18\x00",
        Some(6),
    ),
    (
        DataKind::Security,
        b"\x81\x01\x01\x00\x82\x01\x63\x18\x00\x18",
        None,
    ),
    // what follows its source is not read
    (
        DataKind::Security,
        b"\x81\x01\x01\x00\x82\x01\x00\x18\x00",
        None,
    ),
    (
        DataKind::Security,
        b"\x81\x01\x01\x00\x82\x01\x61\x2f\x18\x00",
        None,
    ),
    // no head of malformed data is judged
    (DataKind::BundleAge, b"\x18\x01\x00", None),
    (DataKind::HopCount, b"\x98\x02\x01", None),
    (DataKind::PreviousNode, b"\x98\x02\x01\x62\x2f", None),
    // nor one of an administrative record
    (DataKind::Record, b"\x98\x02\x02", None),
    (
        DataKind::Record,
        b"\x98\x02\x01\x84\x84\x81\xf4\x81\xf4\x81\xf4\x81\xf4\x00\x82\x01\x00\x82\x00\x00",
        None,
    ),
];
