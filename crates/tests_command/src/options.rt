//! Tests of the command line on tables of words.

use link_tool_option_types::{
    BlockOptions, BundleCheckOptions, CheckOptions, NodeId, Options, PackOptions, PeerLimits,
    Wanted,
};
use link_tools_command::{Invocation, UsageFault, options};
use std::alloc::{AllocError, Global};
use std::process::Abort;
use std::test::Fail;

/// The program's name, and then the words of this line.
pub(crate) fn words_of(alloc: Global, line: &[&str]) -> Result<Vec<String>, AllocError> {
    let mut words = Vec::new(alloc);
    words.push(String::from_str(alloc, "tcpclkit")?)?;
    for word in line {
        words.push(String::from_str(alloc, word)?)?;
    }
    Ok(words)
}

pub(crate) fn name_of(outcome: &Result<Invocation, UsageFault>) -> &'static str {
    match outcome {
        Ok(_) => "taken",
        Err(UsageFault::Help(_)) => "help",
        Err(UsageFault::Words(_)) => "words",
        Err(UsageFault::NodeTooLong) => "node too long",
        Err(UsageFault::OwnNamesNoNode) => "own names no node",
        Err(UsageFault::MixedInputs) => "mixed inputs",
        Err(UsageFault::LimitedBundles) => "limited bundles",
        Err(UsageFault::Memory) => "memory",
    }
}

/// Whether an outcome with a text has one that ends with its line.
fn has_text(outcome: &Result<Invocation, UsageFault>) -> bool {
    match outcome {
        Err(UsageFault::Help(text) | UsageFault::Words(text)) => text.as_str().ends_with("\n"),
        _ => true,
    }
}

/// Checks that a line has the expected outcome, by its name in `name_of`, and with its text.
pub(crate) fn comes_to(
    rt: &impl Abort,
    alloc: Global,
    expected: &str,
    line: &[&str],
) -> Result<(), Fail> {
    let words = words_of(alloc, line)?;
    let outcome = options(alloc, words.as_slice());
    assert!(rt;
        name_of(&outcome) == expected,
        "{line:?} is {}",
        name_of(&outcome)
    );
    assert!(rt; has_text(&outcome), "{line:?} has no text");
    Ok(())
}

/// Checks that each line has the expected outcome.
fn all_come_to(
    rt: &impl Abort,
    alloc: Global,
    expected: &str,
    lines: &[&[&str]],
) -> Result<(), Fail> {
    for line in lines {
        comes_to(rt, alloc, expected, line)?;
    }
    Ok(())
}

/// The invocation of a line that is accepted. A fault fails the test.
fn taken(alloc: Global, line: &[&str]) -> Result<Invocation, Fail> {
    let words = words_of(alloc, line)?;
    match options(alloc, words.as_slice()) {
        Ok(invocation) => Ok(invocation),
        Err(fault) => Err(Fail::from(name_of(&Err(fault)))),
    }
}

/// The options of `pack` if only `--node` is given.
fn pack_defaults(node: &str) -> Result<PackOptions, Fail> {
    Ok(PackOptions {
        node: NodeId::try_from(node.as_bytes())?,
        keepalive: 60,
        segment_mru: 65536,
        transfer_mru: 1048576,
        peer_segment: 65536,
        peer_transfer: 18446744073709551615,
        announce: 0,
        send_term: false,
    })
}

/// A line of `pack` with all options and a file.
const ALL_OF_PACK: &[&str] = &[
    "pack",
    "--keepalive",
    "1",
    "--segment-mru",
    "2",
    "--transfer-mru",
    "3",
    "--peer-segment",
    "4",
    "--peer-transfer",
    "5",
    "--announce",
    "6",
    "--end",
    "--node=-é",
    "f",
];

/// The options of `ALL_OF_PACK`.
fn all_of_pack() -> Result<PackOptions, Fail> {
    Ok(PackOptions {
        node: NodeId::try_from("-é".as_bytes())?,
        keepalive: 1,
        segment_mru: 2,
        transfer_mru: 3,
        peer_segment: 4,
        peer_transfer: 5,
        announce: 6,
        send_term: true,
    })
}

/// Lines with a wrong word.
static WRONG_WORDS: [&[&str]; 58] = [
    &[],
    &["lists"],
    &["help", "lists"],
    &["help", "list", "list"],
    &["pack"],
    &["list", "a", "b"],
    &["list", "--payload"],
    &["list", "--keep-going"],
    &["unpack", "--transfer", "18446744073709551616"],
    &["unpack", "--transfer", "-1"],
    &["unpack", "--transfer"],
    &["unpack", "--transfer", ""],
    &["unpack", "--transfer", "1", "--transfer", "1"],
    &["unpack", "--payload", "--payload"],
    &["unpack", "--payload=true"],
    &["unpack", "--keep-going", "--keep-going"],
    &["unpack", "--keep-going=true"],
    &["unpack", "--keep"],
    &["unpack", "--end"],
    &["unpack", "a", "b"],
    &["blocks", "--transfer", "18446744073709551616"],
    &["blocks", "--transfer", "1", "--transfer", "1"],
    &["blocks", "--bundles", "--bundles"],
    &["blocks", "--bundles=true"],
    &["blocks", "--keep-going", "--keep-going"],
    &["blocks", "--payload"],
    &["blocks", "a", "b"],
    &["unpack", "--bundles"],
    &["check", "--peer-segment", "18446744073709551616"],
    &["check", "--peer-segment"],
    &["check", "--peer-segment", "1", "--peer-segment", "1"],
    &["check", "--peer-transfer", "18446744073709551616"],
    &["check", "--peer-transfer", "-1"],
    &["check", "--peer-transfer", "1", "--peer-transfer", "1"],
    &["check", "--must", "--must"],
    &["check", "--must=true"],
    &["check", "--own"],
    &["check", "--own", "-x"],
    &["check", "--own", "ipn:1.0", "--own", "ipn:1.0"],
    &["check", "--own", "ipn:1.0", "--bundles", "--own=ipn:1.0"],
    &["check", "--bundles", "--bundles"],
    &["check", "--keep-going"],
    &["check", "--transfer", "0"],
    &["check", "a", "b"],
    &["blocks", "--own", "ipn:1.0"],
    &["unpack", "--own=ipn:1.0"],
    &["blocks", "--must"],
    &["blocks", "--peer-segment", "1"],
    &["pack", "--node", "x", "--peer-segment", "0"],
    &["pack", "--node", "ipn:1.0", "--announce", "1048577"],
    &["pack", "--node", "x", "--keepalive", "65536"],
    &["pack", "--node", "x", "--keepalive", "six"],
    &["pack", "--node", "x", "--node", "x"],
    &["pack", "--node", "-x"],
    &["pack", "--node", "x", "--own", "ipn:1.0"],
    &["pack", "--node", "x", "--unknown"],
    &["pack", "--node", "x", "--keep-going"],
    &["pack", "--node", "x", "a", "b"],
];

#[test]
fn wrong_words(rt: HostRuntime) -> Result<(), Fail> {
    all_come_to(&rt, rt.alloc(), "words", &WRONG_WORDS)
}

/// Lines that ask for a help text, or for the version.
static REQUESTS_FOR_HELP: [&[&str]; 17] = [
    &["--help"],
    &["-h"],
    &["--version"],
    &["-V"],
    &["list", "--help"],
    &["unpack", "--help"],
    &["blocks", "--help"],
    &["check", "--help"],
    &["pack", "--help"],
    &["pack", "-h"],
    &["help"],
    &["help", "list"],
    &["help", "unpack"],
    &["help", "blocks"],
    &["help", "check"],
    &["help", "pack"],
    &["help", "help"],
];

#[test]
fn requests_for_help(rt: HostRuntime) -> Result<(), Fail> {
    all_come_to(&rt, rt.alloc(), "help", &REQUESTS_FOR_HELP)
}

#[test]
fn list_has_no_options(rt: HostRuntime) -> Result<(), Fail> {
    let alloc = rt.alloc();
    let invocation = taken(alloc, &["list"])?;
    assert!(rt; invocation.options == Options::List && invocation.file.is_none());
    Ok(())
}

/// Checks that a line asks for these options.
fn wants(rt: &impl Abort, alloc: Global, line: &[&str], options: &Options) -> Result<(), Fail> {
    let invocation = taken(alloc, line)?;
    assert!(rt; invocation.options == *options, "{line:?}");
    Ok(())
}

/// Checks that each line of `unpack` asks for these options.
fn all_want(rt: &impl Abort, alloc: Global, lines: &[(&[&str], Wanted)]) -> Result<(), Fail> {
    for &(line, wanted) in lines {
        wants(rt, alloc, line, &Options::Unpack(wanted))?;
    }
    Ok(())
}

/// All data of all transfers.
const ALL: Wanted = Wanted {
    only: None,
    payload: false,
    keep_going: false,
};

/// The payloads of transfers with ID 7.
const OF_SEVEN: Wanted = Wanted {
    only: Some(7),
    payload: true,
    keep_going: false,
};

/// All data of transfers with the greatest ID.
const OF_LAST: Wanted = Wanted {
    only: Some(u64::MAX),
    payload: false,
    keep_going: false,
};

/// Lines of `unpack`, and the options that each asks for.
static OF_UNPACK: [(&[&str], Wanted); 6] = [
    (&["unpack"], ALL),
    (&["unpack", "--payload", "--transfer", "7", "f"], OF_SEVEN),
    (&["unpack", "f", "--transfer=7", "--payload"], OF_SEVEN),
    (&["unpack", "--transfer", "+07", "--payload"], OF_SEVEN),
    (&["unpack", "--transfer", "18446744073709551615"], OF_LAST),
    (&["unpack", "--", "--payload"], ALL),
];

#[test]
fn options_of_unpack(rt: HostRuntime) -> Result<(), Fail> {
    all_want(&rt, rt.alloc(), &OF_UNPACK)
}

/// All data of all transfers, also after a fault of the order.
const GOING_ON: Wanted = Wanted {
    only: None,
    payload: false,
    keep_going: true,
};

/// The payloads of transfers with ID 7, also after a fault of the order.
const GOING_ON_WITH_SEVEN: Wanted = Wanted {
    only: Some(7),
    payload: true,
    keep_going: true,
};

/// Lines of `unpack` with `--keep-going`, and the options that each asks for.
static UNPACK_GOES_ON: [(&[&str], Wanted); 4] = [
    (&["unpack", "--keep-going"], GOING_ON),
    (&["unpack", "f", "--keep-going"], GOING_ON),
    (&["unpack", "--", "--keep-going"], ALL),
    (
        &["unpack", "--keep-going", "--payload", "--transfer", "7"],
        GOING_ON_WITH_SEVEN,
    ),
];

#[test]
fn unpack_goes_on(rt: HostRuntime) -> Result<(), Fail> {
    all_want(&rt, rt.alloc(), &UNPACK_GOES_ON)
}

/// The blocks of all transfers.
const BLOCKS: BlockOptions = BlockOptions {
    only: None,
    keep_going: false,
};

/// The blocks of transfers with ID 7, also after a fault of the order.
const BLOCKS_OF_SEVEN: BlockOptions = BlockOptions {
    only: Some(7),
    keep_going: true,
};

/// Lines of `blocks`, and the options that each asks for.
static OF_BLOCKS: [(&[&str], BlockOptions); 4] = [
    (&["blocks"], BLOCKS),
    (
        &["blocks", "--keep-going", "--transfer", "7", "f"],
        BLOCKS_OF_SEVEN,
    ),
    (
        &["blocks", "f", "--transfer=7", "--keep-going"],
        BLOCKS_OF_SEVEN,
    ),
    (&["blocks", "--", "--bundles"], BLOCKS),
];

#[test]
fn options_of_blocks(rt: HostRuntime) -> Result<(), Fail> {
    for &(line, options) in &OF_BLOCKS {
        wants(&rt, rt.alloc(), line, &Options::Blocks(options))?;
    }
    let options = Options::BundleBlocks;
    wants(&rt, rt.alloc(), &["blocks", "--bundles"], &options)?;
    wants(&rt, rt.alloc(), &["blocks", "f", "--bundles"], &options)
}

/// Lines of `blocks` with `--bundles` and an option for recordings.
static MIXED_INPUTS: [&[&str]; 5] = [
    &["blocks", "--bundles", "--transfer", "0"],
    &["blocks", "--transfer=0", "--bundles"],
    &["blocks", "--bundles", "--keep-going"],
    &["blocks", "--keep-going", "--bundles", "f"],
    &["blocks", "--bundles", "--keep-going", "--transfer", "7"],
];

/// `--bundles` is accepted alone, and not with an option for recordings.
#[test]
fn mixed_inputs(rt: HostRuntime) -> Result<(), Fail> {
    all_come_to(&rt, rt.alloc(), "mixed inputs", &MIXED_INPUTS)
}

/// The options of `check` for a recording. An empty `own` is none.
fn judged(
    must: bool,
    own: &str,
    segment: Option<u64>,
    transfer: Option<u64>,
) -> Result<Options, Fail> {
    Ok(Options::Check(CheckOptions {
        must,
        own: NodeId::try_from(own.as_bytes())?,
        peer: PeerLimits { segment, transfer },
    }))
}

/// The options of `check` for bundles. An empty `own` is none.
fn judged_bundles(must: bool, own: &str) -> Result<Options, Fail> {
    let own = NodeId::try_from(own.as_bytes())?;
    Ok(Options::BundleCheck(BundleCheckOptions { must, own }))
}

/// Lines of `check`, whether each asks for `must` alone, and the limits that it gives.
static OF_CHECK: [(&[&str], bool, Option<u64>, Option<u64>); 9] = [
    (&["check"], false, None, None),
    (&["check", "--must", "f"], true, None, None),
    (&["check", "--peer-segment", "0"], false, Some(0), None),
    (&["check", "--peer-segment", "1"], false, Some(1), None),
    (&["check", "--peer-transfer", "0"], false, None, Some(0)),
    (
        &["check", "--peer-segment", "18446744073709551615"],
        false,
        Some(u64::MAX),
        None,
    ),
    (
        &["check", "--peer-transfer", "18446744073709551615"],
        false,
        None,
        Some(u64::MAX),
    ),
    (
        &[
            "check",
            "f",
            "--peer-transfer=9",
            "--peer-segment=8",
            "--must",
        ],
        true,
        Some(8),
        Some(9),
    ),
    (&["check", "--", "--bundles"], false, None, None),
];

#[test]
fn options_of_check(rt: HostRuntime) -> Result<(), Fail> {
    for &(line, must, segment, transfer) in &OF_CHECK {
        wants(&rt, rt.alloc(), line, &judged(must, "", segment, transfer)?)?;
    }
    Ok(())
}

/// Lines of `check --bundles`, and whether each asks for `must` alone.
static CHECK_OF_BUNDLES: [(&[&str], bool); 5] = [
    (&["check", "--bundles"], false),
    (&["check", "f", "--bundles"], false),
    (&["check", "--bundles", "--", "--must"], false),
    (&["check", "--bundles", "--must"], true),
    (&["check", "--must", "f", "--bundles"], true),
];

#[test]
fn check_of_bundles(rt: HostRuntime) -> Result<(), Fail> {
    for &(line, must) in &CHECK_OF_BUNDLES {
        wants(&rt, rt.alloc(), line, &judged_bundles(must, "")?)?;
    }
    Ok(())
}

/// Lines of `check` with `--own`, and the node ID that each gives.
static OWN_OF_CHECK: [(&[&str], &str); 7] = [
    (&["check", "--own", "ipn:1.0"], "ipn:1.0"),
    (&["check", "f", "--own=ipn:1.2.0"], "ipn:1.2.0"),
    (&["check", "--own", "IPN:01.7", "f"], "IPN:01.7"),
    (&["check", "--own", "ipn:0.0"], "ipn:0.0"),
    (&["check", "--own", "dtn://node/"], "dtn://node/"),
    (&["check", "--own", "dtn:///"], "dtn:///"),
    (&["check", "--", "--own"], ""),
];

/// Lines of `check --bundles` with `--own`, and the node ID that each gives.
static OWN_OF_BUNDLES: [(&[&str], &str); 3] = [
    (&["check", "--bundles", "--own", "ipn:1.0"], "ipn:1.0"),
    (&["check", "--own=dtn://n/x", "f", "--bundles"], "dtn://n/x"),
    (&["check", "--bundles", "--", "--own"], ""),
];

#[test]
fn own_of_check(rt: HostRuntime) -> Result<(), Fail> {
    for &(line, own) in &OWN_OF_CHECK {
        wants(&rt, rt.alloc(), line, &judged(false, own, None, None)?)?;
    }
    for &(line, own) in &OWN_OF_BUNDLES {
        wants(&rt, rt.alloc(), line, &judged_bundles(false, own)?)?;
    }
    Ok(())
}

/// Lines of `check` with a value of `--own` that names no node.
static OWN_OF_NO_NODE: [&[&str]; 14] = [
    &["check", "--own", ""],
    &["check", "--own="],
    &["check", "--own", "", "--bundles"],
    &["check", "--own", "dtn:none"],
    &["check", "--own", "DTN:NONE"],
    &["check", "--bundles", "--own", "dtn:none"],
    &["check", "--own", "ipn:!", "f"],
    &["check", "--own", "ipn:1"],
    &["check", "--own", "ipn:1.2.3.0"],
    &["check", "--own", "dtn:node"],
    &["check", "--own", "https://node/"],
    &["check", "--own", "1.0"],
    &["check", "--own", "ipn:1.0 "],
    &["check", "--must", "--own", "node", "--peer-segment", "1"],
];

#[test]
fn own_of_no_node(rt: HostRuntime) -> Result<(), Fail> {
    all_come_to(&rt, rt.alloc(), "own names no node", &OWN_OF_NO_NODE)
}

/// Lines of `check` with `--bundles` and a limit of the peer.
static LIMITED_BUNDLES: [&[&str]; 5] = [
    &["check", "--bundles", "--peer-segment", "1"],
    &["check", "--peer-transfer=0", "--bundles"],
    &["check", "--must", "--bundles", "--peer-transfer", "7", "f"],
    &[
        "check",
        "--own=ipn:1.0",
        "--bundles",
        "--peer-transfer",
        "7",
    ],
    &[
        "check",
        "--bundles",
        "--peer-segment",
        "1",
        "--peer-transfer",
        "0",
    ],
];

/// `check --bundles` is accepted with `--must` and `--own`, and not with a limit of the peer.
#[test]
fn limited_bundles(rt: HostRuntime) -> Result<(), Fail> {
    all_come_to(&rt, rt.alloc(), "limited bundles", &LIMITED_BUNDLES)
}

#[test]
fn options_of_pack(rt: HostRuntime) -> Result<(), Fail> {
    packs_with_defaults(&rt, rt.alloc(), "ipn:1.0")?;
    packs_with_defaults(&rt, rt.alloc(), "")?;
    packs_with_all(&rt, rt.alloc())
}

/// Checks the invocation of `pack` with this node ID and no other option.
fn packs_with_defaults(rt: &impl Abort, alloc: Global, node: &str) -> Result<(), Fail> {
    let invocation = taken(alloc, &["pack", "--node", node])?;
    assert!(rt; invocation.options == Options::Pack(pack_defaults(node)?));
    assert!(rt; invocation.file.is_none());
    Ok(())
}

/// Checks the invocation of `ALL_OF_PACK`.
fn packs_with_all(rt: &impl Abort, alloc: Global) -> Result<(), Fail> {
    let invocation = taken(alloc, ALL_OF_PACK)?;
    assert!(rt; invocation.options == Options::Pack(all_of_pack()?));
    assert!(rt; invocation.file.as_deref() == Some("f"));
    Ok(())
}

/// Lines with the least or the greatest number that an option takes.
static ENDS_OF_RANGES: [&[&str]; 10] = [
    &["pack", "--node", "x", "--keepalive", "0"],
    &["pack", "--node", "x", "--keepalive", "65535"],
    &["pack", "--node", "x", "--segment-mru", "0"],
    &[
        "pack",
        "--node",
        "x",
        "--segment-mru",
        "18446744073709551615",
    ],
    &["pack", "--node", "x", "--transfer-mru", "0"],
    &[
        "pack",
        "--node",
        "x",
        "--transfer-mru",
        "18446744073709551615",
    ],
    &["pack", "--node", "x", "--peer-segment", "1"],
    &[
        "pack",
        "--node",
        "x",
        "--peer-segment",
        "18446744073709551615",
    ],
    &["pack", "--node", "x", "--peer-transfer", "0"],
    &["pack", "--node", "x", "--announce", "1048576"],
];

#[test]
fn ends_of_ranges(rt: HostRuntime) -> Result<(), Fail> {
    all_come_to(&rt, rt.alloc(), "taken", &ENDS_OF_RANGES)
}

/// Lines with a file, and its name.
static FILES: [(&[&str], &str); 5] = [
    (&["list", "f"], "f"),
    (&["list", ""], ""),
    (&["list", "--", "-x"], "-x"),
    (&["unpack", "--payload", "--", "--payload"], "--payload"),
    (&["list", "list"], "list"),
];

/// Checks that a line names this file.
fn names_file(rt: &impl Abort, alloc: Global, line: &[&str], file: &str) -> Result<(), Fail> {
    let invocation = taken(alloc, line)?;
    assert!(rt; invocation.file.as_deref() == Some(file), "{line:?}");
    Ok(())
}

#[test]
fn files(rt: HostRuntime) -> Result<(), Fail> {
    for &(line, file) in &FILES {
        names_file(&rt, rt.alloc(), line, file)?;
    }
    Ok(())
}

/// The result of `options`. `None`: there was no memory, and a line on standard output says so.
fn returned(
    rt: &(impl AllocGlobal + Print),
    words: &[String],
) -> Result<Option<Result<Invocation, UsageFault>>, Fail> {
    match options(rt.alloc(), words) {
        Err(UsageFault::Memory) => {
            println!(rt; "out of memory")?;
            Ok(None)
        }
        other => Ok(Some(other)),
    }
}

/// Whether `options` returns these options and this file. If not, there was no memory.
fn is_taken(
    rt: &(impl Abort + AllocGlobal + Print),
    words: &[String],
    expected: &Options,
    file: Option<&str>,
) -> Result<bool, Fail> {
    match returned(rt, words)? {
        None => Ok(false),
        Some(Ok(invocation)) => {
            assert!(rt; invocation.options == *expected);
            assert!(rt; invocation.file.as_deref() == file);
            Ok(true)
        }
        Some(other) => Err(Fail::from(name_of(&other))),
    }
}

/// Calls `options` twice, and checks that at least one call returns these options and this file.
///
/// The other call may report that there is no memory: `tests/gate/refused-memory` refuses each
/// request in turn. If a request for the words themselves was refused, no call is made.
fn asks_for(
    rt: &(impl Abort + AllocGlobal + Print),
    line: &[&str],
    expected: &Options,
    file: Option<&str>,
) -> Result<(), Fail> {
    let Ok(words) = words_of(rt.alloc(), line) else {
        return Ok(());
    };
    let first = is_taken(rt, words.as_slice(), expected, file)?;
    let second = is_taken(rt, words.as_slice(), expected, file)?;
    assert!(rt; first || second);
    Ok(())
}

/// The text of the fault that `options` returns, which has this name. `None`: there was no memory.
fn text_returned(
    rt: &(impl Abort + AllocGlobal + Print),
    words: &[String],
    expected: &str,
) -> Result<Option<String>, Fail> {
    let Some(outcome) = returned(rt, words)? else {
        return Ok(None);
    };
    let (name, text) = match outcome {
        Err(UsageFault::Help(text)) => ("help", text),
        Err(UsageFault::Words(text)) => ("words", text),
        other => return Err(Fail::from(name_of(&other))),
    };
    assert!(rt; name == expected);
    Ok(Some(text))
}

/// Calls `options` twice, and checks that at least one call returns a fault of this name.
///
/// If both calls return it, their texts are the same. For memory, see `asks_for`.
fn returns_text(
    rt: &(impl Abort + AllocGlobal + Print),
    line: &[&str],
    expected: &str,
) -> Result<(), Fail> {
    let Ok(words) = words_of(rt.alloc(), line) else {
        return Ok(());
    };
    let first = text_returned(rt, words.as_slice(), expected)?;
    let second = text_returned(rt, words.as_slice(), expected)?;
    assert!(rt; first.is_some() || second.is_some());
    if let (Some(first), Some(second)) = (first, second) {
        assert!(rt; first == second);
    }
    Ok(())
}

#[test]
fn memory_of_list(rt: HostRuntime) -> Result<(), Fail> {
    asks_for(&rt, &["list", "f"], &Options::List, Some("f"))
}

#[test]
fn memory_of_unpack(rt: HostRuntime) -> Result<(), Fail> {
    asks_for(
        &rt,
        &[
            "unpack",
            "--payload",
            "--keep-going",
            "--transfer",
            "7",
            "f",
        ],
        &Options::Unpack(GOING_ON_WITH_SEVEN),
        Some("f"),
    )
}

#[test]
fn memory_of_blocks(rt: HostRuntime) -> Result<(), Fail> {
    asks_for(
        &rt,
        &["blocks", "--keep-going", "--transfer", "7", "f"],
        &Options::Blocks(BLOCKS_OF_SEVEN),
        Some("f"),
    )
}

#[test]
fn memory_of_check(rt: HostRuntime) -> Result<(), Fail> {
    asks_for(
        &rt,
        &[
            "check",
            "--must",
            "--own",
            "ipn:1.0",
            "--peer-segment",
            "8",
            "--peer-transfer",
            "9",
            "f",
        ],
        &judged(true, "ipn:1.0", Some(8), Some(9))?,
        Some("f"),
    )
}

#[test]
fn memory_of_pack(rt: HostRuntime) -> Result<(), Fail> {
    asks_for(&rt, ALL_OF_PACK, &Options::Pack(all_of_pack()?), Some("f"))
}

#[test]
fn memory_of_help(rt: HostRuntime) -> Result<(), Fail> {
    returns_text(&rt, &["pack", "--help"], "help")
}

#[test]
fn memory_of_a_wrong_word(rt: HostRuntime) -> Result<(), Fail> {
    returns_text(&rt, &["lists"], "words")
}

#[test]
fn memory_of_a_wrong_number(rt: HostRuntime) -> Result<(), Fail> {
    returns_text(&rt, &["unpack", "--transfer", "-1"], "words")
}
