//! Tests of the texts of the command line: help, mistakes, and the program's own messages.

use crate::options::{name_of, words_of};
use link_tools_command::{UsageFault, options, usage_exit};
use std::alloc::Global;
use std::process::Abort;
use std::test::Fail;

/// The text of the fault that is returned for a line.
fn text_of(alloc: Global, line: &[&str]) -> Result<String, Fail> {
    let words = words_of(alloc, line)?;
    match options(alloc, words.as_slice()) {
        Err(UsageFault::Help(text) | UsageFault::Words(text)) => Ok(text),
        other => Err(Fail::from(name_of(&other))),
    }
}

/// Lines that ask for a help text, and parts of the text.
static HELP_TEXTS: [(&[&str], &[&str]); 7] = [
    (
        &["--help"],
        &[
            "Usage: tcpclkit <COMMAND>",
            "unpack",
            "check",
            "Exit status:",
            "Example:",
        ],
    ),
    (
        &["list", "--help"],
        &["Usage: tcpclkit list [FILE]", "Exit status:", "Example:"],
    ),
    (
        &["unpack", "--help"],
        &[
            "--transfer <ID>",
            "--payload",
            "--keep-going",
            "Exit status:",
            "Example:",
        ],
    ),
    (
        &["blocks", "--help"],
        &[
            "--transfer <ID>",
            "--keep-going",
            "--bundles",
            "Exit status:",
            "Example:",
        ],
    ),
    (
        &["check", "--help"],
        &[
            "Usage: tcpclkit check [OPTIONS] [FILE]",
            "--must",
            "--own <NODE>",
            "such as ipn:1.0 [default: those of every node]",
            "--peer-segment <N>",
            "0 to 18446744073709551615 bytes [default: not judged]",
            "--peer-transfer <N>",
            "0 to 18446744073709551615 bytes [default: not judged]",
            "--bundles",
            "Rules of messages bind the sender of the recording.",
            "Exit status:",
            "Example:",
            "38 must age transfer=0 blocks=0",
        ],
    ),
    (
        &["pack", "--help"],
        &[
            "--node <TEXT>",
            "--keepalive <N>",
            "0 to 65535 [default: 60]",
            "--segment-mru <N>",
            "[default: 65536]",
            "--transfer-mru <N>",
            "[default: 1048576]",
            "--peer-segment <N>",
            "--peer-transfer <N>",
            "[default: 18446744073709551615]",
            "--announce <N>",
            "0 to 1048576 [default: 0]",
            "--end",
            "Exit status:",
            "Example:",
        ],
    ),
    (&["--version"], &["tcpclkit 0.4.0\n"]),
];

/// Checks that a text has this part.
fn has_part(rt: &impl Abort, text: &str, part: &str) {
    assert!(rt; text.contains(part), "without {part:?}: {text}");
}

/// Checks that a text is there for a line, and that it has these parts.
fn has_parts(rt: &impl Abort, alloc: Global, line: &[&str], parts: &[&str]) -> Result<(), Fail> {
    let text = text_of(alloc, line)?;
    for part in parts {
        has_part(rt, text.as_str(), part);
    }
    Ok(())
}

/// Each help text has the usage, the options with ranges and defaults, the statuses and an example.
#[test]
fn texts_of_help(rt: HostRuntime) -> Result<(), Fail> {
    for &(line, parts) in &HELP_TEXTS {
        has_parts(&rt, rt.alloc(), line, parts)?;
    }
    Ok(())
}

/// Lines with `help`, and the lines with `--help` that have the same text.
static COMMAND_HELP: [(&[&str], &[&str]); 6] = [
    (&["help"], &["--help"]),
    (&["help", "list"], &["list", "--help"]),
    (&["help", "unpack"], &["unpack", "--help"]),
    (&["help", "blocks"], &["blocks", "--help"]),
    (&["help", "check"], &["check", "--help"]),
    (&["help", "pack"], &["pack", "--help"]),
];

/// Checks that the texts of two lines are the same.
fn has_same_text(rt: &impl Abort, alloc: Global, line: &[&str], same: &[&str]) -> Result<(), Fail> {
    let text = text_of(alloc, line)?;
    let expected = text_of(alloc, same)?;
    assert!(rt; text == expected, "{line:?}: {text}{expected}");
    Ok(())
}

/// The texts of `help` and `help NAME` are those of `--help` and `NAME --help`.
#[test]
fn texts_of_the_command_help(rt: HostRuntime) -> Result<(), Fail> {
    for &(line, same) in &COMMAND_HELP {
        has_same_text(&rt, rt.alloc(), line, same)?;
    }
    Ok(())
}

/// Lines with wrong words, and two parts of their text.
static TEXTS_OF_WRONG_WORDS: [(&[&str], &str, &str); 5] = [
    (&[], "requires a subcommand", "Usage: tcpclkit <COMMAND>"),
    (
        &["pack", "--node", "x", "--peer-segment", "0"],
        "'--peer-segment <N>': 0 is not in 1..18446744073709551615",
        "For more information",
    ),
    (&["pack"], "--node <TEXT>", "Usage: tcpclkit pack"),
    (
        &["pack", "--node", "x", "--announce", "1048577"],
        "0..=1048576",
        "For more information",
    ),
    (
        &["list", "--payload"],
        "unexpected argument",
        "Usage: tcpclkit list",
    ),
];

/// The text for wrong words says what is wrong, and has the usage or says how to find it.
#[test]
fn texts_of_wrong_words(rt: HostRuntime) -> Result<(), Fail> {
    for &(line, wrong, usage) in &TEXTS_OF_WRONG_WORDS {
        has_parts(&rt, rt.alloc(), line, &[wrong, usage])?;
    }
    Ok(())
}

/// Checks how the program ends after this fault.
fn ends(rt: &impl Abort, fault: &UsageFault, exit: (u8, &'static str)) {
    assert_eq!(rt; usage_exit(fault), exit);
}

#[test]
fn ends_of_the_program(rt: HostRuntime) {
    ends(&rt, &UsageFault::Help(String::new(rt.alloc())), (0, ""));
    ends(&rt, &UsageFault::Words(String::new(rt.alloc())), (2, ""));
    let text = "tcpclkit: node id longer than 1024 bytes";
    ends(&rt, &UsageFault::NodeTooLong, (2, text));
    let text = "tcpclkit: --own names no node";
    ends(&rt, &UsageFault::OwnNamesNoNode, (2, text));
    let text = "tcpclkit: --bundles goes with no other option";
    ends(&rt, &UsageFault::MixedInputs, (2, text));
    let text = "tcpclkit: --bundles goes with neither --peer-segment nor --peer-transfer";
    ends(&rt, &UsageFault::LimitedBundles, (2, text));
    ends(&rt, &UsageFault::Memory, (4, "tcpclkit: out of memory"));
}
