//! Reads the words of a command line by the command of `clap`.

ghost use Rattle.std.specs.Prelude.{◌≡◌, ◌^◌, ◌<◌, ◌⊎◌, codes, false, length, map, option_map, string_bytes, true, IfErr, IfNone, IfOk, IfSome, Some};
ghost use Rattle.clap.specs.Words.{first_of, found_of, kind_of, rows_of, subcommand_rows_of, takes};
ghost use Rattle.link_tools_command.specs.Table.{table};
ghost use Rattle.link_tools_command.specs.Invoked.{AreOptions, IsInvocationByWords, IsInvocationBy, IsInvocationOfTool, IsPackOptions, IsUnpackOptions, has_peer_limit, is_for_recordings, is_set, limits_bundles, mixes_inputs, number_in, number_of, own_names_no_node, text_of};
ghost use Rattle.link_tools_command.specs.Usage.{AreValidWords, MayBeFaultOfWords};
ghost use Rattle.link_tools_command.specs.Reading.{MayBeFaultOfMatches, MayBeFaultOfOwn, IsToolName, HasToolName, MayBeFaultOfClapError};

use crate::command::tcpclkit;
use crate::invocation::Invocation;
use crate::usage::UsageFault;
use clap::error::ErrorKind;
use clap::{ArgMatches, Error};
use link_rules_shared::names_node;
use link_tool_option_types::{
    BlockOptions, BundleCheckOptions, CheckOptions, NodeId, Options, PackOptions, PeerLimits,
    Wanted,
};
use std::alloc::{AllocError, Global};

/// Reads the words of a command line; the first word is the program's own name.
///
/// # Errors
///
/// - [`UsageFault::Help`]: `clap` finds a request for help or for the version in the words.
/// - [`UsageFault::Words`]: `clap` refuses the words. `clap` itself defines which words it takes.
/// - [`UsageFault::NodeTooLong`]: a node ID has more than 1,024 bytes.
/// - [`UsageFault::OwnNamesNoNode`]: the text of `--own` names no node.
/// - [`UsageFault::MixedInputs`]: `--bundles` comes with an option for recordings.
/// - [`UsageFault::LimitedBundles`]: `--bundles` comes with a limit of the peer.
/// - [`UsageFault::Memory`]: a request for memory was refused.
pub fn options(alloc: Global, words: &[String]) -> Result<Invocation, UsageFault>
    ensures ok { IfOk result (IsInvocationByWords (map string_bytes words.now)) }
    ensures taken { IfOk result (λ _. AreValidWords (map string_bytes words.now)) }
    ensures err { IfErr result (MayBeFaultOfWords (map string_bytes words.now)) }
    ensures passes { takes table (map string_bytes words.now) ≡ true
        → IfErr result (λ fault. (fault ≡ UsageFault.NodeTooLong)
        ⊎ ((fault ≡ UsageFault.OwnNamesNoNode)
        ⊎ ((fault ≡ UsageFault.MixedInputs)
        ⊎ ((fault ≡ UsageFault.LimitedBundles) ⊎ (fault ≡ UsageFault.Memory))))) }
{
    let command = match tcpclkit(alloc) {
        Ok(command) => command,
        Err(_) => return Err(UsageFault::Memory),
    };
    match command.try_get_matches_from(words) {
        Ok(matches) => invocation(alloc, &matches),
        Err(error) => Err(usage_fault(alloc, &error)),
    }
}

/// The invocation that the matches of the program ask for. They always have a tool.
fn invocation(alloc: Global, matches: &ArgMatches<'_>) -> Result<Invocation, UsageFault>
    requires { HasToolName (subcommand_rows_of matches.now) }
    ensures ok { IfOk result (IsInvocationOfTool (subcommand_rows_of matches.now)) }
    ensures err { IfErr result (MayBeFaultOfMatches (subcommand_rows_of matches.now)) }
{
    match matches.subcommand() {
        Some((name, tool)) => invocation_of(alloc, name, tool),
        // This never occurs: `clap` refuses words without a tool.
        None => Err(UsageFault::Memory),
    }
}

/// The invocation that the matches of this tool ask for.
fn invocation_of(alloc: Global, name: &str, tool: &ArgMatches<'_>) -> Result<Invocation, UsageFault>
    requires { IsToolName name.now }
    ensures ok { IfOk result (IsInvocationBy name.now (rows_of (found_of tool.now))) }
    ensures err { IfErr result
        (MayBeFaultOfMatches (Some (name.now, rows_of (found_of tool.now)))) }
{
    let options = options_of(name, tool)?;
    match file(alloc, tool) {
        Ok(file) => Ok(Invocation { options, file }),
        Err(_) => Err(UsageFault::Memory),
    }
}

/// The options of the tool of this name.
fn options_of(name: &str, tool: &ArgMatches<'_>) -> Result<Options, UsageFault>
    requires { IsToolName name.now }
    ensures memory { IfErr result (λ fault. fault ≡ UsageFault.Memory → ⊥) }
    ensures ok { IfOk result (AreOptions name.now (rows_of (found_of tool.now))) }
    ensures err { IfErr result
        (MayBeFaultOfMatches (Some (name.now, rows_of (found_of tool.now)))) }
{
    match name {
        "unpack" => Ok(Options::Unpack(wanted(tool))),
        "blocks" => blocks(tool),
        "check" => check(tool),
        "pack" => match pack_options(tool) {
            Some(options) => Ok(Options::Pack(options)),
            None => Err(UsageFault::NodeTooLong),
        },
        // The only other name is `list`.
        _ => Ok(Options::List),
    }
}

/// A copy of the value of FILE, if there is one. The error is a lack of memory.
fn file(alloc: Global, tool: &ArgMatches<'_>) -> Result<Option<String>, AllocError>
    ensures { IfOk result (λ file. option_map string_bytes file
        ≡ first_of (codes "file") (rows_of (found_of tool.now))) }
{
    match text(tool, "file") {
        Some(name) => Ok(Some(String::from_str(alloc, name)?)),
        None => Ok(None),
    }
}

/// The options of `unpack`.
fn wanted(tool: &ArgMatches<'_>) -> Wanted
    ensures { IsUnpackOptions (rows_of (found_of tool.now)) result }
{
    Wanted {
        only: number_in(tool, "transfer"),
        payload: is_set(tool, "payload"),
        keep_going: is_set(tool, "keep-going"),
    }
}

/// The options of `blocks`. It is a fault if an option for recordings comes with `--bundles`.
fn blocks(tool: &ArgMatches<'_>) -> Result<Options, UsageFault>
    ensures ok { IfOk result (AreOptions (codes "blocks") (rows_of (found_of tool.now))) }
    ensures err { IfErr result (λ fault. (fault ≡ UsageFault.MixedInputs)
        × (mixes_inputs (rows_of (found_of tool.now)) ≡ true)) }
{
    if !is_set(tool, "bundles") {
        return Ok(Options::Blocks(BlockOptions {
            only: number_in(tool, "transfer"),
            keep_going: is_set(tool, "keep-going"),
        }));
    }
    if is_for_recordings(tool) {
        return Err(UsageFault::MixedInputs);
    }
    Ok(Options::BundleBlocks)
}

/// Whether an option of `blocks` for recordings was given.
fn is_for_recordings(tool: &ArgMatches<'_>) -> bool
    ensures { result ≡ is_for_recordings (rows_of (found_of tool.now)) }
{
    text(tool, "transfer").is_some() || is_set(tool, "keep-going")
}

/// The options of `check`. It is a fault if a limit of the peer comes with `--bundles`.
fn check(tool: &ArgMatches<'_>) -> Result<Options, UsageFault>
    ensures ok { IfOk result (AreOptions (codes "check") (rows_of (found_of tool.now))) }
    ensures err { IfErr result (λ fault. MayBeFaultOfOwn (rows_of (found_of tool.now)) fault
        ⊎ ((fault ≡ UsageFault.LimitedBundles)
        × (limits_bundles (rows_of (found_of tool.now)) ≡ true))) }
{
    let must = is_set(tool, "must");
    let own = own(tool)?;
    if !is_set(tool, "bundles") {
        let peer = PeerLimits {
            segment: number_in(tool, "peer-segment"),
            transfer: number_in(tool, "peer-transfer"),
        };
        return Ok(Options::Check(CheckOptions { must, own, peer }));
    }
    if has_peer_limit(tool) {
        return Err(UsageFault::LimitedBundles);
    }
    Ok(Options::BundleCheck(BundleCheckOptions { must, own }))
}

/// The value of `--own`, which is empty if it was not given. It is a fault if the value is too long
/// or names no node.
#[tactic(auto, unfolding(crate::specs::Invoked::text_of))]
fn own(tool: &ArgMatches<'_>) -> Result<NodeId, UsageFault>
    ensures value { IfOk result (λ own.
        own.items ≡ text_of (codes "own") (rows_of (found_of tool.now))) }
    ensures named { IfOk result (λ _.
        own_names_no_node (rows_of (found_of tool.now)) ≡ false) }
    ensures err { IfErr result (MayBeFaultOfOwn (rows_of (found_of tool.now))) }
{
    let Some(text) = text(tool, "own") else {
        return Ok(NodeId::new());
    };
    let Ok(own) = NodeId::try_from(text.as_bytes()) else {
        return Err(UsageFault::NodeTooLong);
    };
    if !names_node(text.as_bytes()) {
        return Err(UsageFault::OwnNamesNoNode);
    }
    Ok(own)
}

/// Whether a limit of the peer was given to `check`.
fn has_peer_limit(tool: &ArgMatches<'_>) -> bool
    ensures { result ≡ has_peer_limit (rows_of (found_of tool.now)) }
{
    text(tool, "peer-segment").is_some() || text(tool, "peer-transfer").is_some()
}

/// The options of `pack`, or `None` if the node ID is too long.
///
/// `max` and `min` change no number that `clap` takes, because the options have the same bounds.
fn pack_options(tool: &ArgMatches<'_>) -> Option<PackOptions>
    ensures some { IfSome result (IsPackOptions (rows_of (found_of tool.now))) }
    ensures none { IfNone result (1024
        < length (text_of (codes "node") (rows_of (found_of tool.now)))) }
{
    let node = NodeId::try_from(node(tool).as_bytes()).ok()?;
    Some(PackOptions {
        node,
        keepalive: keepalive(tool),
        segment_mru: number_of(tool, "segment-mru"),
        transfer_mru: number_of(tool, "transfer-mru"),
        peer_segment: number_of(tool, "peer-segment").max(1),
        peer_transfer: number_of(tool, "peer-transfer"),
        announce: number_of(tool, "announce").min(1_048_576),
        send_term: is_set(tool, "end"),
    })
}

/// The value of `--node`, which is a required option.
#[tactic(auto, unfolding(crate::specs::Invoked::text_of))]
fn node<'a>(tool: &ArgMatches<'a>) -> &'a str
    ensures { result.now ≡ text_of (codes "node") (rows_of (found_of tool.now)) }
{
    text(tool, "node").unwrap_or("")
}

/// The value of `--keepalive`, in seconds. The option has a default, so the 0 is not used.
fn keepalive(tool: &ArgMatches<'_>) -> u16
    ensures { result ≡ number_of (2 ^ 16) (codes "keepalive") (rows_of (found_of tool.now)) }
{
    tool.get_one::<u16>("keepalive").unwrap_or(0)
}

/// The value of a numeric option that has a default. So the matches always have a value, and the 0
/// is not used.
#[tactic(auto, unfolding(crate::specs::Invoked::number_of))]
fn number_of(tool: &ArgMatches<'_>, name: &str) -> u64
    ensures { result ≡ number_of (2 ^ 64) name.now (rows_of (found_of tool.now)) }
{
    number_in(tool, name).unwrap_or(0)
}

/// The value of a numeric option, or `None` if it was not given.
fn number_in(tool: &ArgMatches<'_>, name: &str) -> Option<u64>
    ensures { result ≡ number_in (2 ^ 64) name.now (rows_of (found_of tool.now)) }
{
    tool.get_one::<u64>(name)
}

/// Whether this flag was given. Its value is then `true`.
#[tactic(auto, unfolding(crate::specs::Invoked::is_set))]
fn is_set(tool: &ArgMatches<'_>, name: &str) -> bool
    ensures { result ≡ is_set name.now (rows_of (found_of tool.now)) }
{
    match text(tool, name) {
        Some(text) => text == "true",
        None => false,
    }
}

/// The value of an argument as text, or `None` if it has none.
#[tactic(auto, using(crate::proofs::Numbers::texts))]
fn text<'a>(tool: &ArgMatches<'a>, name: &str) -> Option<&'a str>
    ensures { option_map (λ text. text.now) result
        ≡ first_of name.now (rows_of (found_of tool.now)) }
{
    tool.get_str(name)
}

/// The fault for an error of `clap`. If there is no memory for the text of the error, the fault is
/// `Memory`.
fn usage_fault(alloc: Global, error: &Error) -> UsageFault
    ensures kind { MayBeFaultOfClapError (kind_of error.now) result }
    ensures memory { kind_of error.now ≡ ErrorKind.OutOfMemory → result ≡ UsageFault.Memory }
{
    let Ok(text) = format!(in alloc; "{error}") else {
        return UsageFault::Memory;
    };
    match error.kind() {
        ErrorKind::DisplayHelp | ErrorKind::DisplayVersion => UsageFault::Help(text),
        ErrorKind::OutOfMemory => UsageFault::Memory,
        _ => UsageFault::Words(text),
    }
}
