//! The command of `clap` that describes the program's arguments and help texts.
#![tactic(auto, using(crate::proofs::Builds::settings))]

ghost use Rattle.std.specs.Prelude.{◌≡◌, [], ◌∷◌, codes, IfOk, true};
ghost use Rattle.clap.specs.Words.{app_of};
ghost use Rattle.link_tools_command.specs.Building.{AddsArguments, IsLocalArgOfRule, IsCommandOfShape};
ghost use Rattle.link_tools_command.specs.Table.{any_u16, any_u64, blocks_words, check_words, file, flag, list_words, number, number_or, one_or_more, option, pack_words, program, table, tool, unpack_words, up_to_1048576};

use clap::builder::ValueParser;
use clap::{Arg, ArgAction, Command, value_parser};
use std::alloc::{AllocError, Global};

/// A help text, with an example of `list` after it.
macro_rules! with_listing {
    ($text:literal) => {
        concat!(
            $text,
            "

Example:
  $ tcpclkit list session.tcpcl
  0 contact version=4 flags=00
  6 sess-init keepalive=60 segment-mru=65536 transfer-mru=1048576 node=ipn:1.0 items=0
  38 xfer-segment flags=03 id=0 items=0 length=34"
        )
    };
}

const ABOUT: &str = "Lists, unpacks, checks and makes recorded sessions of TCPCLv4 (RFC 9174)";

const HELP: &str = with_listing!(
    "Each command reads FILE, or standard input, and has its own --help.

A recording is what one side of a session sent: a contact header, and then messages.
A capture (pcap, pcapng) or a compressed file (gzip, zstd) is no recording. The report
then says `byte 0: not a contact header`. The manual page says how to get a recording
out of a capture.

Exit status:
  0  the input was read to its end, and nothing was wrong with it; or help was asked for
  1  unpack, blocks: some transfer is not good, or with --keep-going some message was
     out of order; check: some rule is broken
  2  the arguments are wrong; standard error says how
  3  a fault of the input stopped the run
  4  the file could not be opened, reading or writing failed, the input is too long,
     or there was no memory"
);

const LIST_ABOUT: &str = "Writes a line for the contact header and each message of a recording";

const LIST_HELP: &str = with_listing!(
    "A recording is what one side of a session sent: a contact header, and then messages.
A capture (pcap, pcapng) or a compressed file (gzip, zstd) is no recording. The report
then says `byte 0: not a contact header`.

Exit status:
  0  the recording was read to its end, and nothing was wrong with it
  2  the arguments are wrong; standard error says how
  3  a fault of the recording stopped the run
  4  the file could not be opened, reading or writing failed, the input is too long,
     or there was no memory"
);

const UNPACK_ABOUT: &str =
    "Writes the data of a recording's transfers, and a line for each on standard error";

const UNPACK_HELP: &str =
    "A recording is what one side of a session sent: a contact header, and then messages.
A capture (pcap, pcapng) or a compressed file (gzip, zstd) is no recording. The report
then says `byte 0: not a contact header`.

A message that is out of order stops the run. With --keep-going, it has a line in the
report, and the run goes on. A segment whose transfer is not open is then left out.

Exit status:
  0  each transfer is good, and nothing was wrong with the recording
  1  the recording was read to its end, and some transfer is not good, or with
     --keep-going some message was out of order
  2  the arguments are wrong; standard error says how
  3  a fault of the recording stopped the run
  4  the file could not be opened, reading or writing failed, the input is too long,
     or there was no memory

Example:
  $ tcpclkit unpack --payload session.tcpcl > payloads
  transfer 0 start=0 written=5 length=34 good source=ipn:1.1 time=0 sequence=0 destination=ipn:2.1 payload=5";

const BLOCKS_ABOUT: &str = "Writes a line for each block of the bundles in a recording";

const BLOCKS_HELP: &str =
    "Offsets are those of a bundle's bytes. After the blocks of a transfer comes a line that says
whether it is good, as the report of unpack does. Standard error has fault lines alone.

With --bundles, FILE has bundles, one after another, such as the output of unpack.

Exit status:
  0  each transfer is good, and nothing was wrong with the input
  1  the recording was read to its end, and some transfer is not good, or with
     --keep-going some message was out of order
  2  the arguments are wrong; standard error says how
  3  a fault of the recording, or with --bundles a bad bundle, stopped the run
  4  the file could not be opened, reading or writing failed, the input is too long,
     or there was no memory

Example:
  $ tcpclkit blocks --transfer 0 session.tcpcl
  0 primary at=1 length=21 flags=00 check=none destination=ipn:2.1 source=ipn:1.1 report-to=dtn:none time=0 sequence=0 lifetime=0
  0 block 1 at=22 length=11 type=1/payload flags=00 check=none data-at=28 data-length=5
  0 end length=34 good";

const CHECK_ABOUT: &str = "Writes a line for each judged rule of the RFCs that a recording breaks";

const CHECK_HELP: &str =
    "A line has an offset, the level (must or should), the rule, and what broke it. The offset is that
of a message, or of the first segment of a transfer. The level is must if an RFC says so, and if
the recording of one side proves that the rule is broken.

Rules of messages bind the sender of the recording. Rules of bundles bind the sender, the source of
the bundle, or the node that added a security block. With --own, a rule that binds the source judges
only bundles from NODE, and one that binds the adder judges only security blocks from NODE.

The run goes on after a message that is out of order. Standard error has a line only for a fault
that stops the run.

With --bundles, FILE has bundles, one after another, such as the output of unpack. Only the rules
of bundles are then judged, and an offset is that of a bundle in the input.

Exit status:
  0  no line was written, and nothing was wrong with the input
  1  the input was read to its end, and some line was written
  2  the arguments are wrong; standard error says how
  3  a fault of the recording, or with --bundles a bad bundle, stopped the run
  4  the file could not be opened, reading or writing failed, the input is too long,
     or there was no memory

Example:
  $ tcpclkit check session.tcpcl
  38 must primary-check transfer=0
  38 must age transfer=0 blocks=0";

const PACK_ABOUT: &str =
    "Writes bundles as the stream of a sender, and a line for each on standard error";

const PACK_HELP: &str = "Exit status:
  0  the bundles were read to their end, and all of them were packed
  2  the arguments are wrong; standard error says how
  3  a bundle that is not whole, is bad or is too long for the peer stopped the run
  4  the file could not be opened, reading or writing failed, the input is too long,
     or there was no memory

Example:
  $ tcpclkit pack --node ipn:1.0 --peer-segment 17 bundles > session.tcpcl
  bundle 0 segments=2 length=34 source=ipn:1.1 time=0 sequence=0 destination=ipn:2.1 payload=5";

/// Makes the command `tcpclkit` with its tools.
pub(crate) fn tcpclkit<'a>(alloc: Global) -> Result<Command<'a>, AllocError>
    ensures { IfOk result (λ command. app_of command ≡ table) }
{
    let list = list_command(alloc)?;
    let one = program(alloc).subcommand(list)?;
    let unpack = unpack_command(alloc)?;
    let two = one.subcommand(unpack)?;
    let blocks = blocks_command(alloc)?;
    let three = two.subcommand(blocks)?;
    let check = check_command(alloc)?;
    let four = three.subcommand(check)?;
    let pack = pack_command(alloc)?;
    four.subcommand(pack)
}

/// Makes the command `tcpclkit` without its tools.
fn program<'a>(alloc: Global) -> Command<'a>
    ensures { app_of result ≡ record { top = program; subs = [] } }
{
    Command::new(alloc, "tcpclkit")
        .version("0.4.0")
        .about(ABOUT)
        .after_help(HELP)
        .subcommand_required(true)
}

/// Makes the command of the tool `list`.
#[tactic(auto, using(crate::proofs::Builds::tools), unfolding(crate::specs::Table::list_words))]
fn list_command<'a>(alloc: Global) -> Result<Command<'a>, AllocError>
    ensures { IfOk result (IsCommandOfShape list_words) }
{
    tool(alloc, "list", LIST_ABOUT, LIST_HELP).arg(file(alloc))
}

/// Makes the command of the tool `unpack`.
fn unpack_command<'a>(alloc: Global) -> Result<Command<'a>, AllocError>
    ensures { IfOk result (IsCommandOfShape unpack_words) }
{
    let tool = tool(alloc, "unpack", UNPACK_ABOUT, UNPACK_HELP);
    let one = with_selection(alloc, tool)?;
    let two = one.arg(keep_going(alloc))?;
    two.arg(file(alloc))
}

/// Adds the options of `unpack` that select the data: `--transfer` and `--payload`.
fn with_selection<'a>(alloc: Global, tool: Command<'a>) -> Result<Command<'a>, AllocError>
    ensures { IfOk result (AddsArguments (
        number (codes "transfer") any_u64
        ∷ flag (codes "payload")
        ∷ []) tool.entry) }
{
    let transfer = transfer(
        alloc,
        "The ID of the transfers whose data is written, 0 to 18446744073709551615 [default: all]",
    );
    let one = tool.arg(transfer)?;
    let payload = flag(alloc, "payload", "Write the payload of each bundle alone");
    one.arg(payload)
}

/// Makes the command of the tool `blocks`.
fn blocks_command<'a>(alloc: Global) -> Result<Command<'a>, AllocError>
    ensures { IfOk result (IsCommandOfShape blocks_words) }
{
    let tool = tool(alloc, "blocks", BLOCKS_ABOUT, BLOCKS_HELP);
    let one = with_shown(alloc, tool)?;
    let two = one.arg(bundles(alloc))?;
    two.arg(file(alloc))
}

/// Adds the options of `blocks` for recordings: `--transfer` and `--keep-going`.
fn with_shown<'a>(alloc: Global, tool: Command<'a>) -> Result<Command<'a>, AllocError>
    ensures { IfOk result (AddsArguments (
        number (codes "transfer") any_u64
        ∷ flag (codes "keep-going")
        ∷ []) tool.entry) }
{
    let transfer = transfer(
        alloc,
        "The ID of the transfers whose lines are written, 0 to 18446744073709551615 [default: all]",
    );
    let one = tool.arg(transfer)?;
    one.arg(keep_going(alloc))
}

/// Makes the command of the tool `check`.
fn check_command<'a>(alloc: Global) -> Result<Command<'a>, AllocError>
    ensures { IfOk result (IsCommandOfShape check_words) }
{
    let tool = tool(alloc, "check", CHECK_ABOUT, CHECK_HELP);
    let one = with_judged(alloc, tool)?;
    let two = one.arg(bundles(alloc))?;
    two.arg(file(alloc))
}

/// Adds the options of `check` for the rules that are judged.
fn with_judged<'a>(alloc: Global, tool: Command<'a>) -> Result<Command<'a>, AllocError>
    ensures { IfOk result (AddsArguments (
        flag (codes "must")
        ∷ option (codes "own")
        ∷ number (codes "peer-segment") any_u64
        ∷ number (codes "peer-transfer") any_u64
        ∷ []) tool.entry) }
{
    let must = flag(alloc, "must", "Leave out the rules of level should");
    let one = tool.arg(must)?;
    let two = one.arg(own(alloc))?;
    let segment = number(
        alloc,
        "peer-segment",
        any_u64(),
        "The longest segment that the peer takes, 0 to 18446744073709551615 bytes [default: not judged]",
    );
    let three = two.arg(segment)?;
    let transfer = number(
        alloc,
        "peer-transfer",
        any_u64(),
        "The longest transfer that the peer takes, 0 to 18446744073709551615 bytes [default: not judged]",
    );
    three.arg(transfer)
}

/// Makes the command of the tool `pack`.
#[tactic(auto, using(crate::proofs::Builds::tools), unfolding(crate::specs::Table::pack_words))]
fn pack_command<'a>(alloc: Global) -> Result<Command<'a>, AllocError>
    ensures { IfOk result (IsCommandOfShape pack_words) }
{
    let tool = tool(alloc, "pack", PACK_ABOUT, PACK_HELP);
    let one = with_sender(alloc, tool)?;
    let two = with_limits(alloc, one)?;
    with_form(alloc, two)
}

/// Adds the options of `pack` for the sender: node ID, keepalive interval and segment MRU.
fn with_sender<'a>(alloc: Global, tool: Command<'a>) -> Result<Command<'a>, AllocError>
    ensures { IfOk result (AddsArguments (
        record (option (codes "node")) { required = true }
        ∷ number_or (codes "keepalive") any_u16 (codes "60")
        ∷ number_or (codes "segment-mru") any_u64 (codes "65536")
        ∷ []) tool.entry) }
{
    let one = tool.arg(node(alloc))?;
    let two = one.arg(keepalive(alloc))?;
    two.arg(segment_mru(alloc))
}

/// Adds the options of `pack` for the sender's transfer MRU and for the limits of the peer.
fn with_limits<'a>(alloc: Global, tool: Command<'a>) -> Result<Command<'a>, AllocError>
    ensures { IfOk result (AddsArguments (
        number_or (codes "transfer-mru") any_u64 (codes "1048576")
        ∷ number_or (codes "peer-segment") one_or_more (codes "65536")
        ∷ number_or (codes "peer-transfer") any_u64 (codes "18446744073709551615")
        ∷ []) tool.entry) }
{
    let one = tool.arg(transfer_mru(alloc))?;
    let two = one.arg(peer_segment(alloc))?;
    two.arg(peer_transfer(alloc))
}

/// Adds the options of `pack` for announced lengths and for SESS_TERM, and the argument `[FILE]`.
fn with_form<'a>(alloc: Global, tool: Command<'a>) -> Result<Command<'a>, AllocError>
    ensures { IfOk result (AddsArguments (
        number_or (codes "announce") up_to_1048576 (codes "0")
        ∷ flag (codes "end")
        ∷ file
        ∷ []) tool.entry) }
{
    let announce = number(
        alloc,
        "announce",
        up_to_1048576(),
        "Announce the length of bundles of more than one segment and at most N bytes, 0 to 1048576",
    );
    let one = tool.arg(announce.default_value("0"))?;
    let end = flag(alloc, "end", "End the stream with SESS_TERM");
    let two = one.arg(end)?;
    two.arg(file(alloc))
}

/// Makes the argument for the option `--transfer` of `unpack` and `blocks`.
fn transfer<'a>(alloc: Global, help: &'a str) -> Arg<'a>
    ensures { IsLocalArgOfRule (number (codes "transfer") any_u64) result }
{
    let transfer = number(alloc, "transfer", any_u64(), help);
    transfer.value_name("ID")
}

/// Makes the argument for the flag `--keep-going` of `unpack` and `blocks`.
fn keep_going<'a>(alloc: Global) -> Arg<'a>
    ensures { IsLocalArgOfRule (flag (codes "keep-going")) result }
{
    flag(
        alloc,
        "keep-going",
        "Go on after a fault of the order of messages",
    )
}

/// Makes the argument for the flag `--bundles` of `blocks` and `check`.
fn bundles<'a>(alloc: Global) -> Arg<'a>
    ensures { IsLocalArgOfRule (flag (codes "bundles")) result }
{
    flag(
        alloc,
        "bundles",
        "Read bundles, one after another, in place of a recording",
    )
}

/// Makes the argument for the option `--own` of `check`.
fn own<'a>(alloc: Global) -> Arg<'a>
    ensures { IsLocalArgOfRule (option (codes "own")) result }
{
    option(
        alloc,
        "own",
        "NODE",
        "The node whose bundles and security blocks are judged, such as ipn:1.0 [default: those of every node]",
    )
}

/// Makes the argument for the option `--node` of `pack`.
fn node<'a>(alloc: Global) -> Arg<'a>
    ensures { IsLocalArgOfRule (record (option (codes "node")) { required = true }) result }
{
    let node = option(
        alloc,
        "node",
        "TEXT",
        "The sender's node ID, of at most 1024 bytes of UTF-8; empty for none",
    );
    node.required(true)
}

/// Makes the argument for the option `--keepalive` of `pack`.
fn keepalive<'a>(alloc: Global) -> Arg<'a>
    ensures { IsLocalArgOfRule (number_or (codes "keepalive") any_u16 (codes "60")) result }
{
    let keepalive = number(
        alloc,
        "keepalive",
        any_u16(),
        "The keepalive interval in seconds, 0 to 65535",
    );
    keepalive.default_value("60")
}

/// Makes the argument for the option `--segment-mru` of `pack`.
fn segment_mru<'a>(alloc: Global) -> Arg<'a>
    ensures { IsLocalArgOfRule (number_or (codes "segment-mru") any_u64 (codes "65536")) result }
{
    let segment_mru = number(
        alloc,
        "segment-mru",
        any_u64(),
        "The longest segment that the sender takes, 0 to 18446744073709551615 bytes",
    );
    segment_mru.default_value("65536")
}

/// Makes the argument for the option `--transfer-mru` of `pack`.
fn transfer_mru<'a>(alloc: Global) -> Arg<'a>
    ensures { IsLocalArgOfRule (number_or (codes "transfer-mru") any_u64 (codes "1048576")) result }
{
    let transfer_mru = number(
        alloc,
        "transfer-mru",
        any_u64(),
        "The longest transfer that the sender takes, 0 to 18446744073709551615 bytes",
    );
    transfer_mru.default_value("1048576")
}

/// Makes the argument for the option `--peer-segment` of `pack`.
fn peer_segment<'a>(alloc: Global) -> Arg<'a>
    ensures { IsLocalArgOfRule
        (number_or (codes "peer-segment") one_or_more (codes "65536")) result }
{
    let peer_segment = number(
        alloc,
        "peer-segment",
        one_or_more(),
        "The longest segment that the peer takes, 1 to 18446744073709551615 bytes; none has more than 65536",
    );
    peer_segment.default_value("65536")
}

/// Makes the argument for the option `--peer-transfer` of `pack`.
fn peer_transfer<'a>(alloc: Global) -> Arg<'a>
    ensures { IsLocalArgOfRule (
        number_or (codes "peer-transfer") any_u64 (codes "18446744073709551615")) result }
{
    let peer_transfer = number(
        alloc,
        "peer-transfer",
        any_u64(),
        "The longest transfer that the peer takes, 0 to 18446744073709551615 bytes",
    );
    peer_transfer.default_value("18446744073709551615")
}

/// Makes a tool without its arguments; `about` and `help` are texts of its `--help`.
fn tool<'a>(alloc: Global, name: &'a str, about: &'a str, help: &'a str) -> Command<'a>
    ensures { IsCommandOfShape (tool name.entry.now []) result }
{
    Command::new(alloc, name).about(about).after_help(help)
}

/// Makes the argument `[FILE]`.
fn file<'a>(alloc: Global) -> Arg<'a>
    ensures { IsLocalArgOfRule file result }
{
    Arg::new(alloc, "file")
        .value_name("FILE")
        .help("The file to read; `-` or no FILE is standard input")
}

/// Makes a flag `--NAME`.
fn flag<'a>(alloc: Global, name: &'a str, help: &'a str) -> Arg<'a>
    ensures { IsLocalArgOfRule (flag name.entry.now) result }
{
    Arg::new(alloc, name)
        .long(name)
        .action(ArgAction::SetTrue)
        .help(help)
}

/// Makes an option `--NAME VALUE`. `value` is the word that the help text shows for VALUE.
fn option<'a>(alloc: Global, name: &'a str, value: &'a str, help: &'a str) -> Arg<'a>
    ensures { IsLocalArgOfRule (option name.entry.now) result }
{
    Arg::new(alloc, name)
        .long(name)
        .value_name(value)
        .help(help)
}

/// Makes an option `--NAME N`, whose value is a number in this range.
fn number<'a>(alloc: Global, name: &'a str, range: ValueParser<'a>, help: &'a str) -> Arg<'a>
    ensures { IsLocalArgOfRule (number name.entry.now range.entry) result }
{
    option(alloc, name, "N", help).value_parser(range)
}

/// The range of the numbers of 16 bits.
fn any_u16<'a>() -> ValueParser<'a>
    ensures { result ≡ any_u16 }
{
    value_parser!(u16)
}

/// The range of the numbers of 64 bits.
fn any_u64<'a>() -> ValueParser<'a>
    ensures { result ≡ any_u64 }
{
    value_parser!(u64)
}

/// The range of the numbers of 64 bits but 0.
fn one_or_more<'a>() -> ValueParser<'a>
    ensures { result ≡ one_or_more }
{
    value_parser!(u64).range(1..)
}

/// The range from 0 to 1048576, both included.
fn up_to_1048576<'a>() -> ValueParser<'a>
    ensures { result ≡ up_to_1048576 }
{
    value_parser!(u64).range(0..1_048_577)
}
