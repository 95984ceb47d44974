//! Laws over the definitions of the tools.
//!
//! The contract of each function is a law, and the function does nothing when it runs. The calls in
//! it do nothing either: the proof of the law uses their contracts.

ghost use Rattle.std.specs.Prelude.{◌≡◌, ◌<◌, ◌≤◌, ◌^◌, true, List, ℕ, length};
ghost use Rattle.link_tool_option_types.specs.declared.wanted.Wanted.{Wanted};
ghost use Rattle.link_tool_option_types.specs.declared.blocks.BlockOptions.{BlockOptions};
ghost use Rattle.link_tool_option_types.specs.declared.check.BundleCheckOptions.{BundleCheckOptions};
ghost use Rattle.link_tool_option_types.specs.declared.check.CheckOptions.{CheckOptions};
ghost use Rattle.link_tool_option_types.specs.declared.pack.PackOptions.{PackOptions};
ghost use Rattle.link_wire.specs.Bytes.{AreBytes};
ghost use Rattle.link_tool_list.specs.Listing.{list_tool};
ghost use Rattle.link_run.specs.Made.{tool_of};
ghost use Rattle.link_run_judge.specs.Unpacking.{unpack_tool};
ghost use Rattle.link_tool_blocks.specs.Bundles.{bundle_blocks_tool};
ghost use Rattle.link_tool_blocks.specs.Showing.{blocks_tool};
ghost use Rattle.link_tool_check.specs.Bundles.{bundle_check_tool};
ghost use Rattle.link_tool_check.specs.Checking.{check_tool};
ghost use Rattle.link_tool_pack.specs.Packing.{pack_tool};
ghost use Rattle.link_tools_laws.specs.Checked.{HasOnlyAllowedFaults};
ghost use Rattle.link_tools_laws.specs.Cuts.{going_on, stopping, UnpacksToAllData, UnpacksToNonStrayData, ReportDividesOutput, ReportDividesOutputKeepGoing, IsKeepGoingIdleIfInOrder};
ghost use Rattle.link_tools_laws.specs.Listed.{ListsAsPacked};
ghost use Rattle.link_tools_laws.specs.PackedRules.{IsWithinPeerLimits, OptionsKeepInitRules, BreaksNoMoreThanItsBundles};
ghost use Rattle.link_tools_laws.specs.PackedStream.{IsStreamForPeer};
ghost use Rattle.link_tools_laws.specs.Prefix.{HasPrefixTexts};
ghost use Rattle.link_tools_laws.specs.Ranges.{OptionsFit, InputFits};
ghost use Rattle.link_tools_laws.specs.RoundTrip.{all, UnpacksToBundles};
ghost use Rattle.link_tools_laws.specs.SameLines.{HasSameBlockLinesUnpacked};
ghost use Rattle.link_tools_laws.specs.SameRules.{HasSameBundleRules};
ghost use Rattle.link_tools_laws.specs.Transfers.{by_transfers};

use link_tool_pack::PackOptions;
use link_wire::NodeId;
use link_wire::laws::exactly_one_reading;

/// The texts that some bytes determine are prefixes of the texts of every input that begins with
/// these bytes.
///
/// So a run that is stopped has written a prefix of what a run over all bytes writes.
pub fn sofar_is_prefix()
    ensures list { (bytes more : List ℕ) → HasPrefixTexts list_tool bytes more }
    ensures unpack { (wanted : Wanted) (bytes more : List ℕ)
        → HasPrefixTexts (unpack_tool wanted) bytes more }
    ensures blocks { (options : BlockOptions) (bytes more : List ℕ)
        → HasPrefixTexts (blocks_tool options) bytes more }
    ensures bundle_blocks { (bytes more : List ℕ) → HasPrefixTexts bundle_blocks_tool bytes more }
    ensures check { (options : CheckOptions) (bytes more : List ℕ)
        → HasPrefixTexts (check_tool options) bytes more }
    ensures bundle_check { (options : BundleCheckOptions) (bytes more : List ℕ)
        → HasPrefixTexts (bundle_check_tool options) bytes more }
    ensures pack { (options : PackOptions) (bytes more : List ℕ)
        → HasPrefixTexts (pack_tool options) bytes more }
{}

/// A packed stream keeps the limits of the peer, whatever the input is and however packing ends.
///
/// - The stream is read without a fault, and its messages are in order.
/// - Each segment has some data, and no more than the peer takes.
/// - No transfer has more data than the peer takes.
/// - Each announced length is the length of its transfer.
pub fn keeps_limits(options: &PackOptions, bytes: &[u8])
    ensures { IsStreamForPeer options.now ((pack_tool options.now).whole bytes.now).texts.output }
{
    options_fit(options);
    input_fits(bytes);
    exactly_one_reading();
}

/// Unpacking undoes packing, if the input is packed without a fault.
///
/// The output of unpacking the stream is then the input. The report has one line for each bundle,
/// numbered from 0, and each line says that the bundle is good.
#[tactic(auto, using(crate::proofs::Packed::is_packed, crate::proofs::Packed::gives_back))]
pub fn unpack_of_pack(options: &PackOptions, bytes: &[u8])
    ensures { ((pack_tool options.now).whole bytes.now).status ≡ 0
        → UnpacksToBundles options.now bytes.now
        ((pack_tool options.now).whole bytes.now).texts.output }
{
    options_fit(options);
    input_fits(bytes);
    exactly_one_reading();
}

/// A packed stream breaks no rules except those that its bundles break.
///
/// Let the input be packed without a fault, and let the limits of the peer be no less than those of
/// packing. Let the node ID keep the rules `node-id` and `node-name`, and let the keepalive
/// interval keep the rule `keepalive-interval`. Then `check` of the stream finds the rules broken
/// that `check --bundles` with the same `--own` finds broken in the input, and no others.
///
/// The levels are the same, with one exception. Without `--own`, `primary-check` is a `should` in
/// the input, whatever its level is in the stream. In the stream, the sender is the node of the
/// packing.
#[tactic(auto, using(crate::proofs::Packed::is_packed, crate::proofs::PackedRules::breaks_no_more))]
pub fn check_of_pack(options: &PackOptions, bytes: &[u8])
    ensures { (asked : CheckOptions) → ((pack_tool options.now).whole bytes.now).status ≡ 0
        → IsWithinPeerLimits options.now asked.peer → OptionsKeepInitRules options.now
        → BreaksNoMoreThanItsBundles asked options.now.node.items bytes.now
        ((pack_tool options.now).whole bytes.now).texts.output }
{
    options_fit(options);
    input_fits(bytes);
    exactly_one_reading();
}

/// A packed stream is listed as it was cut, if the input is packed without a fault.
///
/// The listing has the lines of the contact header, of SESS_INIT, of one segment for each chunk of
/// each bundle, and of SESS_TERM if it was asked for. The line of a segment shows its flags, ID,
/// length and offset.
#[tactic(auto, using(crate::proofs::Packed::is_packed, crate::proofs::Packed::listed))]
pub fn list_of_pack(options: &PackOptions, bytes: &[u8])
    ensures { ((pack_tool options.now).whole bytes.now).status ≡ 0
        → ListsAsPacked options.now bytes.now ((pack_tool options.now).whole bytes.now).texts.output }
{
    options_fit(options);
    input_fits(bytes);
    exactly_one_reading();
}

/// The bundles that `unpack` joins have the same lines as in the recording. Only the first word of
/// each differs.
///
/// Let every transfer of a recording be over and good, and let there be no fault: `unpack` without
/// options has status 0. Then its output is the bundles of the transfers, one after another.
/// `blocks` writes the lines of these bundles, each under the ID of its transfer.
/// `blocks --bundles`, for the output of `unpack`, writes the same lines under the numbers from 0.
/// Both have status 0.
#[tactic(auto, using(crate::proofs::SameRules::same_lines))]
pub fn bundles_of_unpack(bytes: &[u8])
    ensures { ((unpack_tool all).whole bytes.now).status ≡ 0 → HasSameBlockLinesUnpacked bytes.now }
{
    input_fits(bytes);
    exactly_one_reading();
}

/// The bundles that `unpack` joins break the same rules as in the recording.
///
/// Let `unpack` without options have status 0 for a recording. Then every transfer is over and
/// good, and there is no fault. For the recording, `check` may find rules of bundles broken. For
/// the output of `unpack`, `check --bundles` with the same `--own` finds the same ones, in the same
/// order. Each line has another offset, and the number of the bundle replaces the ID of its
/// transfer.
///
/// The levels are the same, with two exceptions. Without `--own`, `primary-check` is a `should` in
/// the output of `unpack`, whatever its level is in the recording. The rules of a bundle are a
/// `should` in the recording if its transfer has an extension item of an unknown type.
#[tactic(auto, using(crate::proofs::SameRules::same_rules))]
pub fn check_of_unpack(bytes: &[u8])
    ensures { (asked : CheckOptions) → ((unpack_tool all).whole bytes.now).status ≡ 0
        → HasSameBundleRules asked bytes.now }
{
    input_fits(bytes);
    exactly_one_reading();
}

/// A recording that breaks no rule of level `must` is unpacked with four kinds of faults at most.
///
/// Let `check --must` have status 0, with any `--own` or without. Then `unpack` finds no fault of
/// the wire, with `--keep-going` and without. Its report has only these faults: abandoned
/// transfers, data that may be a bundle which this toolkit does not read, and a second SESS_INIT.
/// If a transfer has an extension item of an unknown type, its data may have any fault.
pub fn unpack_of_checked()
    ensures { (asked : CheckOptions) (bytes : List ℕ)
        → ((check_tool (record asked { must = true })).whole bytes).status ≡ 0
        → HasOnlyAllowedFaults bytes }
{}

/// `unpack` without options loses no byte of data, and repeats none.
///
/// Its output is the data of the segments that were accepted, in order. With `--keep-going` and no
/// other option, its output is the data of the segments that are not stray, in order.
#[tactic(auto, using(crate::proofs::Cuts::every_byte, crate::proofs::Cuts::every_taken_byte))]
pub fn every_byte_once()
    ensures stopping { (bytes : List ℕ) → UnpacksToAllData bytes }
    ensures going_on { (bytes : List ℕ) → UnpacksToNonStrayData bytes }
{}

/// The report of `unpack` says how the output divides into transfers.
///
/// The transfer of each line begins in the output where the transfers before it end. The output
/// after the last of them belongs to a transfer that a fault left open. With `--keep-going`, the
/// same holds of the lines of transfers. Beside them, the report has a line for each head that is
/// not in order.
pub fn report_cuts_output()
    ensures stopping { (wanted : Wanted) (bytes : List ℕ)
        → ReportDividesOutput (stopping wanted) bytes }
    ensures going_on { (wanted : Wanted) (bytes : List ℕ)
        → ReportDividesOutputKeepGoing (going_on wanted) bytes }
{}

/// If all messages of a stream are in order, `--keep-going` changes nothing of what `unpack` makes
/// of the stream.
#[tactic(auto, using(crate::proofs::Same::same))]
pub fn same_in_order()
    ensures { (wanted : Wanted) (bytes : List ℕ) → IsKeepGoingIdleIfInOrder wanted bytes }
{}

/// `unpack` can be defined in two ways: by events, and by the transfers of the whole stream.
///
/// Its definition goes event by event, as the stream is walked. `by_transfers` goes by the list of
/// all heads: it joins their data into transfers, and then gives each transfer its line. Both are
/// the same tool.
pub fn unpack_by_transfers()
    ensures { (wanted : Wanted) → unpack_tool wanted ≡ tool_of (by_transfers wanted) }
{}

// ---- bounds that the types imply

/// A keepalive interval fits in its field of 16 bits.
fn keepalive_fits(number: u16)
    ensures { number < 2 ^ 16 }
{}

/// An MRU fits in its field of 64 bits.
fn mru_fits(number: u64)
    ensures { number < 2 ^ 64 }
{}

/// Each element of a slice of `u8` is a byte.
fn are_bytes(bytes: &[u8])
    ensures { AreBytes bytes.now }
{}

/// A node ID has at most 1,024 bytes.
fn node_fits(node: &NodeId)
    ensures bytes { AreBytes node.now.items }
    ensures short { length node.now.items ≤ 1024 }
{
    are_bytes(node.as_slice());
}

/// The options of `pack` fit in the fields of SESS_INIT (RFC 9174 section 4.6).
fn options_fit(options: &PackOptions)
    ensures { OptionsFit options.now }
{
    keepalive_fits(options.keepalive);
    mru_fits(options.segment_mru);
    mru_fits(options.transfer_mru);
    node_fits(&options.node);
}

/// The members of a slice are bytes, and there are fewer of them than transfer IDs (2^64).
fn input_fits(bytes: &[u8])
    ensures { InputFits bytes.now }
{
    // Only the proof needs this call. By the contract of `len`, the length fits in 64 bits.
    let _length = bytes.len();
}
