//! The options of the whole tools, as numbers.

ghost use Rattle.std.specs.Prelude.{◌≡◌, true, List, length, drop, get_or};
ghost use Rattle.link_ffi_tools.specs.Options.{has_nonzero, number_if, switch_fits, unpack_numbers, unpack_numbers_fit, wanted_of, wanted_in, blocks_numbers, blocks_numbers_fit, blocks_of, blocks_in, check_numbers, check_numbers_fit, check_options_of, bundle_check_options_of, check_of, check_in, pack_numbers, pack_numbers_fit, pack_in_range, IsPackOptionsByNumbers, more_numbers, more_numbers_fit, more_in_range};

use crate::reading::Reading;
use link_tool_option_types::{
    BlockOptions, BundleCheckOptions, CheckOptions, PackOptions, PeerLimits, Wanted,
};
use link_wire::{MAX_NODE_ID, NodeId};

/// The options of `unpack`, in the order of `struct tcpclkit_unpack_options`.
#[derive(Clone, Copy, Debug, PartialEq, Eq)]
pub struct UnpackNumbers {
    /// 1 for the transfers with one ID alone, and else 0.
    pub only_one: u64,
    /// That ID.
    pub transfer: u64,
    /// 1 for the payloads alone, and else 0.
    pub payload: u64,
    /// 1 if the run goes on after a fault of the order, and else 0.
    pub keep_going: u64,
}

/// The options of `blocks`, in the order of `struct tcpclkit_blocks_options`.
#[derive(Clone, Copy, Debug, PartialEq, Eq)]
pub struct BlocksNumbers {
    /// 1 for the transfers with one ID alone, and else 0.
    pub only_one: u64,
    /// That ID.
    pub transfer: u64,
    /// 1 if the run goes on after a fault of the order, and else 0.
    pub keep_going: u64,
    /// 1 if the input is bundles, one after another, and 0 if it is a recording.
    pub bundles: u64,
}

/// The options of `check`, in the order of `struct tcpclkit_check_options`.
#[derive(Clone, Copy, Debug, PartialEq, Eq)]
pub struct CheckNumbers {
    /// 1 for the rules of level `must` alone, and else 0.
    pub must: u64,
    /// 1 if the longest segment that the peer takes is known, and else 0.
    pub has_peer_segment: u64,
    /// The greatest length of its data, in bytes.
    pub peer_segment: u64,
    /// 1 if the longest transfer that the peer takes is known, and else 0.
    pub has_peer_transfer: u64,
    /// The greatest length of its data, in bytes.
    pub peer_transfer: u64,
    /// 1 if the input is bundles, one after another, and 0 if it is a recording.
    pub bundles: u64,
}

/// The options of `pack` without the node ID, in the order of `struct tcpclkit_pack_options`.
#[derive(Clone, Copy, Debug, PartialEq, Eq)]
pub struct PackNumbers {
    /// The keepalive interval in seconds.
    pub keepalive: u64,
    /// The longest segment that the sender takes.
    pub segment_mru: u64,
    /// The longest transfer that the sender takes.
    pub transfer_mru: u64,
    /// The longest segment that the peer takes.
    pub peer_segment: u64,
    /// The longest transfer that the peer takes.
    pub peer_transfer: u64,
    /// The greatest length of a bundle whose length is announced.
    pub announce: u64,
    /// 1 if the stream ends with SESS_TERM, and else 0.
    pub send_term: u64,
}

/// The options of `pack_more`, in the order of `struct tcpclkit_more_options`.
#[derive(Clone, Copy, Debug, PartialEq, Eq)]
pub struct MoreNumbers {
    /// The ID of the first transfer.
    pub first: u64,
    /// The longest segment that the peer takes.
    pub peer_segment: u64,
    /// The longest transfer that the peer takes.
    pub peer_transfer: u64,
    /// The greatest length of a bundle whose length is announced.
    pub announce: u64,
}

/// The number at this index, or the default if the words end before it.
fn word(words: &[u64], index: usize, default: u64) -> u64
    ensures { result ≡ get_or words.now index default }
{
    match words.get(index) {
        Some(&word) => word,
        None => default,
    }
}

/// Whether one of the words is not 0.
fn has_nonzero(words: &[u64]) -> bool
    ensures { result ≡ has_nonzero words.now }
{
    for &word in words {
        if word > 0 {
            return true;
        }
    }
    false
}

/// The words after the first `known` ones.
///
/// A caller of a later version may pass numbers of options that this version does not know. The
/// default of each such option is 0.
fn words_after(words: &[u64], known: usize) -> &[u64]
    ensures { result.now ≡ drop known words.now }
{
    &words[known.min(words.len())..]
}

/// The number of an option that may be unset, or `None` if `is_set` is not 1.
fn number_if(is_set: u64, number: u64) -> Option<u64>
    ensures { result ≡ number_if is_set number }
{
    if is_set == 1 { Some(number) } else { None }
}

/// Whether a switch and its number fit: the switch is 1, or both are 0.
fn switch_fits(is_set: u64, number: u64) -> bool
    ensures { result ≡ switch_fits is_set number }
{
    is_set == 1 || (is_set == 0 && number == 0)
}

/// The options of `unpack` that these words encode.
fn unpack_numbers(words: &[u64]) -> UnpackNumbers
    ensures { result ≡ unpack_numbers words.now }
{
    UnpackNumbers {
        only_one: word(words, 0, 0),
        transfer: word(words, 1, 0),
        payload: word(words, 2, 0),
        keep_going: word(words, 3, 0),
    }
}

/// Whether the options of `unpack` are in their ranges.
fn unpack_numbers_fit(numbers: &UnpackNumbers) -> bool
    ensures { result ≡ unpack_numbers_fit numbers.now }
{
    switch_fits(numbers.only_one, numbers.transfer)
        && numbers.payload <= 1
        && numbers.keep_going <= 1
}

/// What these options of `unpack` want of a recording.
fn wanted_of(numbers: &UnpackNumbers) -> Wanted
    ensures { result ≡ wanted_of numbers.now }
{
    Wanted {
        only: number_if(numbers.only_one, numbers.transfer),
        payload: numbers.payload == 1,
        keep_going: numbers.keep_going == 1,
    }
}

/// The `Wanted` that the words encode, or `None` if an option is out of its range.
pub fn wanted_in(words: &[u64]) -> Option<Wanted>
    ensures { result ≡ wanted_in words.now }
{
    let numbers = unpack_numbers(words);
    if unpack_numbers_fit(&numbers) && !has_nonzero(words_after(words, 4)) {
        Some(wanted_of(&numbers))
    } else {
        None
    }
}

/// The options of `blocks` that these words encode.
fn blocks_numbers(words: &[u64]) -> BlocksNumbers
    ensures { result ≡ blocks_numbers words.now }
{
    BlocksNumbers {
        only_one: word(words, 0, 0),
        transfer: word(words, 1, 0),
        keep_going: word(words, 2, 0),
        bundles: word(words, 3, 0),
    }
}

/// Whether the options of `blocks` are in their ranges.
///
/// With `bundles`, the options for a recording have to be 0.
fn blocks_numbers_fit(numbers: &BlocksNumbers) -> bool
    ensures { result ≡ blocks_numbers_fit numbers.now }
{
    switch_fits(numbers.only_one, numbers.transfer)
        && numbers.keep_going <= 1
        && numbers.bundles <= 1
        && (numbers.bundles == 0 || numbers.only_one == 0 && numbers.keep_going == 0)
}

/// The tool of these options of `blocks`.
fn blocks_of(numbers: &BlocksNumbers) -> Reading
    ensures { result ≡ blocks_of numbers.now }
{
    if numbers.bundles == 1 {
        return Reading::BundleBlocks;
    }
    Reading::Blocks(BlockOptions {
        only: number_if(numbers.only_one, numbers.transfer),
        keep_going: numbers.keep_going == 1,
    })
}

/// `blocks` with the options that the words encode, or `None` if one is out of its range.
pub fn blocks_in(words: &[u64]) -> Option<Reading>
    ensures { result ≡ blocks_in words.now }
{
    let numbers = blocks_numbers(words);
    if blocks_numbers_fit(&numbers) && !has_nonzero(words_after(words, 4)) {
        Some(blocks_of(&numbers))
    } else {
        None
    }
}

/// The options of `check` that these words encode.
fn check_numbers(words: &[u64]) -> CheckNumbers
    ensures { result ≡ check_numbers words.now }
{
    CheckNumbers {
        must: word(words, 0, 0),
        has_peer_segment: word(words, 1, 0),
        peer_segment: word(words, 2, 0),
        has_peer_transfer: word(words, 3, 0),
        peer_transfer: word(words, 4, 0),
        bundles: word(words, 5, 0),
    }
}

/// Whether the options of `check` are in their ranges.
///
/// With `bundles`, no limit of the peer may be set.
fn check_numbers_fit(numbers: &CheckNumbers) -> bool
    ensures { result ≡ check_numbers_fit numbers.now }
{
    numbers.must <= 1
        && switch_fits(numbers.has_peer_segment, numbers.peer_segment)
        && switch_fits(numbers.has_peer_transfer, numbers.peer_transfer)
        && numbers.bundles <= 1
        && (numbers.bundles == 0 || numbers.has_peer_segment == 0 && numbers.has_peer_transfer == 0)
}

/// What `check` judges of a recording with these options: the bundles of every node.
fn check_options_of(numbers: &CheckNumbers) -> CheckOptions
    ensures { result ≡ check_options_of numbers.now }
{
    CheckOptions {
        must: numbers.must == 1,
        own: NodeId::new(),
        peer: PeerLimits {
            segment: number_if(numbers.has_peer_segment, numbers.peer_segment),
            transfer: number_if(numbers.has_peer_transfer, numbers.peer_transfer),
        },
    }
}

/// What `check` judges of bundles with these options: those of every node.
fn bundle_check_options_of(numbers: &CheckNumbers) -> BundleCheckOptions
    ensures { result ≡ bundle_check_options_of numbers.now }
{
    BundleCheckOptions {
        must: numbers.must == 1,
        own: NodeId::new(),
    }
}

/// The tool of these options of `check`.
fn check_of(numbers: &CheckNumbers) -> Reading
    ensures { result ≡ check_of numbers.now }
{
    if numbers.bundles == 1 {
        return Reading::BundleCheck(bundle_check_options_of(numbers));
    }
    Reading::Check(check_options_of(numbers))
}

/// `check` with the options that the words encode, or `None` if one is out of its range.
pub fn check_in(words: &[u64]) -> Option<Reading>
    ensures { result ≡ check_in words.now }
{
    let numbers = check_numbers(words);
    if check_numbers_fit(&numbers) && !has_nonzero(words_after(words, 6)) {
        Some(check_of(&numbers))
    } else {
        None
    }
}

/// The options of `pack` that these words encode.
pub fn pack_numbers(words: &[u64]) -> PackNumbers
    ensures { result ≡ pack_numbers words.now }
{
    PackNumbers {
        keepalive: word(words, 0, 60),
        segment_mru: word(words, 1, 65_536),
        transfer_mru: word(words, 2, 1_048_576),
        peer_segment: word(words, 3, 65_536),
        peer_transfer: word(words, 4, u64::MAX),
        announce: word(words, 5, 0),
        send_term: word(words, 6, 0),
    }
}

/// Whether the options of `pack` and the length of the node ID are in their ranges.
fn pack_numbers_fit(numbers: &PackNumbers, node_length: usize) -> bool
    ensures { result ≡ pack_numbers_fit numbers.now node_length }
{
    numbers.keepalive <= 65535
        && numbers.peer_segment >= 1
        && numbers.announce <= 1048576
        && numbers.send_term <= 1
        && node_length <= MAX_NODE_ID
}

/// Whether the words and the length of the node ID are in their ranges.
pub fn pack_in_range(words: &[u64], node_length: usize) -> bool
    ensures { result ≡ pack_in_range words.now node_length }
{
    let numbers = pack_numbers(words);
    pack_numbers_fit(&numbers, node_length) && !has_nonzero(words_after(words, 7))
}

/// The `PackOptions` with these numbers and this node ID.
pub fn packing_of(numbers: &PackNumbers, node: &[u8]) -> PackOptions
    requires { pack_numbers_fit numbers.now (length node.now) ≡ true }
    ensures { IsPackOptionsByNumbers result numbers.now node.now }
{
    let mut node_id = NodeId::new();
    node_id.try_extend_from_slice(node).unwrap();
    PackOptions {
        node: node_id,
        keepalive: numbers.keepalive as u16,
        segment_mru: numbers.segment_mru,
        transfer_mru: numbers.transfer_mru,
        peer_segment: numbers.peer_segment,
        peer_transfer: numbers.peer_transfer,
        announce: numbers.announce,
        send_term: numbers.send_term == 1,
    }
}

/// The options of `pack_more` that these words encode.
pub fn more_numbers(words: &[u64]) -> MoreNumbers
    ensures { result ≡ more_numbers words.now }
{
    MoreNumbers {
        first: word(words, 0, 0),
        peer_segment: word(words, 1, 65_536),
        peer_transfer: word(words, 2, u64::MAX),
        announce: word(words, 3, 0),
    }
}

/// Whether the options of `pack_more` are in their ranges, for an input of `size` bytes.
///
/// The input contains no more bundles than bytes, so no transfer ID exceeds `first + size`.
fn more_numbers_fit(numbers: &MoreNumbers, size: usize) -> bool
    ensures { result ≡ more_numbers_fit numbers.now size }
{
    numbers.peer_segment >= 1
        && numbers.announce <= 1048576
        && numbers.first.checked_add(size as u64).is_some()
}

/// Whether the words are in their ranges, for an input of `size` bytes.
pub fn more_in_range(words: &[u64], size: usize) -> bool
    ensures { result ≡ more_in_range words.now size }
{
    let numbers = more_numbers(words);
    more_numbers_fit(&numbers, size) && !has_nonzero(words_after(words, 4))
}
