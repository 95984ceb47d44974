//! Laws over the definitions of `blocks`.
//!
//! The functions do nothing when they run. Their contracts are the laws.

ghost use Rattle.link_tool_blocks.specs.Laws.{HasStatusOfUnpack};

/// The status of `blocks` for a recording is that of `unpack` with the same `--keep-going`.
///
/// It does not depend on which transfers are selected, nor on which data `unpack` writes.
pub fn status_of_unpack()
    ensures { HasStatusOfUnpack }
{}
