//! The part of a piece that belongs to a range of the data.

ghost use Rattle.std.specs.Prelude.{◌≡◌, ◌+◌, ◌^◌, ◌≤◌, ◌<◌, length};
ghost use Rattle.link_bundle.specs.Part.{part_in};

/// The bytes of a piece whose offsets in the data are at least `offset`, and below
/// `offset + count`.
///
/// The piece begins after the first `before` bytes of the data. Unless `count` is 0,
/// `offset + count` must fit in 64 bits.
#[inline]
pub fn part_in(piece: &[u8], before: u64, offset: u64, count: u64) -> &[u8]
    ensures part { (0 < count → offset + count < 2 ^ 64) → result.now ≡ part_in piece.now before
        offset count }
    ensures size { length result.now ≤ length piece.now }
{
    let end = offset
        .saturating_add(count)
        .saturating_sub(before)
        .min(piece.len() as u64);
    let start = offset.saturating_sub(before).min(end);
    &piece[start as usize..end as usize]
}
