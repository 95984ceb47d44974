//! Texts that are copied into slices of the caller.

ghost use Rattle.std.specs.Prelude.{◌≡◌, ℕ, ◌-◌, ◌^◌, ◌≤◌, List, ◌++◌, length, min, nat_le, take, drop};
ghost use Rattle.link_ffi_tools.specs.Slice.{HoldsPrefix, LeavesRest, overlaid};

/// Copies the text into the slice, as far as there is room. Returns whether there was room for all
/// of it.
///
/// The bytes after the text stay as they were.
pub fn copy_front(slice: &mut [u8], text: &[u8]) -> bool
    ensures front { HoldsPrefix slice.new text.now }
    ensures rest { LeavesRest slice.old slice.new text.now }
    ensures whole { slice.new ≡ overlaid slice.old text.now }
    ensures fits { result ≡ nat_le (length text.now) (length slice.new) }
{
    let count = text.len().min(slice.len());
    slice[..count].copy_from_slice(&text[..count]);
    text.len() <= slice.len()
}

/// Copies the bytes into the slice after its first `at` bytes, as far as there is room.
fn copy_at(slice: &mut [u8], at: usize, bytes: &[u8])
    requires { at ≤ length slice.old }
    ensures { slice.new ≡ take at slice.old ++ overlaid (drop at slice.old) bytes.now }
{
    copy_front(&mut slice[at..], bytes);
}

/// Appends `bytes` to a text whose beginning is in the slice, as far as there is room.
///
/// `count` is the number of the text's bytes so far, or 2^64 - 1 if there are more. The slice may
/// be shorter than the text.
#[tactic(auto, using(crate::proofs::Overlays::after_piece))]
pub fn copy_after(slice: &mut [u8], count: u64, bytes: &[u8])
    ensures { (before text : List ℕ) → slice.old ≡ overlaid before text
        → count ≡ min (length text) (2 ^ 64 - 1)
        → slice.new ≡ overlaid before (text ++ bytes.now) }
{
    let at = count.min(slice.len() as u64) as usize;
    copy_at(slice, at, bytes);
}
