//! The broken ones of some rules.

ghost use Rattle.std.specs.Prelude.{◌≡◌, filter_map};

use arrayvec::ArrayVec;

/// The broken rules among these, in order. A rule that is kept is `None`.
pub fn broken_of<T: Copy + Default, const N: usize>(judged: &[Option<T>; N]) -> ArrayVec<T, N>
    ensures { result.items ≡ filter_map (λ rule. rule) judged.now }
{
    let mut broken = ArrayVec::new();
    for rule in judged {
        if let Some(rule) = rule {
            broken.push(*rule);
        }
    }
    broken
}
