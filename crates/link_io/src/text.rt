//! Texts that are made in the page from which they are written.

ghost use Rattle.std.specs.Prelude.{◌≡◌, ℕ, ◌+◌, ◌≤◌, List, ◌++◌, length, take, drop};

/// The greatest length of a text, in bytes.
pub const TEXT_MAX: usize = 9216;

/// A text that can be made in a page.
pub trait Text {
    // the bytes of the text
    ghost text: { Self → List ℕ };

    /// Writes the text into the page from index `at` on, and returns the index after it.
    ///
    /// The bytes of the page after the text may have changed too.
    fn put(&self, page: &mut [u8], at: usize) -> usize
        requires room { at + TEXT_MAX ≤ length page.old }
        ensures text { take result page.new ≡ take at page.old ++ text self.now }
        ensures fits { result ≤ at + TEXT_MAX }
        ensures size { length page.new ≡ length page.old };
}

/// Copies bytes into the page from index `at` on, and returns the index after them.
#[inline(always)]
pub fn copy_into(page: &mut [u8], at: usize, bytes: &[u8]) -> usize
    requires { at + length bytes.now ≤ length page.old }
    ensures text { take result page.new ≡ take at page.old ++ bytes.now }
    ensures end { result ≡ at + length bytes.now }
    ensures rest { drop result page.new ≡ drop result page.old }
    ensures size { length page.new ≡ length page.old }
{
    let end = at + bytes.len();
    page[at..end].copy_from_slice(bytes);
    end
}
