//! What a writer into a slice was given. Only proofs read it: it takes no memory, and its functions
//! do nothing at run time.

ghost use Rattle.std.specs.Prelude.{◌≡◌, ℕ, List, [], ◌++◌};
ghost use Rattle.std.specs.Borrow.{ftrue};

use std::marker::Model;

/// The bytes that a slice had before it was written to, and the text that was written since.
#[derive(Drop)]
pub struct History {
    pub ghost before: { List ℕ },
    pub ghost text: { List ℕ },
}

impl Model for History {
    ghost also_owns = { λ _. ftrue };
}

impl History {
    /// The history of a slice that no text was written to.
    pub fn new(_slice: &[u8]) -> History
        ensures { result ≡ record { before = _slice.now; text = [] } }
    {
        History {}
    }

    /// This history, and then these bytes of the text.
    pub fn and(&self, _bytes: &[u8]) -> History
        ensures { result ≡ record self.now { text = self.now.text ++ _bytes.now } }
    {
        History {}
    }
}
