//! How strictly a rule is meant, and how long its name is.

/// The greatest length of a rule's name in bytes.
pub const NAME_MAX: usize = 21;

/// How strictly a rule is meant (RFC 2119).
#[derive(Clone, Copy, Debug, PartialEq, Eq)]
pub enum Level {
    /// The RFC requires it, and the input proves that it is broken.
    Must,
    /// The RFC recommends it, or a reason may permit what breaks it.
    ///
    /// The reason may be in the recording of the other entity, or in a later RFC.
    Should,
}
