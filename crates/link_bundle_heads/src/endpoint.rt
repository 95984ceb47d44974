//! Endpoint schemes.

/// An endpoint scheme (RFC 9171 section 4.2.5.1).
#[derive(Clone, Copy)]
pub enum Scheme {
    /// The scheme dtn, number 1.
    Dtn,
    /// The scheme ipn, number 2.
    Ipn,
}
