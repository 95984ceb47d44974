//! The head of a CBOR data item, and what a scan reports about it.
ghost use Rattle.std.specs.Prelude.{◌≡◌, ◌+◌, ◌<◌, ◌≤◌, length, get_or, IfSome, bit_and};

use byteorder::{BigEndian, ByteOrder};

/// The major type of simple values, floats and the break (RFC 8949 section 3.3).
const SIMPLE: u8 = 7;

/// The head of a CBOR data item (RFC 8949 section 3).
#[derive(Clone, Copy, PartialEq, Eq, Debug)]
pub struct Head {
    /// The major type, 0 to 7.
    pub major: u8,
    /// The value of the argument, or `None` for additional information 31.
    ///
    /// The value does not depend on the number of bytes that encode it. Additional information 31
    /// is an indefinite length (major types 2 to 5) or the break (major type 7).
    pub value: Option<u64>,
}

impl Head {
    ghost use Rattle.link_cbor.specs.Head.{head_front, argument_front, no_argument, whole_of, is_cut, is_indefinite};

    /// Reads the head at the start of the bytes, and returns it with its length in bytes.
    ///
    /// Returns `None` if the bytes end inside the head, or if they begin with no well-formed head.
    // Inlined: most heads are one byte, and reading such a head should cost no call.
    #[inline(always)]
    #[tactic(auto, using(crate::proofs::Fronts::first_byte), unfolding(crate::specs::Head::front_by))]
    pub fn front(bytes: &[u8]) -> Option<(Head, usize)>
        ensures front { result ≡ whole_of (head_front bytes.now) }
        ensures some { IfSome result (λ front. 0 < front.1) }
        ensures within { IfSome result (λ front. front.1 ≤ length bytes.now) }
    {
        if bytes.is_empty() {
            return None;
        }
        let information = bytes[0] & 0x1f;
        if information < 24 {
            let major = bytes[0] >> 5;
            let value = Some(u64::from(information));
            return Some((Head { major, value }, 1));
        }
        Head::longer(bytes)
    }

    /// Reads a head whose additional information is at least 24, so it is not the argument itself.
    #[tactic(auto, using(crate::proofs::Fronts::first_byte), unfolding(crate::specs::Head::front_by))]
    fn longer(bytes: &[u8]) -> Option<(Head, usize)>
        requires some { 0 < length bytes.now }
        requires information { 24 ≤ bit_and (get_or bytes.now 0 0) 31 }
        ensures front { result ≡ whole_of (head_front bytes.now) }
        ensures some { IfSome result (λ front. 0 < front.1) }
        ensures within { IfSome result (λ front. front.1 ≤ length bytes.now) }
    {
        let major = bytes[0] >> 5;
        match bytes[0] & 0x1f {
            24 => Head::with_argument(major, 1, &bytes[1..]),
            25 => Head::with_argument(major, 2, &bytes[1..]),
            26 => Head::with_argument(major, 4, &bytes[1..]),
            27 => Head::with_argument(major, 8, &bytes[1..]),
            31 => Head::without_argument(major),
            _ => None,
        }
    }

    /// Reads a head whose argument is the first `size` bytes of `rest`.
    ///
    /// Returns `None` if `rest` is shorter, or if the head is a simple value below 32 in two bytes,
    /// which is ill-formed. The returned length includes the head's first byte.
    #[tactic(auto, using(crate::proofs::HeadLaws::argument), unfolding(crate::specs::Head::argument_front, crate::specs::Head::with_argument))]
    fn with_argument(major: u8, size: usize, rest: &[u8]) -> Option<(Head, usize)>
        requires low { 1 ≤ size }
        requires high { size ≤ 8 }
        ensures front { result ≡ whole_of (argument_front major size rest.now) }
        ensures some { IfSome result (λ front. 0 < front.1) }
        ensures within { IfSome result (λ front. front.1 ≤ 1 + length rest.now) }
    {
        if rest.len() < size {
            return None;
        }
        let value = BigEndian::read_uint(rest, size);
        if major == 7 && size == 1 && value < 32 {
            return None;
        }
        let value = Some(value);
        Some((Head { major, value }, 1 + size))
    }

    /// The head with additional information 31: an indefinite length or the break.
    ///
    /// It is ill-formed for major types 0, 1 and 6.
    #[tactic(auto, unfolding(crate::specs::Head::no_argument))]
    fn without_argument(major: u8) -> Option<(Head, usize)>
        ensures front { result ≡ whole_of (no_argument major) }
        ensures within { IfSome result (λ front. front.1 ≡ 1) }
    {
        if major < 2 || major == 6 {
            return None;
        }
        Some((Head { major, value: None }, 1))
    }

    /// Whether the bytes end inside the head that they begin with, so more bytes are needed.
    #[tactic(auto, using(crate::proofs::Fronts::cut))]
    pub fn is_cut(bytes: &[u8]) -> bool
        ensures { result ≡ is_cut (head_front bytes.now) }
    {
        if bytes.is_empty() {
            return true;
        }
        let rest = bytes.len() - 1;
        match bytes[0] & 0x1f {
            24 => rest < 1,
            25 => rest < 2,
            26 => rest < 4,
            27 => rest < 8,
            _ => false,
        }
    }

    /// Whether it is the head of a string, an array or a map of indefinite length (RFC 8949 section
    /// 3.2).
    #[inline(always)]
    pub fn is_indefinite(self) -> bool
        ensures { result ≡ is_indefinite self }
    {
        self.value.is_none() && self.major != SIMPLE
    }
}

/// The state of a head after the bytes seen so far.
#[derive(Clone, Copy, PartialEq, Eq, Debug)]
pub enum HeadStep {
    /// The head is not complete: more bytes are needed.
    More,
    /// The head is complete.
    Done(Head),
    /// No well-formed head begins with these bytes (RFC 8949 section 3).
    ///
    /// One case is `f8` with a byte below `20`, in hexadecimal (section 3.3).
    Bad,
}
