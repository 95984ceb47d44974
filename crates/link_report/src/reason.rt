//! The names of reason codes.
#![tactic(auto, unfolding(crate::specs::Reason::name_in))]

ghost use Rattle.std.specs.Prelude.{◌≡◌, ◌≤◌, length};
ghost use Rattle.link_report.specs.Reason.{refuse_names, term_names, reject_names, name_in, name_of};

/// A kind of message that has a reason.
#[derive(Clone, Copy, Debug, PartialEq, Eq)]
pub enum ReasonOf {
    /// XFER_REFUSE (RFC 9174 section 5.2.4).
    Refuse,
    /// SESS_TERM (RFC 9174 section 6.1).
    SessTerm,
    /// MSG_REJECT (RFC 9174 section 5.1.2).
    MsgReject,
}

/// The name of an XFER_REFUSE reason (RFC 9174 section 5.2.4), or `?` for other codes.
pub(crate) fn refuse_name(reason: u8) -> &'static str
    ensures name { result.now ≡ name_in refuse_names reason }
    ensures short { length result.now ≤ 20 }
{
    match reason {
        0x00 => "unknown",
        0x01 => "completed",
        0x02 => "no-resources",
        0x03 => "retransmit",
        0x04 => "not-acceptable",
        0x05 => "extension-failure",
        0x06 => "session-terminating",
        _ => "?",
    }
}

/// The name of a SESS_TERM reason (RFC 9174 section 6.1), or `?` for other codes.
pub(crate) fn term_name(reason: u8) -> &'static str
    ensures name { result.now ≡ name_in term_names reason }
    ensures short { length result.now ≤ 20 }
{
    match reason {
        0x00 => "unknown",
        0x01 => "idle-timeout",
        0x02 => "version-mismatch",
        0x03 => "busy",
        0x04 => "contact-failure",
        0x05 => "resource-exhaustion",
        _ => "?",
    }
}

/// The name of a MSG_REJECT reason (RFC 9174 section 5.1.2), or `?` for other codes.
pub(crate) fn reject_name(reason: u8) -> &'static str
    ensures name { result.now ≡ name_in reject_names reason }
    ensures short { length result.now ≤ 20 }
{
    match reason {
        0x01 => "message-type-unknown",
        0x02 => "message-unsupported",
        0x03 => "message-unexpected",
        _ => "?",
    }
}

/// The name of a reason of this kind of message, or `?` for other codes.
pub fn reason_name(of: ReasonOf, reason: u8) -> &'static str
    ensures name { result.now ≡ name_of of reason }
    ensures short { length result.now ≤ 20 }
{
    match of {
        ReasonOf::Refuse => refuse_name(reason),
        ReasonOf::SessTerm => term_name(reason),
        ReasonOf::MsgReject => reject_name(reason),
    }
}
