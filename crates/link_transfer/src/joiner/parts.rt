//! What a joiner keeps, for a caller that keeps it in another form.

ghost use Rattle.std.specs.Prelude.{◌≡◌, List};
ghost use Rattle.link_wire.specs.declared.message.Message.{Message};

use super::Joiner;

impl Joiner {
    ghost use Rattle.link_transfer.specs.Order.{has_sess_init, has_sess_term, open_of};
    ghost use Rattle.link_transfer.specs.Joiner.{IsJoinerAt};

    /// A joiner that has accepted some messages.
    ///
    /// `initiated` is whether a SESS_INIT is among them, and `terminated` whether a SESS_TERM is.
    /// `transfer` is the ID of the transfer that is open after them.
    pub fn from_parts(initiated: bool, terminated: bool, transfer: Option<u64>) -> Joiner
        ensures { (before : List Message) → initiated ≡ has_sess_init before
            → terminated ≡ has_sess_term before → transfer ≡ open_of before
            → IsJoinerAt result before }
    {
        Joiner {
            initiated,
            terminated,
            transfer,
        }
    }

    /// Whether a SESS_INIT was accepted.
    pub fn initiated(&self) -> bool
        ensures { (before : List Message) → IsJoinerAt self.now before
            → result ≡ has_sess_init before }
    {
        self.initiated
    }

    /// Whether a SESS_TERM was accepted.
    pub fn terminated(&self) -> bool
        ensures { (before : List Message) → IsJoinerAt self.now before
            → result ≡ has_sess_term before }
    {
        self.terminated
    }
}
