//! Laws of the writers of messages, over the definitions alone.
//!
//! The functions do nothing when they run. Their contracts are the laws.

ghost use Rattle.link_wire_writer.specs.ReadsBack.{MessageReadsBack, ItemsReadBack};
ghost use Rattle.link_wire_writer.specs.Sent.{StreamReadsBack};

/// A message that was written is read as it was, whatever bytes follow it.
pub fn message_reads_back()
    ensures { MessageReadsBack }
{}

/// Items that were written one after another are read as they were.
pub fn items_read_back()
    ensures { ItemsReadBack }
{}

/// A contact header and any sequence of messages that were written are read as they were, and the
/// stream ends after the last of them.
pub fn stream_reads_back()
    ensures { StreamReadsBack }
{}
