//! The reasons why a command line starts no run, and how the program then ends.

ghost use Rattle.std.specs.Prelude.{◌≡◌};
ghost use Rattle.link_tools_command.specs.Usage.{usage_status, usage_text};

use thiserror::Error;

/// The reason why a command line starts no run.
#[derive(Debug, Drop, Error)]
pub enum UsageFault {
    /// The words ask for help or for the version. This is the text for standard output.
    #[error("{0}")]
    Help(String),
    /// The words are wrong. This text for standard error says why, and how to find the usage.
    #[error("{0}")]
    Words(String),
    /// The text of `--node` or of `--own` has more than 1,024 bytes.
    #[error("node id longer than 1024 bytes")]
    NodeTooLong,
    /// The text of `--own` names no node. An empty text names none.
    #[error("--own names no node")]
    OwnNamesNoNode,
    /// `--bundles` was given together with `--transfer` or `--keep-going`, which are for
    /// recordings.
    #[error("--bundles goes with no other option")]
    MixedInputs,
    /// `--bundles` was given together with `--peer-segment` or `--peer-transfer`, which are for
    /// recordings.
    #[error("--bundles goes with neither --peer-segment nor --peer-transfer")]
    LimitedBundles,
    /// A request for memory was refused.
    #[error("out of memory")]
    Memory,
}

/// Returns the exit status, and the program's own message without its newline.
///
/// The message is empty for `Help` and `Words`, which carry a text.
pub fn usage_exit(fault: &UsageFault) -> (u8, &'static str)
    ensures status { result.0 ≡ usage_status fault.now }
    ensures text { result.1.now ≡ usage_text fault.now }
{
    match fault {
        UsageFault::Help(_) => (0, ""),
        UsageFault::Words(_) => (2, ""),
        UsageFault::NodeTooLong => (2, "tcpclkit: node id longer than 1024 bytes"),
        UsageFault::OwnNamesNoNode => (2, "tcpclkit: --own names no node"),
        UsageFault::MixedInputs => (2, "tcpclkit: --bundles goes with no other option"),
        UsageFault::LimitedBundles => (
            2,
            "tcpclkit: --bundles goes with neither --peer-segment nor --peer-transfer",
        ),
        UsageFault::Memory => (4, "tcpclkit: out of memory"),
    }
}
