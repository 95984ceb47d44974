//! The exit status and the message with which the program ends after a run.

ghost use Rattle.std.specs.Prelude.{◌≡◌};
ghost use Rattle.link_tools.specs.Exit.{status_of, exit_text};

use link_run::Status;
use link_wire::IoFault;

/// Returns the exit status, and the message for standard error without its newline.
///
/// The message is empty if the answer is a status.
pub fn run_exit(answer: &Result<Status, IoFault>) -> (u8, &'static str)
    ensures status { result.0 ≡ status_of answer.now }
    ensures text { result.1.now ≡ exit_text answer.now }
{
    match answer {
        Ok(status) => (status.0, ""),
        Err(IoFault::Read) => (4, "tcpclkit: read failed"),
        Err(IoFault::InputTooLong) => (4, "tcpclkit: input too long"),
        Err(IoFault::Write) => (4, "tcpclkit: write failed"),
        Err(IoFault::Memory) => (4, "tcpclkit: out of memory"),
    }
}
