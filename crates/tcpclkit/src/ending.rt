//! The ways in which the program ends, with their exit statuses and messages.

ghost use Rattle.std.specs.Prelude.{◌≡◌};
ghost use Rattle.tcpclkit.specs.Ending.{answer_after_flush, ending_status, ending_text, status_after};

use link_tools::{Status, run_exit};
use link_tools_command::{UsageFault, usage_exit};
use link_wire::IoFault;

/// A way in which the program ends.
#[derive(Debug, Drop)]
pub enum Ending {
    /// The command line starts no run, for this reason.
    Usage(UsageFault),
    /// An argument is not UTF-8.
    NotText,
    /// The named file cannot be opened.
    NoInput,
    /// The answer of a run, or [`IoFault::Memory`] if there was no memory to begin one.
    Answer(Result<Status, IoFault>),
}

/// Returns the program's answer, from the answer of a run.
///
/// `flushed` is whether the output and the report were flushed. If the run ended with a fault of
/// the input or a failure, its answer stays. After any other run, a failed flush is a failed write.
pub fn after_flush(answer: Result<Status, IoFault>, flushed: bool) -> Result<Status, IoFault>
    ensures { result ≡ answer_after_flush answer flushed }
{
    match answer {
        Ok(status) if status != Status::FAULT && !flushed => Err(IoFault::Write),
        _ => answer,
    }
}

/// Returns the exit status, and the message for standard error without its newline.
///
/// The message is empty after a run that did not fail. It is also empty for [`UsageFault::Help`]
/// and [`UsageFault::Words`], which carry a text.
pub fn ending_exit(ending: &Ending) -> (u8, &'static str)
    ensures status { result.0 ≡ ending_status ending.now }
    ensures text { result.1.now ≡ ending_text ending.now }
{
    match ending {
        Ending::Usage(fault) => usage_exit(fault),
        Ending::NotText => (2, "tcpclkit: a word is not UTF-8"),
        Ending::NoInput => (4, "tcpclkit: cannot open the input"),
        Ending::Answer(answer) => run_exit(answer),
    }
}

/// Returns the program's exit status; `written` is whether its text or message was written.
///
/// A call with status 0 has a text only if help or the version was asked for. If this text was not
/// written, the status is 4, as after a failed write. Any other status stays.
pub fn exit_status(status: u8, written: bool) -> u8
    ensures { result ≡ status_after status written }
{
    if !written && status == 0 { 4 } else { status }
}
