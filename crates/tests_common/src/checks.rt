//! Checks of what a run has written, and of how it has ended.

use crate::stream::text;
use link_tools::{Status, run_exit};
use link_wire::IoFault;
use std::test::Fail;

/// Checks that this is the output.
pub fn wrote(name: &str, output: &[u8], want: &[u8]) -> Result<(), Fail> {
    if output == want {
        return Ok(());
    }
    Err(Fail::new(format_args!(
        "output: {name}: {} bytes and not {}: {} and not {}",
        output.len(),
        want.len(),
        output.escape_ascii(),
        want.escape_ascii()
    )))
}

/// Checks that this is the report. It has to be UTF-8.
pub fn reported(name: &str, report: &[u8], want: &[u8]) -> Result<(), Fail> {
    let (report, want) = (text(report)?, text(want)?);
    if report == want {
        return Ok(());
    }
    Err(Fail::new(format_args!("report: {name}: {report:?} and not {want:?}")))
}

/// Checks that a run has ended with this exit status and this message of the program.
pub fn exits(
    name: &str,
    answer: &Result<Status, IoFault>,
    want: (u8, &'static str),
) -> Result<(), Fail> {
    let exit = run_exit(answer);
    if exit == want {
        return Ok(());
    }
    Err(Fail::new(format_args!("status: {name}: {exit:?} and not {want:?}")))
}

/// Checks that this was counted.
pub fn counted(name: &str, count: usize, want: usize) -> Result<(), Fail> {
    if count == want {
        return Ok(());
    }
    Err(Fail::new(format_args!("{name}: {count} and not {want}")))
}
