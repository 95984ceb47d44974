//! `tcpclkit`: lists, unpacks, checks and makes recorded sessions of TCPCLv4 (RFC 9174).
//!
//! - `tcpclkit list` writes a line for the contact header and for each message of a recording.
//! - `tcpclkit unpack` writes the data of a recording's transfers, and a line for each transfer.
//! - `tcpclkit blocks` writes a line for each block of the bundles in a recording.
//! - `tcpclkit check` writes a line for each judged rule of the RFCs that the sender of a recording
//!   breaks.
//! - `tcpclkit pack` writes bundles as the stream of a sender, and a line for each bundle.
//!
//! Each reads a file, or standard input.
#![tactic(auto)]

mod ending;
mod streams;

ghost use Rattle.std.specs.Prelude.{◌≡◌, map, option_map, string_bytes, IfErr, IfOk, IsTrue};
ghost use Rattle.either.specs.Either.{is_left};
ghost use Rattle.link_tools.specs.Options.{IfPackHasNewCutter};
ghost use Rattle.tcpclkit.specs.Ending.{AreWordsForJobAndInput, MayEndWithoutRun, names_a_file};

use either::{Either, Left, Right};
use ending::{Ending, ending_exit, exit_status};
use link_tools::Job;
use link_tools_command::{Invocation, UsageFault, options};
use link_wire::IoFault;
use std::fs::File;
use std::io::{ErrorKind, Stdin};
use std::process::ExitCode;
use std::{env, fs, io};
use streams::{buffered, run_over};

fn main(rt: HostRuntime) -> ExitCode {
    let ending = run(&rt);
    let (status, message) = ending_exit(&ending);
    let written = match &ending {
        Ending::Usage(UsageFault::Help(text)) => print!(rt; "{text}"),
        Ending::Usage(UsageFault::Words(text)) => eprint!(rt; "{text}"),
        _ if message.is_empty() => Ok(()),
        _ => eprintln!(rt; "{message}"),
    };
    ExitCode::from(exit_status(status, written.is_ok()))
}

/// Does what the program's arguments ask for.
fn run(rt: &HostRuntime) -> Ending {
    let words = match words(rt) {
        Ok(words) => words,
        Err(error) if error.kind() == ErrorKind::InvalidData => return Ending::NotText,
        Err(_) => return Ending::Answer(Err(IoFault::Memory)),
    };
    let (job, input) = match request(rt, words.as_slice()) {
        Ok(request) => request,
        Err(ending) => return ending,
    };
    let streams = buffered(rt.alloc(), input, rt.stdout(), rt.stderr());
    match run_over(job, streams) {
        Ok(end) => Ending::Answer(end.answer),
        Err(fault) => Ending::Answer(Err(fault)),
    }
}

/// Returns the tool that these words ask for, and its input, or the ending of a call without a run.
///
/// The first word is the program's own name.
// Not inlined. Otherwise its locals would take up stack while the tool runs.
#[inline(never)]
fn request(rt: &HostRuntime, words: &[String]) -> Result<(Job, Either<File, Stdin>), Ending>
    ensures ok { IfOk result
        (λ request. AreWordsForJobAndInput (map string_bytes words.now) request.0
        (is_left request.1)) }
    ensures ready { IfOk result (λ request. IfPackHasNewCutter request.0) }
    ensures err { IfErr result (MayEndWithoutRun (map string_bytes words.now)) }
{
    let invocation = match options(rt.alloc(), words) {
        Ok(invocation) => invocation,
        Err(fault) => return Err(Ending::Usage(fault)),
    };
    let Invocation { options, file } = invocation;
    let Ok(input) = input(rt, file.as_deref()) else {
        return Err(Ending::NoInput);
    };
    Ok((Job::new(rt.alloc(), options), input))
}

/// Opens the file of this name, or returns standard input if the name is `-` or there is no name.
///
/// Both inputs have one type, so the tools are compiled once. Only opening a file can fail.
fn input(rt: &HostRuntime, file: Option<&str>) -> io::Result<Either<File, Stdin>>
    ensures kind { IfOk result (λ input. is_left input ≡ names_a_file (option_map (λ name. name.now) file.entry)) }
    ensures named { IfErr result (λ _. IsTrue (names_a_file (option_map (λ name. name.now) file.entry))) }
{
    match file {
        Some(name) if name != "-" => Ok(Left(fs::open(rt, name)?)),
        _ => Ok(Right(rt.stdin())),
    }
}

/// Returns the program's arguments; the first is the program's own name.
///
/// The error has the kind `InvalidData` if an argument is not UTF-8. Any other error is a lack of
/// memory.
fn words(rt: &HostRuntime) -> io::Result<Vec<String>> {
    Ok(env::args(rt)?.collect(rt.alloc())?)
}
