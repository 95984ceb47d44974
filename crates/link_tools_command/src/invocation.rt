//! The result of reading a command line.

use link_tool_option_types::Options;

/// A tool with its options, and the input that it reads.
#[derive(Debug, Drop, PartialEq, Eq)]
pub struct Invocation {
    /// The tool, with its options.
    pub options: Options,
    /// The name of the file to read, as it was given. It may be empty; `None` if there is none.
    pub file: Option<String>,
}
