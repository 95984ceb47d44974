//! What is wanted of a recorded stream.

/// Selects the data that is written to the output, and says what a fault of the order does. Every
/// transfer has its line in the report, selected or not.
#[derive(Clone, Copy, Debug, Default, PartialEq, Eq)]
pub struct Wanted {
    /// Only the transfers with this ID, or all transfers if it is `None`.
    pub only: Option<u64>,
    /// If true, only the payload bytes of each bundle that came before any fault of that bundle. If
    /// false, all data of each transfer.
    pub payload: bool,
    /// If true, the run goes on after a fault of the order, which has its line in the report. If
    /// false, such a fault ends the run.
    pub keep_going: bool,
}
