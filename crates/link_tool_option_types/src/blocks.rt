//! What is shown of a recorded stream.

/// Selects the transfers whose lines are written, and says what a fault of the order does.
///
/// Every transfer counts for the status, selected or not.
#[derive(Clone, Copy, Debug, Default, PartialEq, Eq)]
pub struct BlockOptions {
    /// Only the transfers with this ID, or all transfers if it is `None`.
    pub only: Option<u64>,
    /// If true, the run goes on after a fault of the order, which has its line in the report. If
    /// false, such a fault ends the run.
    pub keep_going: bool,
}
