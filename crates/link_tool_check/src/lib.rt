//! `check`: judges whether a node keeps the rules of TCPCLv4 and of the Bundle Protocol (RFC 9174,
//! RFC 9171), by a recording of what it sent.
//!
//! [`check`] does the whole run. [`check_run`] makes the same run for a caller that takes the
//! steps. [`CheckOptions`] says which rules are judged.
//!
//! ```ignore
//! let peer = PeerLimits { segment: None, transfer: None };
//! let options = CheckOptions { must: false, own: NodeId::new(), peer };
//! let end = check(options, reader, output, report);
//! ```
//!
//! [`bundle_check`] and [`bundle_check_run`] do the same for an input that has one bundle after
//! another.
#![tactic(auto)]

mod bundle;
mod bundles;
mod checker;
mod lines;
mod transfer;

pub use bundles::{BundleCheckRun, BundleChecker, bundle_check, bundle_check_run};
pub use checker::{CheckRun, Checker, check, check_run};
pub use link_tool_option_types::{BundleCheckOptions, CheckOptions, NodeId, PeerLimits};
