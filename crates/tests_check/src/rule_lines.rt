//! Tests of the lines of broken rules.

mod bundles;
mod messages;
mod transfers;
