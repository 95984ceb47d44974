//! Tests of the rules of bundles, and of walks over heads.

mod bundles;
pub(crate) mod heads;
mod rows;
