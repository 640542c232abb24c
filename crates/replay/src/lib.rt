//! How returning hosts are brought to their targets: the steps of a recovery.
#![tactic(auto)]

pub mod plan;
