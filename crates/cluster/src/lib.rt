//! A cluster: hosts that may crash and be brought back, over any logger and any workload.
#![tactic(auto)]

pub mod cluster;
