//! The calls on a cluster, by what they mean, and the recovery guarantee of any list of them.
#![tactic(auto)]

pub mod call;
pub mod theory;
