//! The hosts of a cluster: what each one has, the messages between them, and the crash-free run.
#![tactic(auto)]

pub mod crash_free;
pub mod hosts;
mod outside;
