//! Messages between hosts: which one waits where, what a host is after it took some, and what is true of every run
//! without crashes.
#![tactic(auto)]

pub mod message;
pub mod refusal;
pub mod seq_no;
pub mod theory;
