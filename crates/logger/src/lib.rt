//! Message logging: what a logger is, and why what it keeps is enough to bring crashed hosts back.
#![tactic(auto)]

pub mod determinant;
pub mod host_set;
pub mod logger;
pub mod theory;
