//! A script is played on a cluster of its own, and answered by a listing.
#![tactic(auto)]

pub mod export;
pub mod run;
pub mod theory;
