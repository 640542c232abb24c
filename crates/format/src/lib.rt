//! The bytes of scripts and listings: commands and how they are read, lines and how they are written, and the faults
//! of a run.
#![tactic(auto)]

pub mod command;
pub mod fault;
pub mod line;
pub mod listing;
pub mod reader;
