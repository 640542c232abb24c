//! The two loggers that ship: pessimistic and family-based.
#![tactic(auto)]

pub mod entry;
pub mod family_based;
mod holdings;
mod members;
pub mod pessimistic;
mod places;
pub mod worked_example;
