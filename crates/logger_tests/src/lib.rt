//! Tests of the two loggers.
#![tactic(auto)]

#[cfg(test)]
mod tests;
