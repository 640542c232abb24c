//! The calls of a cluster at the edges of their rules: each test plays a table of calls, with the refusal and the answer of each.
#![tactic(auto)]

#[cfg(test)]
mod tables;
#[cfg(test)]
mod tests;
