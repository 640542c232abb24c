//! The workloads at the edges of their rules: each test plays one table of messages.
#![tactic(auto)]

#[cfg(test)]
mod ignored;
#[cfg(test)]
mod ledger;
#[cfg(test)]
mod spacing;
