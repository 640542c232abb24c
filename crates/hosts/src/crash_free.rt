use crate::hosts::Hosts;

mod calls;
pub mod feed;
mod run;

/// A crash-free run: hosts that stay up, and no logger. What the recovery of a cluster is measured by.
#[derive(Drop)]
pub struct CrashFree<W> {
    hosts: Hosts<W>,
}
