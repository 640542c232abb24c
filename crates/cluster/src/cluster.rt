use hosts::hosts::Hosts;
use logger::host_set::HostSet;

mod any_call;
mod checks;
mod crash;
mod deliver;
mod opening;
mod play;
mod post;
mod recover;
mod release;
mod show;

/// Hosts that may crash, with the logger that remembers the order of their receipts. At most f of them may be
/// down at once: the cluster is whole from an accepted open until more than f are.
#[derive(Drop)]
pub struct Cluster<L, W> {
    hosts: Hosts<W>,
    f: u8,
    // A flag, and no `Option` around the rest: a cluster that is no longer whole keeps its hosts and who is down.
    whole: bool,
    down: HostSet,
    logger: L,
}
