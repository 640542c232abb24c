ghost use Rattle.std.specs.Prelude.{◌≡◌, ◌≤◌};
ghost use Rattle.calls.specs.Recovery.{target, AreTargets};

use logger::host_set::HostSet;
use logger::logger::Logger;
use network::seq_no::SeqNo;
use workload::host::Host;
use workload::host_count::HostCount;

mod reached;
mod replay;
mod returning;

pub use returning::restart;

/// What a recovery aims at: the hosts that return, and how many receipts each of them is to have again, which is
/// how many of its receipts, from the first on, the logger finds.
#[derive(Drop)]
pub struct Plan<'a, L: Logger> {
    logger: &'a L,
    returning: HostSet,
    targets: [u8; 8],
    ghost are_targets: { AreTargets (L.found logger.now) targets },
}

/// The target of host q.
fn target<L: Logger>(logger: &L, q: Host) -> u8
    ensures value { result ≡ target (L.Logger.found logger.now) q }
    ensures few { result ≤ 64 }
{
    for found in 0..64u8 {
        if logger.find(q, SeqNo::after(found)).is_none() {
            return found;
        }
    }
    64
}

/// The target of each host.
pub fn targets<L: Logger>(logger: &L) -> [u8; 8]
    ensures { AreTargets (L.Logger.found logger.now) result }
{
    let mut table = [0; 8];
    for q in HostCount::MOST.hosts() {
        table[q.index()] = target(logger, q);
    }
    table
}

impl<'a, L: Logger> Plan<'a, L> {
    /// These hosts are to return.
    pub fn new(logger: &'a L, returning: HostSet) -> Plan<'a, L>
        ensures logger { result.logger.now ≡ logger.entry.now }
        ensures returning { result.returning ≡ returning }
    {
        Plan {
            logger,
            returning,
            targets: targets(logger),
        }
    }
}
