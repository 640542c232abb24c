ghost use Rattle.std.specs.Prelude.{◌≡◌, ◌||◌, length, not, ◌==◌};
ghost use Rattle.hosts.specs.View.{look};
ghost use Rattle.logger.specs.HostSets.{members};
ghost use Rattle.calls.specs.Recovery.{target, all_reached};

use super::Plan;
use hosts::hosts::Hosts;
use logger::logger::Logger;
use workload::Workload;
use workload::host::Host;

impl<'a, L: Logger> Plan<'a, L> {
    /// Whether host q, if it returns, has as many receipts as its target says.
    fn has_reached<W: Workload>(&self, hosts: &Hosts<W>, q: Host) -> bool
        ensures { result ≡ (not (members self.now.returning q) || length ((look W.Workload hosts.now).hosts q).receipts == target (L.found self.now.logger.now) q) }
    {
        !self.returning.contains(q) || hosts.receipts(q) == self.targets[q.index()]
    }

    /// Whether every returning host has as many receipts as its target says.
    pub fn all_reached<W: Workload>(&self, hosts: &Hosts<W>) -> bool
        ensures { result ≡ all_reached (L.found self.now.logger.now) (members self.now.returning) (look W.Workload hosts.now) }
    {
        for q in hosts.n().hosts() {
            if !self.has_reached(hosts, q) {
                return false;
            }
        }
        true
    }
}
