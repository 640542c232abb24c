ghost use Rattle.std.specs.Prelude.{◌≡◌};
ghost use Rattle.hosts.specs.View.{look};
ghost use Rattle.logger.specs.HostSets.{members};
ghost use Rattle.calls.specs.Recovery.{restarted};

use super::Plan;
use hosts::hosts::Hosts;
use logger::host_set::HostSet;
use logger::logger::Logger;
use workload::Workload;
use workload::host_count::HostCount;

/// Returning hosts start from the first state with empty lists.
pub fn restart<W: Workload>(hosts: &mut Hosts<W>, returning: HostSet)
    ensures { look W.Workload hosts.new ≡ restarted (members returning) (look W.Workload hosts.old) }
{
    for h in HostCount::MOST.hosts() {
        if returning.contains(h) {
            hosts.reset(h);
        }
    }
}

impl<'a, L: Logger> Plan<'a, L> {
    /// The hosts that this plan brings back start again.
    pub fn restart<W: Workload>(&self, hosts: &mut Hosts<W>)
        ensures { look W.Workload hosts.new ≡ restarted (members self.now.returning) (look W.Workload hosts.old) }
    {
        restart(hosts, self.returning);
    }
}
