ghost use Rattle.std.specs.Prelude.{◌≡◌};
ghost use Rattle.calls.specs.Calls.{System, Opened};
ghost use Rattle.calls.specs.Cluster.{unopened};
ghost use Rattle.cluster.specs.View.{system};

use super::Cluster;
use hosts::hosts::{Hosts, check_count};
use logger::host_set::HostSet;
use logger::logger::Logger;
use network::refusal::Refusal;
use workload::Workload;

impl<L: Logger, W: Workload> Cluster<L, W> {
    /// A cluster over a logger and a workload. Before its first accepted open it has no hosts and is not whole.
    pub fn new(logger: L, workload: W) -> Cluster<L, W>
        ensures { system W.Workload result ≡ record { cluster = unopened (W.Workload.machine (W.Workload.hosts workload)) (W.Workload.state workload); logger = logger } }
    {
        Cluster {
            hosts: Hosts::new(workload),
            f: 0,
            whole: false,
            down: HostSet::empty(),
            logger,
        }
    }

    /// Starts cluster, logger and workload anew, with n hosts of which f may be down at once. Answers 0.
    // n and f are two plain numbers, here and wherever they go together: a check of its own refuses each.
    pub fn open(&mut self, n: u8, f: u8) -> Result<u64, Refusal>
        ensures { Opened L.Logger W.Workload.machine (system W.Workload self.old) n f result (system W.Workload self.new) }
    {
        let count = check_count(n)?;
        if f < 1 || f >= n {
            return Err(Refusal::DownBound);
        }
        self.hosts.start(count);
        self.logger.start(count, f);
        self.f = f;
        self.whole = true;
        self.down = HostSet::empty();
        Ok(0)
    }
}
