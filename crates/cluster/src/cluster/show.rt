ghost use Rattle.std.specs.Prelude.{◌≡◌};
ghost use Rattle.calls.specs.Calls.{Called};
ghost use Rattle.calls.specs.declared.call.Call.TheVariants.{Show};
ghost use Rattle.cluster.specs.View.{system};

use super::Cluster;
use logger::logger::Logger;
use network::refusal::Refusal;
use workload::Workload;

impl<L: Logger, W: Workload> Cluster<L, W> {
    /// The number that stands for the state of host p.
    pub fn show(&self, p: u8) -> Result<u64, Refusal>
        ensures { Called L.Logger (system W.Workload self.now) (Show p) result (system W.Workload self.now) }
    {
        let host = self.hosts.check_host(p)?;
        self.check_up(host)?;
        Ok(self.hosts.show(host))
    }
}
