ghost use Rattle.std.specs.Prelude.{◌≡◌};
ghost use Rattle.calls.specs.Calls.{Called};
ghost use Rattle.calls.specs.declared.call.Call.TheVariants.{Post};
ghost use Rattle.cluster.specs.View.{system};

use super::Cluster;
use logger::logger::Logger;
use network::refusal::Refusal;
use workload::Workload;

impl<L: Logger, W: Workload> Cluster<L, W> {
    /// The outside world posts a body to host p, which may be down. Answers its ssn.
    pub fn post(&mut self, p: u8, body: u64) -> Result<u64, Refusal>
        ensures { Called L.Logger (system W.Workload self.old) (Post p body) result (system W.Workload self.new) }
    {
        let host = self.hosts.check_host(p)?;
        self.check_whole()?;
        self.hosts.try_post(host, body)
    }
}
