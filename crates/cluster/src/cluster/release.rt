ghost use Rattle.std.specs.Prelude.{◌≡◌};
ghost use Rattle.calls.specs.Calls.{Called};
ghost use Rattle.calls.specs.declared.call.Call.TheVariants.{Release};
ghost use Rattle.cluster.specs.View.{system};

use super::Cluster;
use logger::logger::Logger;
use network::refusal::Refusal;
use workload::Workload;

impl<L: Logger, W: Workload> Cluster<L, W> {
    /// Host p hands the outside world its oldest output that it has not released, once its past is safe. Answers it.
    pub fn release(&mut self, p: u8) -> Result<u64, Refusal>
        ensures { Called L.Logger (system W.Workload self.old) (Release p) result (system W.Workload self.new) }
    {
        let host = self.hosts.check_host(p)?;
        self.check_up(host)?;
        let released = self.hosts.released(host);
        let output = self
            .hosts
            .output(host, released)
            .ok_or(Refusal::NothingToRelease)?;
        self.logger.spread(host);
        self.hosts.release(host, output);
        Ok(output)
    }
}
