ghost use Rattle.calls.specs.Calls.{Called};
ghost use Rattle.cluster.specs.View.{system};
ghost use Rattle.calls.specs.declared.call.Call.TheVariants.{Recover};

use super::Cluster;
use logger::host_set::HostSet;
use logger::logger::Logger;
use network::refusal::Refusal;
use replay::plan::Plan;
use workload::Workload;

impl<L: Logger, W: Workload> Cluster<L, W> {
    /// Brings all hosts that are down back together, each at its target. Answers the number of receipts replayed.
    pub fn recover(&mut self) -> Result<u64, Refusal>
        ensures { Called L.Logger (system W.Workload self.old) Recover result (system W.Workload self.new) }
    {
        self.check_whole()?;
        if self.down_count() == 0 {
            return Err(Refusal::NobodyDown);
        }
        let plan = Plan::new(&self.logger, self.down);
        plan.restart(&mut self.hosts);
        let count = plan.replay(&mut self.hosts);
        if !plan.all_reached(&self.hosts) {
            plan.restart(&mut self.hosts);
            self.whole = false;
            return Err(Refusal::TargetMissed);
        }
        self.logger.rejoin();
        self.down = HostSet::empty();
        Ok(count as u64)
    }
}
