ghost use Rattle.calls.specs.Played.{Played};
ghost use Rattle.cluster.specs.View.{system};

use super::Cluster;
use calls::call::Made;
use logger::logger::Logger;
use network::refusal::Refusal;
use workload::Workload;

impl<L: Logger, W: Workload> Cluster<L, W> {
    /// Opens the cluster anew and makes the calls, one after the other; each gets its answer beside it.
    /// A refused open leaves everything as it was. This is the call that carries the recovery guarantee.
    pub fn play(&mut self, n: u8, f: u8, calls: &mut [Made]) -> Result<u64, Refusal>
        ensures { Played L.Logger W.Workload.machine n f (system W.Workload self.old) calls.old result calls.new (system W.Workload self.new) }
    {
        let opened = self.open(n, f)?;
        for made in calls.iter_mut() {
            made.answer = self.call(made.call);
        }
        Ok(opened)
    }
}
