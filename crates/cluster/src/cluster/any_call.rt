ghost use Rattle.calls.specs.Calls.{Called};
ghost use Rattle.cluster.specs.View.{system};

use super::Cluster;
use calls::call::Call;
use logger::logger::Logger;
use network::refusal::Refusal;
use workload::Workload;

impl<L: Logger, W: Workload> Cluster<L, W> {
    /// Makes a call that goes by its name.
    // A call is data, read from a script or held in a list, so it is an enum and no closure.
    pub fn call(&mut self, call: Call) -> Result<u64, Refusal>
        ensures { Called L.Logger (system W.Workload self.old) call result (system W.Workload self.new) }
    {
        match call {
            Call::Post(p, body) => self.post(p, body),
            Call::Deliver(p, s) => self.deliver(p, s),
            Call::Cut(p, s, point) => self.cut(p, s, point),
            Call::Release(p) => self.release(p),
            Call::Crash(p) => self.crash(p),
            Call::Recover => self.recover(),
            Call::Show(p) => self.show(p),
        }
    }
}
