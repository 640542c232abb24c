ghost use Rattle.std.specs.Prelude.{◌≡◌};
ghost use Rattle.calls.specs.Calls.{Called};
ghost use Rattle.calls.specs.Cluster.{crashed, down_count};
ghost use Rattle.calls.specs.declared.call.Call.TheVariants.{Crash};
ghost use Rattle.cluster.specs.View.{system};

use super::Cluster;
use logger::logger::Logger;
use network::refusal::Refusal;
use workload::Workload;
use workload::host::Host;

impl<L: Logger, W: Workload> Cluster<L, W> {
    /// How many hosts are down.
    pub(super) fn down_count(&self) -> usize
        ensures { result ≡ down_count (system W.Workload self.now).cluster }
    {
        let down = self.down;
        self.hosts.n().hosts().filter(|h| down.contains(*h)).count()
    }

    /// Host p is down and has lost all that it had. The cluster is whole no more once more than f hosts are down.
    pub(super) fn take_down(&mut self, p: Host)
        ensures cluster { (system W.Workload self.new).cluster ≡ crashed (system W.Workload self.old).cluster p }
        ensures logger { self.new.logger ≡ self.old.logger }
    {
        self.hosts.reset(p);
        self.down = self.down.insert(p);
        self.whole = self.down_count() <= self.f as usize;
    }

    /// Host p crashes. Answers 0.
    pub fn crash(&mut self, p: u8) -> Result<u64, Refusal>
        ensures { Called L.Logger (system W.Workload self.old) (Crash p) result (system W.Workload self.new) }
    {
        let host = self.hosts.check_host(p)?;
        self.check_up(host)?;
        self.logger.lose(host);
        self.take_down(host);
        Ok(0)
    }
}
