ghost use Rattle.std.specs.Prelude.{◌≡◌, ◌<◌, ◌≤◌, [], ◌∷◌, length, IfOk, Some};
ghost use Rattle.network.specs.Checks.{checked};
ghost use Rattle.network.specs.Network.{waiting};
ghost use Rattle.calls.specs.Calls.{whole_check, up_check, taking_checks, whether};
ghost use Rattle.cluster.specs.View.{system};

use super::Cluster;
use logger::logger::Logger;
use network::message::Message;
use network::refusal::Refusal;
use workload::Workload;
use workload::host::Host;
use workload::sender::Sender;

impl<L: Logger, W: Workload> Cluster<L, W> {
    /// Check 6.
    pub(super) fn check_whole(&self) -> Result<(), Refusal>
        ensures { result ≡ checked (whole_check (system W.Workload self.now).cluster ∷ []) }
    {
        if !self.whole {
            return Err(Refusal::NotWhole);
        }
        Ok(())
    }

    /// Checks 6 and 7.
    pub(super) fn check_up(&self, p: Host) -> Result<(), Refusal>
        ensures { result ≡ checked (whole_check (system W.Workload self.now).cluster ∷ up_check (system W.Workload self.now).cluster p ∷ []) }
    {
        self.check_whole()?;
        if self.down.contains(p) {
            return Err(Refusal::HostDown);
        }
        Ok(())
    }

    /// Checks 6 to 10: the message that p is to take from s.
    pub(super) fn check_taking(&self, p: Host, s: Sender) -> Result<Message, Refusal>
        ensures checks { whether result ≡ checked (taking_checks (system W.Workload self.now).cluster p s) }
        ensures message { IfOk result (λ t. waiting (system W.Workload self.now).cluster.network p s ≡ Some t) }
        ensures range { IfOk result (λ t. (length ((system W.Workload self.now).cluster.network.hosts p).receipts < 64) × (t.sender ≡ s) × (1 ≤ t.ssn) × (t.ssn ≤ 64)) }
    {
        self.check_up(p)?;
        if let Some(sender) = s.host() {
            if self.down.contains(sender) {
                return Err(Refusal::SenderDown);
            }
        }
        self.hosts.check_message(p, s)
    }
}
