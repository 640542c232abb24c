ghost use Rattle.std.specs.Prelude.{◌≡◌, ◌<◌, length, IfSome, OnSome};
ghost use Rattle.hosts.specs.View.{look};
ghost use Rattle.logger.specs.HostSets.{members};
ghost use Rattle.calls.specs.Recovery.{replayable, lowest, replay, targets};

use super::Plan;
use hosts::hosts::Hosts;
use logger::logger::Logger;
use network::message::Message;
use network::seq_no::SeqNo;
use workload::Workload;
use workload::host::Host;

impl<'a, L: Logger> Plan<'a, L> {
    /// What host q can take next, if it is returning: the message of its next receipt, if that waits.
    fn next_of<W: Workload>(&self, hosts: &Hosts<W>, q: Host) -> Option<Message>
        ensures value { result ≡ replayable (L.found self.now.logger.now) (members self.now.returning) (look W.Workload hosts.now) q }
        ensures room { OnSome result (length ((look W.Workload hosts.now).hosts q).receipts < 64) }
    {
        let receipts = hosts.receipts(q);
        if !self.returning.contains(q) || receipts >= self.targets[q.index()] {
            return None;
        }
        let (s, ssn) = self.logger.find(q, SeqNo::after(receipts))?;
        let sender = hosts.sender(q, s)?;
        let message = hosts.waiting(q, sender)?;
        if message.ssn == ssn {
            Some(message)
        } else {
            None
        }
    }

    /// The lowest returning host that can take its next receipt's message, with that message.
    fn lowest<W: Workload>(&self, hosts: &Hosts<W>) -> Option<(Host, Message)>
        ensures value { result ≡ lowest (look W.Workload hosts.now).n (replayable (L.found self.now.logger.now) (members self.now.returning) (look W.Workload hosts.now)) }
        ensures room { IfSome result (λ x. length ((look W.Workload hosts.now).hosts x.0).receipts < 64) }
    {
        for q in hosts.n().hosts() {
            if let Some(message) = self.next_of(hosts, q) {
                return Some((q, message));
            }
        }
        None
    }

    /// The sum of the targets of the returning hosts.
    fn total<W: Workload>(&self, hosts: &Hosts<W>) -> u16
        ensures { result ≡ targets (L.found self.now.logger.now) (members self.now.returning) (look W.Workload hosts.now).n }
    {
        let mut sum = 0;
        for q in hosts.n().hosts() {
            if self.returning.contains(q) {
                sum += self.targets[q.index()] as u16;
            }
        }
        sum
    }

    /// Replays receipts: again and again the lowest returning host that can takes its next receipt's message, and
    /// nothing is noted. Answers how many were replayed.
    pub fn replay<W: Workload>(&self, hosts: &mut Hosts<W>) -> u16
        ensures { replay (L.found self.now.logger.now) (members self.now.returning) (targets (L.found self.now.logger.now) (members self.now.returning) (look W.Workload hosts.old).n) (look W.Workload hosts.old) ≡ (result, look W.Workload hosts.new) }
    {
        let most = self.total(hosts);
        for count in 0..most {
            let Some((q, message)) = self.lowest(hosts) else {
                return count;
            };
            hosts.take(q, message);
        }
        most
    }
}
