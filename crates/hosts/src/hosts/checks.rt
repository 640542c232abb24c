ghost use Rattle.std.specs.Prelude.{◌≡◌, ◌<◌, ◌≤◌, cond, [], ◌∷◌, length, IfOk, IfErr, Ok, Err, Some, None};
ghost use Rattle.network.specs.Checks.{checked, giving};
ghost use Rattle.network.specs.Network.{count_check, host_check, pair_checks, is_sender, message_checks, waiting};
ghost use Rattle.hosts.specs.View.{look};

use super::Hosts;
use network::message::Message;
use network::refusal::Refusal;
use workload::host::Host;
use workload::host_count::HostCount;
use workload::sender::Sender;
use workload::{OUTSIDE, Workload};

/// Check 1: there are 2 to 8 hosts.
pub fn check_count(n: u8) -> Result<HostCount, Refusal>
    ensures { result ≡ giving n (checked (count_check n ∷ [])) }
{
    if n < 2 || n > 8 {
        return Err(Refusal::HostCount);
    }
    Ok(HostCount::new(n))
}

impl<W: Workload> Hosts<W> {
    /// Check 3: the host is below n.
    pub fn check_host(&self, p: u8) -> Result<Host, Refusal>
        ensures { result ≡ giving p (checked (host_check (look W.Workload self.now) p ∷ [])) }
    {
        self.n.host(p).ok_or(Refusal::NoSuchHost)
    }

    /// Checks 3 and 4: and the sender is the outside world, or another host below n.
    // p and s are two plain numbers, here and in the calls: a check of its own refuses each.
    pub fn check_pair(&self, p: u8, s: u8) -> Result<(Host, Sender), Refusal>
        ensures { result ≡ giving (p, s) (checked (pair_checks (look W.Workload self.now) p s)) }
    {
        let host = self.check_host(p)?;
        let sender = self.sender(host, s).ok_or(Refusal::NoSuchSender)?;
        Ok((host, sender))
    }

    /// Checks 9 and 10: a message from s waits at p, and p has room for its receipt.
    pub fn check_message(&self, p: Host, s: Sender) -> Result<Message, Refusal>
        ensures message { IfOk result (λ t. (checked (message_checks (look W.Workload self.now) p s) ≡ Ok tt) × (waiting (look W.Workload self.now) p s ≡ Some t)) }
        ensures refusal { IfErr result (λ e. checked (message_checks (look W.Workload self.now) p s) ≡ Err e) }
        ensures range { IfOk result (λ t. (length ((look W.Workload self.now).hosts p).receipts < 64) × (t.sender ≡ s) × (1 ≤ t.ssn) × (t.ssn ≤ 64)) }
    {
        let message = self.waiting(p, s).ok_or(Refusal::NothingWaits)?;
        if self.receipts(p) >= 64 {
            return Err(Refusal::ReceiptsFull);
        }
        Ok(message)
    }

    /// The sender of this number, if it may send to host p: the outside world, or another host below n.
    pub fn sender(&self, p: Host, s: u8) -> Option<Sender>
        ensures { result ≡ cond (is_sender (look W.Workload self.now) p s) (Some s) None }
    {
        if s == OUTSIDE {
            return Some(Sender::OUTSIDE);
        }
        let host = self.n.host(s)?;
        if host == p {
            None
        } else {
            Some(Sender::from(host))
        }
    }
}
