ghost use Rattle.std.specs.Prelude.{◌≡◌};
ghost use Rattle.network.specs.Network.{unstarted, posting, delivering, starting, showing, output_at};
ghost use Rattle.hosts.specs.View.{look};

use super::CrashFree;
use crate::hosts::{Hosts, check_count};
use network::refusal::Refusal;
use workload::Workload;

impl<W: Workload> CrashFree<W> {
    /// A run that has not started, over this workload: it has no hosts.
    pub fn new(workload: W) -> CrashFree<W>
        ensures { look W.Workload result.hosts ≡ unstarted (W.Workload.machine (W.Workload.hosts workload)) (W.Workload.state workload) }
    {
        CrashFree {
            hosts: Hosts::new(workload),
        }
    }

    /// Starts anew with n hosts.
    pub fn start(&mut self, n: u8) -> Result<u64, Refusal>
        ensures { starting W.Workload (look W.Workload self.old.hosts) n ≡ (result, look W.Workload self.new.hosts) }
    {
        let n = check_count(n)?;
        self.hosts.start(n);
        Ok(0)
    }

    /// The outside world posts a body to host p. Answers its ssn.
    pub fn post(&mut self, p: u8, body: u64) -> Result<u64, Refusal>
        ensures { posting (look W.Workload self.old.hosts) p body ≡ (result, look W.Workload self.new.hosts) }
    {
        let host = self.hosts.check_host(p)?;
        self.hosts.try_post(host, body)
    }

    /// Host p takes the next message from s. Answers its ssn.
    pub fn deliver(&mut self, p: u8, s: u8) -> Result<u64, Refusal>
        ensures { delivering (look W.Workload self.old.hosts) p s ≡ (result, look W.Workload self.new.hosts) }
    {
        let (host, sender) = self.hosts.check_pair(p, s)?;
        let message = self.hosts.check_message(host, sender)?;
        self.hosts.take(host, message);
        Ok(message.ssn as u64)
    }

    /// The number that stands for the state of host p.
    pub fn show(&self, p: u8) -> Result<u64, Refusal>
        ensures { result ≡ showing (look W.Workload self.now.hosts) p }
    {
        let host = self.hosts.check_host(p)?;
        Ok(self.hosts.show(host))
    }

    /// The output at place i, from 0, of host p, if there is one.
    pub fn output(&self, p: u8, i: u8) -> Option<u64>
        ensures { result ≡ output_at (look W.Workload self.now.hosts) p i }
    {
        let host = self.hosts.n().host(p)?;
        self.hosts.output(host, i)
    }
}
