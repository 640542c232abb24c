ghost use Rattle.std.specs.Prelude.{◌≡◌, ◌+◌, ◌<◌, ◌≤◌, true, length, is_some, IfSome};
ghost use Rattle.std.specs.List.{slice_get};
ghost use Rattle.network.specs.Network.{waiting};
ghost use Rattle.hosts.specs.View.{look};

use super::Hosts;
use network::message::Message;
use workload::Workload;
use workload::host::Host;
use workload::host_count::HostCount;
use workload::sender::Sender;

impl<W: Workload> Hosts<W> {
    pub fn n(&self) -> HostCount
        ensures { result ≡ (look W.Workload self.now).n }
    {
        self.n
    }

    /// How many messages host p has taken.
    pub fn receipts(&self, p: Host) -> u8
        ensures { result ≡ length ((look W.Workload self.now).hosts p).receipts }
    {
        self.records.len(p)
    }

    /// How many posts there are to host p.
    pub fn posts(&self, p: Host) -> u8
        ensures { result ≡ length ((look W.Workload self.now).posts p) }
    {
        self.outside.posts.len(p)
    }

    /// How many outputs host p has released.
    pub fn released(&self, p: Host) -> u8
        ensures { result ≡ length ((look W.Workload self.now).released p) }
    {
        self.outside.released.len(p)
    }

    /// The output at place i, from 0, of host p.
    pub fn output(&self, p: Host, i: u8) -> Option<u64>
        ensures value { result ≡ slice_get ((look W.Workload self.now).hosts p).outputs i }
        ensures few { is_some result ≡ true → i < 64 }
    {
        self.records.output(p, i)
    }

    /// The message from s that waits at p.
    pub fn waiting(&self, p: Host, s: Sender) -> Option<Message>
        ensures value { result ≡ waiting (look W.Workload self.now) p s }
        ensures ssn { IfSome result (λ t. (t.sender ≡ s) × (1 ≤ t.ssn) × (t.ssn ≤ length ((look W.Workload self.now).hosts p).receipts + 1)) }
    {
        let received = self.records.received(p, s.number());
        let body = match s.host() {
            Some(sender) => self.records.sent(sender, p.number(), received),
            None => self.outside.posts.get(p, received),
        }?;
        Some(Message {
            sender: s.number(),
            ssn: received + 1,
            body,
        })
    }

    /// The number that stands for the state of host p.
    pub fn show(&self, p: Host) -> u64
        ensures { result ≡ (look W.Workload self.now).machine.shown ((look W.Workload self.now).hosts p).state }
    {
        self.workload.show(p)
    }
}
