ghost use Rattle.std.specs.Prelude.{◌≡◌, ◌+◌, ◌<◌, [], ◌∷◌, length, Ok};
ghost use Rattle.network.specs.Checks.{checked, unless_refused};
ghost use Rattle.network.specs.Host.{fresh, taking};
ghost use Rattle.network.specs.Network.{post_check, started, unstarted, with_post, with_released, with_host};
ghost use Rattle.hosts.specs.View.{look};

use super::Hosts;
use crate::outside::Outside;
use network::message::Message;
use network::refusal::Refusal;
use records::records::Records;
use workload::Workload;
use workload::host::Host;
use workload::host_count::HostCount;

impl<W: Workload> Hosts<W> {
    /// No hosts yet, over this workload.
    pub fn new(workload: W) -> Hosts<W>
        ensures { look W.Workload result ≡ unstarted (W.Workload.machine (W.Workload.hosts workload)) (W.Workload.state workload) }
    {
        Hosts {
            n: HostCount::new(0),
            records: Records::empty(),
            outside: Outside::new(),
            workload,
        }
    }

    /// n hosts that have taken nothing, and an outside world that has posted nothing.
    pub fn start(&mut self, n: HostCount)
        ensures { look W.Workload self.new ≡ started (W.Workload.machine n) n }
    {
        self.workload.start(n);
        self.n = n;
        self.records.clear_all();
        self.outside.clear();
    }

    /// The outside world posts a body to host p.
    // Room is asked, here and below: hosts that may refuse would let calls fail that cannot.
    pub fn add_post(&mut self, p: Host, body: u64)
        requires { length ((look W.Workload self.old).posts p) < 64 }
        ensures { look W.Workload self.new ≡ with_post (look W.Workload self.old) p body }
    {
        self.outside.posts.push(p, body);
    }

    /// The outside world posts a body to host p, if there is room: check 11. Answers its ssn.
    pub fn try_post(&mut self, p: Host, body: u64) -> Result<u64, Refusal>
        ensures { unless_refused (checked (post_check (look W.Workload self.old) p ∷ [])) (look W.Workload self.old) (Ok (length ((look W.Workload self.old).posts p) + 1), with_post (look W.Workload self.old) p body) ≡ (result, look W.Workload self.new) }
    {
        let posts = self.posts(p);
        if posts >= 64 {
            return Err(Refusal::PostsFull);
        }
        self.add_post(p, body);
        Ok(posts as u64 + 1)
    }

    /// Host p takes a message: the workload's step, then the receipt, the send and the output are added.
    // Room is asked, here and wherever a message is taken, and is told by what tested for it: a type for a host with room
    // would be no plainer, as one receipt may end it.
    pub fn take(&mut self, p: Host, message: Message)
        requires { length ((look W.Workload self.old).hosts p).receipts < 64 }
        ensures { look W.Workload self.new ≡ with_host (look W.Workload self.old) p (taking (look W.Workload self.old).machine p ((look W.Workload self.old).hosts p) message) }
    {
        let reaction = self.workload.step(p, message.sender, message.body);
        self.records.grow(p, message, reaction);
    }

    /// Host p hands an output to the outside world.
    pub fn release(&mut self, p: Host, output: u64)
        requires { length ((look W.Workload self.old).released p) < 64 }
        ensures { look W.Workload self.new ≡ with_released (look W.Workload self.old) p output }
    {
        self.outside.released.push(p, output);
    }

    /// Host p loses its state, receipts, sends and outputs, and is as if it had taken nothing.
    pub fn reset(&mut self, p: Host)
        ensures { look W.Workload self.new ≡ with_host (look W.Workload self.old) p (fresh (look W.Workload self.old).machine p) }
    {
        self.workload.reset(p);
        self.records.clear(p);
    }
}
