ghost use Rattle.std.specs.Prelude.{◌≡◌, ℕ, ◌<◌, ◌≤◌, true, length, is_some};
ghost use Rattle.std.specs.List.{slice_get};
ghost use Rattle.workload.specs.Machine.{replaced};
ghost use Rattle.network.specs.Network.{count_from, bodies_to};
ghost use Rattle.records.specs.View.{lists_of, no_lists, with_taken};

use crate::record::HostRecord;
use network::message::Message;
use workload::host::Host;
use workload::reaction::Reaction;

/// The record of each host.
// Not one generic table with `ByHost`: only `empty`, `len` and the clearing are alike, in a line each.
#[derive(Drop)]
pub struct Records {
    records: [HostRecord; 8],
}

impl Records {
    /// Hosts that have taken nothing.
    pub fn empty() -> Records
        ensures { lists_of result ≡ (λ (h : ℕ). no_lists) }
    {
        Records {
            records: Default::default(),
        }
    }

    /// How many messages host p has taken.
    pub fn len(&self, p: Host) -> u8
        ensures { result ≡ length (lists_of self.now p).receipts }
    {
        self.records[p.index()].len()
    }

    /// How many messages from s host p has received.
    // s is any number: a narrower type would ask more. `few`, here, of outputs and in `Hosts`, was promised in public.
    pub fn received(&self, p: Host, s: u8) -> u8
        ensures value { result ≡ count_from s (lists_of self.now p).receipts }
        ensures few { result ≤ 64 }
        ensures low { result ≤ length (lists_of self.now p).receipts }
    {
        self.records[p.index()].received_from(s)
    }

    /// The body at place i, from 0, of the messages from host s to host p.
    pub fn sent(&self, s: Host, p: u8, i: u8) -> Option<u64>
        ensures { result ≡ slice_get (bodies_to p (lists_of self.now s).sends) i }
    {
        self.records[s.index()].sent_to(p, i)
    }

    /// The output at place i, from 0, of host p.
    pub fn output(&self, p: Host, i: u8) -> Option<u64>
        ensures value { result ≡ slice_get (lists_of self.now p).outputs i }
        ensures few { is_some result ≡ true → i < 64 }
    {
        self.records[p.index()].output(i)
    }

    /// Host p took a message, and did what the reaction says: its record is lent, and grows.
    // Room is asked: a record that may refuse would let calls fail that cannot.
    pub fn grow(&mut self, p: Host, message: Message, reaction: Reaction)
        requires { length (lists_of self.old p).receipts < 64 }
        ensures { lists_of self.new ≡ replaced (lists_of self.old) p (with_taken (lists_of self.old p) message reaction) }
    {
        self.records[p.index()].grow(message, reaction);
    }

    /// Host p loses what it had.
    pub fn clear(&mut self, p: Host)
        ensures { lists_of self.new ≡ replaced (lists_of self.old) p no_lists }
    {
        self.records[p.index()].clear();
    }

    /// All hosts lose what they had.
    pub fn clear_all(&mut self)
        ensures { lists_of self.new ≡ (λ (h : ℕ). no_lists) }
    {
        for record in self.records.iter_mut() {
            record.clear();
        }
    }
}
