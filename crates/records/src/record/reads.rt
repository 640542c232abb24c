ghost use Rattle.std.specs.Prelude.{◌≡◌, ◌<◌, ◌≤◌, true, length, is_some};
ghost use Rattle.std.specs.List.{slice_get};
ghost use Rattle.network.specs.Network.{count_from, bodies_to};
ghost use Rattle.records.specs.View.{lists};

use super::HostRecord;
use network::message::Receipt;
use workload::host_count::HostCount;

/// How many of the receipts are of messages from s: for a number that the table has no place for.
fn count_among(receipts: &[Receipt], s: u8) -> usize
    ensures { result ≡ count_from s receipts.now }
{
    receipts.iter().filter(|r| r.sender == s).count()
}

/// The body at place i, from 0, of the sends to p: for a number that no host has.
// A loop, and not `filter(..).nth(i)`: the proof of that chain does not close.
fn find_among(sends: &[(u8, u64)], p: u8, i: u8) -> Option<u64>
    ensures { result ≡ slice_get (bodies_to p sends.now) i }
{
    let mut before = i;
    for send in sends {
        let (destination, body) = *send;
        if destination == p {
            if before == 0 {
                return Some(body);
            }
            before -= 1;
        }
    }
    None
}

impl HostRecord {
    /// How many messages the host has taken.
    pub fn len(&self) -> u8
        ensures { result ≡ length (lists self.now).receipts }
    {
        self.receipts.len() as u8
    }

    /// The output at place i, from 0.
    pub fn output(&self, i: u8) -> Option<u64>
        ensures value { result ≡ slice_get (lists self.now).outputs i }
        ensures few { is_some result ≡ true → i < 64 }
    {
        self.outputs.get(i as usize).copied()
    }

    /// How many messages it has received from s.
    pub fn received_from(&self, s: u8) -> u8
        ensures value { result ≡ count_from s (lists self.now).receipts }
        ensures few { result ≤ 64 }
        ensures low { result ≤ length (lists self.now).receipts }
    {
        let receipts = self.receipts.as_slice();
        if s < 9 {
            self.taken[s as usize]
        } else {
            count_among(receipts, s) as u8
        }
    }

    /// The body at place i, from 0, of its messages to p.
    pub fn sent_to(&self, p: u8, i: u8) -> Option<u64>
        ensures { result ≡ slice_get (bodies_to p (lists self.now).sends) i }
    {
        match HostCount::MOST.host(p) {
            Some(host) => self.sent.get(host, i),
            None => find_among(self.sends.as_slice(), p, i),
        }
    }
}
