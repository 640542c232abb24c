ghost use Rattle.std.specs.Prelude.{◌≡◌, ◌<◌, ◌++◌, length, slice_index};
ghost use Rattle.arrayvec.specs.ArrayVec.{array_vec_len};
ghost use Rattle.network.specs.Host.{optional};
ghost use Rattle.records.specs.Index.{RoomFor, one_taken, with_filed};
ghost use Rattle.records.specs.View.{lists, no_lists, row, with_taken};

use super::HostRecord;
use crate::by_host::ByHost;
use arrayvec::ArrayVec;
use network::message::{Message, Receipt};
use workload::host_count::HostCount;
use workload::reaction::Reaction;

/// One receipt more from s, if there is a place for that sender.
fn count_sender(taken: &mut [u8; 9], s: u8)
    requires { s < 9 → slice_index taken.old s < 64 }
    ensures { taken.new ≡ one_taken taken.old s }
{
    if s < 9 {
        taken[s as usize] += 1;
    }
}

/// Adds an item, if there is one.
fn push_some<T: Default + Drop>(list: &mut ArrayVec<T, 64>, item: Option<T>)
    requires { array_vec_len list.old < 64 }
    ensures { list.new.items ≡ list.old.items ++ optional item }
{
    if let Some(x) = item {
        list.push(x);
    }
}

/// Files the body of a send, if there is one, with those to its host.
fn file(sent: &mut ByHost, send: Option<(u8, u64)>)
    requires { RoomFor (row sent.old) send }
    ensures { row sent.new ≡ with_filed (row sent.old) send }
{
    if let Some((p, body)) = send {
        if let Some(host) = HostCount::MOST.host(p) {
            sent.push(host, body);
        }
    }
}

/// A host that has taken nothing.
impl Default for HostRecord {
    ghost is_default = { λ r. lists r ≡ no_lists };

    fn default() -> HostRecord {
        HostRecord {
            receipts: ArrayVec::new(),
            sends: ArrayVec::new(),
            outputs: ArrayVec::new(),
            taken: [0; 9],
            sent: ByHost::empty(),
        }
    }
}

impl HostRecord {
    /// The host took a message, and did what the reaction says.
    // Room is asked: a record that may refuse would let calls fail that cannot.
    pub fn grow(&mut self, message: Message, reaction: Reaction)
        requires { length (lists self.old).receipts < 64 }
        ensures { lists self.new ≡ with_taken (lists self.old) message reaction }
    {
        file(&mut self.sent, reaction.send);
        count_sender(&mut self.taken, message.sender);
        self.receipts.push(Receipt::from(message));
        push_some(&mut self.sends, reaction.send);
        push_some(&mut self.outputs, reaction.output);
    }

    /// The host loses all of it.
    pub fn clear(&mut self)
        ensures { lists self.new ≡ no_lists }
    {
        // Then it has no sends and no outputs either.
        if self.receipts.is_empty() {
            return;
        }
        self.receipts.clear();
        self.sends.clear();
        self.outputs.clear();
        self.taken = [0; 9];
        self.sent.clear();
    }
}
