ghost use Rattle.std.specs.Prelude.{◌≡◌, ◌≤◌, length};
ghost use Rattle.records.specs.Index.{Counted, Filed};

use crate::by_host::ByHost;
use arrayvec::ArrayVec;
use network::message::Receipt;

mod grow;
mod reads;

/// What one host received, sent and put out, in order. A message gives at most one send and one output, so
/// there are never more of either than receipts.
#[derive(Drop)]
pub struct HostRecord {
    receipts: ArrayVec<Receipt, 64>,
    sends: ArrayVec<(u8, u64), 64>,
    outputs: ArrayVec<u64, 64>,
    /// How many receipts there are from each sender.
    taken: [u8; 9],
    /// The bodies of the sends to each host.
    sent: ByHost,
    ghost replies: { length sends.items ≤ length receipts.items },
    ghost statements: { length outputs.items ≤ length receipts.items },
    ghost counted: { Counted taken receipts.items },
    ghost filed: { Filed sent sends.items },
}
