//! What a host holds of a receipt under family-based logging.
use logger::host_set::HostSet;
use network::message::Receipt;

/// Which message was taken, and the hosts that are known to hold that.
#[derive(Clone, Copy)]
pub struct Entry {
    pub source: Receipt,
    pub holders: HostSet,
}
