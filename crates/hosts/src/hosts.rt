use crate::outside::Outside;
use records::records::Records;
use workload::host_count::HostCount;

mod checks;
mod reads;
mod writes;

pub use checks::check_count;

/// n hosts: what each one has, the outside world's side of their messages, and the workload that says what they do.
#[derive(Drop)]
pub struct Hosts<W> {
    n: HostCount,
    records: Records,
    outside: Outside,
    workload: W,
}
