use calls::call::Call;
use cluster::cluster::Cluster;
use logger::logger::Logger;
use network::refusal::Refusal;
use std::process::Abort;
use workload::Workload;

/// A call, and what it answers.
pub type Row = (Call, Result<u64, Refusal>);

/// Makes the calls of a table in turn, and compares what each gives.
pub fn check_table<L: Logger, W: Workload>(
    rt: &impl Abort,
    cluster: &mut Cluster<L, W>,
    rows: &[Row],
) {
    for (call, answer) in rows {
        assert_eq!(rt; cluster.call(*call), *answer);
    }
}
