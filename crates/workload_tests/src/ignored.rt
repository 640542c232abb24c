use std::process::Abort;
use workload::Workload;
use workload::host::Host;

/// The message changed nothing of host 0, which still shows this number, and gave nothing.
pub fn check_ignored<W: Workload>(
    rt: &impl Abort,
    workload: &mut W,
    shown: u64,
    sender: u8,
    body: u64,
    what: &str,
) {
    let reaction = workload.step(Host::new(0), sender, body);
    assert_eq!(rt; workload.show(Host::new(0)), shown, "{what}");
    assert_eq!(rt; reaction.send, None, "{what}");
    assert_eq!(rt; reaction.output, None, "{what}");
}
