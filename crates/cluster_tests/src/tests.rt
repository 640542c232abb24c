use super::tables::check_table;
use calls::call::Call;
use cluster::cluster::Cluster;
use logger::logger::Logger;
use loggers::family_based::FamilyBased;
use loggers::pessimistic::Pessimistic;
use network::refusal::Refusal;
use workload::OUTSIDE;
use workload::ledger::Ledger;
use workload::ledger::order::Order;

fn ledger() -> Cluster<Pessimistic, Ledger> {
    Cluster::new(Pessimistic::new(), Ledger::new())
}

fn family_ledger() -> Cluster<FamilyBased, Ledger> {
    Cluster::new(FamilyBased::new(), Ledger::new())
}

#[test]
fn nothing_before_an_open(rt: HostRuntime) {
    check_table(
        &rt,
        &mut ledger(),
        &[
            (Call::Post(0, 0), Err(Refusal::NoSuchHost)),
            (Call::Show(0), Err(Refusal::NoSuchHost)),
            (Call::Recover, Err(Refusal::NotWhole)),
        ],
    );
}

#[test]
fn sizes_of_an_open(rt: HostRuntime) {
    let mut cluster = ledger();
    assert_eq!(rt; cluster.open(1, 1), Err(Refusal::HostCount), "one host");
    assert_eq!(rt; cluster.open(9, 1), Err(Refusal::HostCount), "nine hosts");
    assert_eq!(rt;
        cluster.open(4, 0),
        Err(Refusal::DownBound),
        "none may be down"
    );
    assert_eq!(rt;
        cluster.open(4, 4),
        Err(Refusal::DownBound),
        "all may be down"
    );
    assert_eq!(rt; cluster.open(2, 1), Ok(0));
    assert_eq!(rt; cluster.open(8, 7), Ok(0));
}

#[test]
fn arguments_in_range(rt: HostRuntime) {
    let mut cluster = ledger();
    assert_eq!(rt; cluster.open(3, 1), Ok(0));
    let rows = [
        (Call::Post(3, 0), Err(Refusal::NoSuchHost)),
        (Call::Deliver(255, OUTSIDE), Err(Refusal::NoSuchHost)),
        (Call::Deliver(0, 0), Err(Refusal::NoSuchSender)),
        (Call::Deliver(0, 3), Err(Refusal::NoSuchSender)),
        (Call::Deliver(0, 9), Err(Refusal::NoSuchSender)),
        (Call::Cut(0, OUTSIDE, 4), Err(Refusal::NoSuchPoint)),
        (Call::Deliver(0, OUTSIDE), Err(Refusal::NothingWaits)),
        (Call::Release(0), Err(Refusal::NothingToRelease)),
        (Call::Recover, Err(Refusal::NobodyDown)),
    ];
    check_table(&rt, &mut cluster, &rows);
}

#[test]
fn hosts_that_are_down(rt: HostRuntime) {
    let mut cluster = ledger();
    assert_eq!(rt; cluster.open(3, 1), Ok(0));
    let rows = [
        (Call::Crash(0), Ok(0)),
        (Call::Crash(0), Err(Refusal::HostDown)),
        (Call::Show(0), Err(Refusal::HostDown)),
        (Call::Deliver(0, OUTSIDE), Err(Refusal::HostDown)),
        (Call::Deliver(1, 0), Err(Refusal::SenderDown)),
        (Call::Post(0, Order::Credit(5).into()), Ok(1)),
        (Call::Recover, Ok(0)),
        (Call::Deliver(0, OUTSIDE), Ok(1)),
        (Call::Show(0), Ok(5)),
        (Call::Crash(1), Ok(0)),
        (Call::Crash(2), Ok(0)),
        (Call::Show(0), Err(Refusal::NotWhole)),
        (Call::Recover, Err(Refusal::NotWhole)),
    ];
    check_table(&rt, &mut cluster, &rows);
}

#[test]
fn sixty_four_posts_and_receipts(rt: HostRuntime) {
    let mut cluster = ledger();
    assert_eq!(rt; cluster.open(2, 1), Ok(0));
    let credit = Order::Credit(1).into();
    for _ in 0..64u8 {
        assert!(rt; cluster.post(0, credit).is_ok());
        assert!(rt; cluster.deliver(0, OUTSIDE).is_ok());
    }
    let rows = [
        (Call::Post(0, credit), Err(Refusal::PostsFull)),
        (Call::Post(1, credit), Ok(1)),
        (Call::Post(1, Order::Transfer(0, 1).into()), Ok(2)),
        (Call::Deliver(1, OUTSIDE), Ok(1)),
        (Call::Deliver(1, OUTSIDE), Ok(2)),
        (Call::Deliver(0, 1), Err(Refusal::ReceiptsFull)),
    ];
    check_table(&rt, &mut cluster, &rows);
}

#[test]
fn points_of_a_cut(rt: HostRuntime) {
    for (point, replayed) in [(0u8, 0u64), (1, 0), (2, 1), (3, 1)] {
        let mut cluster = ledger();
        assert_eq!(rt; cluster.open(2, 1), Ok(0));
        let rows = [
            (Call::Post(0, Order::Credit(5).into()), Ok(1)),
            (Call::Cut(0, OUTSIDE, point), Ok(0)),
            (Call::Recover, Ok(replayed)),
        ];
        check_table(&rt, &mut cluster, &rows);
    }
}

#[test]
fn nothing_is_released_twice(rt: HostRuntime) {
    let mut cluster = family_ledger();
    assert_eq!(rt; cluster.open(2, 1), Ok(0));
    let rows = [
        (Call::Post(0, Order::Credit(5).into()), Ok(1)),
        (Call::Post(0, Order::Statement.into()), Ok(2)),
        (Call::Deliver(0, OUTSIDE), Ok(1)),
        (Call::Deliver(0, OUTSIDE), Ok(2)),
        (Call::Release(0), Ok(5)),
        (Call::Crash(0), Ok(0)),
        (Call::Recover, Ok(2)),
        (Call::Release(0), Err(Refusal::NothingToRelease)),
        (Call::Show(0), Ok(5)),
    ];
    check_table(&rt, &mut cluster, &rows);
}
