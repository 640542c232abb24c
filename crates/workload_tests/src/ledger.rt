use super::ignored::check_ignored;
use std::process::Abort;
use workload::host::Host;
use workload::host_count::HostCount;
use workload::ledger::Ledger;
use workload::ledger::order::Order;
use workload::{OUTSIDE, Workload};

/// Host 0 of two hosts, with ten licences.
fn ten() -> Ledger {
    let mut ledger = Ledger::new();
    ledger.start(HostCount::new(2));
    let _ = ledger.step(Host::new(0), OUTSIDE, Order::Credit(10).into());
    ledger
}

/// A transfer of this many licences from host 0 to host 1 leaves the rest.
fn check_transfer(rt: &impl Abort, amount: u32, rest: u64) {
    let mut ledger = ten();
    let reaction = ledger.step(Host::new(0), OUTSIDE, Order::Transfer(1, amount).into());
    assert_eq!(rt; ledger.show(Host::new(0)), rest);
    assert_eq!(rt; reaction.send, Some((1, Order::Arrival(amount).into())));
}

#[test]
fn transfers_up_to_the_balance(rt: HostRuntime) {
    check_transfer(&rt, 1, 9);
    check_transfer(&rt, 10, 0);
    for (amount, what) in [(0u32, "an amount of 0"), (11, "one more than the balance")] {
        let body = Order::Transfer(1, amount).into();
        check_ignored(&rt, &mut ten(), 10, OUTSIDE, body, what);
    }
}

#[test]
fn transfers_to_other_hosts_alone(rt: HostRuntime) {
    for (to, what) in [(0u8, "to itself"), (2, "to host n")] {
        let body = Order::Transfer(to, 5).into();
        check_ignored(&rt, &mut ten(), 10, OUTSIDE, body, what);
    }
}

#[test]
fn senders_matter(rt: HostRuntime) {
    let rows = [
        (
            OUTSIDE,
            u64::from(Order::Arrival(5)),
            "an arrival from outside",
        ),
        (1, Order::Credit(5).into(), "a credit from a host"),
        (1, Order::Transfer(1, 5).into(), "a transfer from a host"),
        (1, Order::Statement.into(), "a statement from a host"),
        (OUTSIDE, 0x500_0000_0000_0001, "kind 5"),
    ];
    for (sender, body, what) in rows {
        check_ignored(&rt, &mut ten(), 10, sender, body, what);
    }
    let mut ledger = ten();
    let _ = ledger.step(Host::new(0), 1, Order::Arrival(5).into());
    assert_eq!(rt; ledger.show(Host::new(0)), 15);
}

#[test]
fn statement_puts_out_the_balance(rt: HostRuntime) {
    let mut ledger = ten();
    let reaction = ledger.step(Host::new(0), OUTSIDE, Order::Statement.into());
    assert_eq!(rt; reaction.output, Some(10));
    assert_eq!(rt; reaction.send, None);
    ledger.reset(Host::new(0));
    assert_eq!(rt; ledger.show(Host::new(0)), 0);
}
