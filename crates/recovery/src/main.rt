//! Clusters that crash and recover, under both loggers: licences moved among four hosts, then a line of music spaced
//! by three. Each list of calls is made by the call that carries the recovery guarantee, and printed with its answers.
#![tactic(auto)]

use calls::call::{Call, Made};
use cluster::cluster::Cluster;
use logger::host_set::HostSet;
use logger::logger::Logger;
use loggers::family_based::FamilyBased;
use loggers::pessimistic::Pessimistic;
use network::refusal::Refusal;
use std::io;
use workload::host_count::HostCount;
use workload::ledger::Ledger;
use workload::ledger::order::Order;
use workload::spacing::Spacing;
use workload::spacing::mark::Mark;
use workload::{OUTSIDE, Workload};

/// A call that is yet to be made.
fn todo(call: Call) -> Made {
    Made {
        call,
        answer: Ok(0),
    }
}

// No `Display`: an answer is a `Result`, whose text is not ours to say.
fn print_answer(rt: &HostRuntime, answer: Result<u64, Refusal>) -> io::Result<()> {
    match answer {
        Ok(answer) => print!(rt; ": {answer}"),
        Err(refusal) => print!(rt; ": {refusal}"),
    }
}

/// Who is down after a call, as whoever made it can tell.
fn down_after(down: HostSet, made: &Made) -> HostSet {
    match (made.call, made.answer) {
        (Call::Crash(p) | Call::Cut(p, _, _), Ok(_)) => HostCount::MOST
            .host(p)
            .map_or(down, |host| down.insert(host)),
        (Call::Recover, Ok(_)) => HostSet::empty(),
        _ => down,
    }
}

// No `Display` of a set: it is those that are not in it that are printed.
fn print_up(rt: &HostRuntime, n: u8, down: HostSet) -> io::Result<()> {
    print!(rt; " (up:")?;
    for host in HostCount::MOST.hosts() {
        if host.number() < n && !down.contains(host) {
            print!(rt; " {host}")?;
        }
    }
    println!(rt; ")")
}

/// Makes the calls on a cluster of n hosts of which f may be down, and prints each with its answer and who is up then.
fn play<L: Logger, W: Workload>(
    rt: &HostRuntime,
    cluster: &mut Cluster<L, W>,
    n: u8,
    f: u8,
    calls: &mut [Made],
) -> io::Result<()> {
    if cluster.play(n, f, calls).is_err() {
        return println!(rt; "  not opened");
    }
    let mut down = HostSet::empty();
    for made in calls.iter() {
        let call = made.call;
        print!(rt; "  {call}")?;
        print_answer(rt, made.answer)?;
        down = down_after(down, made);
        print_up(rt, n, down)?;
    }
    Ok(())
}

/// Host 0 hands licences to 1 and 2; a statement is released; host 1 goes down in a delivery and host 0 crashes.
/// Where the logger had not yet made that delivery safe, its message waits again and is taken after all.
fn licences() -> [Made; 17] {
    [
        todo(Call::Post(0, Order::Credit(100).into())),
        todo(Call::Post(0, Order::Transfer(1, 30).into())),
        todo(Call::Post(0, Order::Transfer(2, 5).into())),
        todo(Call::Deliver(0, OUTSIDE)),
        todo(Call::Deliver(0, OUTSIDE)),
        todo(Call::Deliver(0, OUTSIDE)),
        todo(Call::Deliver(2, 0)),
        todo(Call::Post(2, Order::Statement.into())),
        todo(Call::Deliver(2, OUTSIDE)),
        todo(Call::Release(2)),
        todo(Call::Cut(1, 0, 2)),
        todo(Call::Crash(0)),
        todo(Call::Recover),
        todo(Call::Deliver(1, 0)),
        todo(Call::Show(0)),
        todo(Call::Show(1)),
        todo(Call::Show(2)),
    ]
}

/// Three widths and a barline go down the line of three hosts; the last host shows its bits, crashes, and comes back to them.
fn music() -> [Made; 14] {
    [
        todo(Call::Post(0, Mark::width(0x4580_0000))),
        todo(Call::Post(0, Mark::width(0x3980_0000))),
        todo(Call::Deliver(0, OUTSIDE)),
        todo(Call::Deliver(0, OUTSIDE)),
        todo(Call::Deliver(1, 0)),
        todo(Call::Deliver(1, 0)),
        todo(Call::Deliver(2, 1)),
        todo(Call::Deliver(2, 1)),
        todo(Call::Show(2)),
        todo(Call::Show(1)),
        todo(Call::Crash(1)),
        todo(Call::Recover),
        todo(Call::Show(2)),
        todo(Call::Show(1)),
    ]
}

fn main(rt: HostRuntime) -> io::Result<()> {
    println!(rt; "Licences, pessimistic logging: 4 hosts, 2 may be down.")?;
    play(
        &rt,
        &mut Cluster::new(Pessimistic::new(), Ledger::new()),
        4,
        2,
        &mut licences(),
    )?;
    println!(rt; "Licences, family-based logging: 4 hosts, 2 may be down.")?;
    play(
        &rt,
        &mut Cluster::new(FamilyBased::new(), Ledger::new()),
        4,
        2,
        &mut licences(),
    )?;
    println!(rt; "Music, family-based logging: 3 hosts, 1 may be down.")?;
    play(
        &rt,
        &mut Cluster::new(FamilyBased::new(), Spacing::new()),
        3,
        1,
        &mut music(),
    )?;
    println!(rt; "Music, pessimistic logging: 3 hosts, 1 may be down.")?;
    play(
        &rt,
        &mut Cluster::new(Pessimistic::new(), Spacing::new()),
        3,
        1,
        &mut music(),
    )
}
