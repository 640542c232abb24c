//! Three hosts space a line of music, then two hosts move licences, and nothing crashes: each action is printed as it happens.
#![tactic(auto)]

use hosts::crash_free::CrashFree;
use hosts::crash_free::feed::{Delivery, Post};
use network::refusal::Refusal;
use std::io;
use workload::ledger::Ledger;
use workload::ledger::order::Order;
use workload::spacing::Spacing;
use workload::spacing::mark::Mark;
use workload::{OUTSIDE, Workload};

/// The bits of 4,096.0, the widest width that is taken.
const WIDE: u32 = 0x4580_0000;

/// The bits of 2^-12, too narrow to be felt beside 4,096.0.
const NARROW: u32 = 0x3980_0000;

/// What an answer says, printed at the end of an action's line.
// No `Display`: an answer is a `Result`, whose text is not ours to say.
fn print_answer(rt: &HostRuntime, answer: Result<u64, Refusal>) -> io::Result<()> {
    match answer {
        Ok(ssn) => println!(rt; "message {ssn}"),
        Err(refusal) => println!(rt; "{refusal}"),
    }
}

fn post<W: Workload>(rt: &HostRuntime, run: &mut CrashFree<W>, p: u8, body: u64) -> io::Result<()> {
    print!(rt; "  post {body:016x} to host {p}: ")?;
    print_answer(rt, run.post(p, body))
}

// A test and no `Display` of a sender: two lines of this program are all that prints one.
fn deliver<W: Workload>(rt: &HostRuntime, run: &mut CrashFree<W>, p: u8, s: u8) -> io::Result<()> {
    if s == OUTSIDE {
        print!(rt; "  host {p} takes from outside: ")?;
    } else {
        print!(rt; "  host {p} takes from host {s}: ")?;
    }
    print_answer(rt, run.deliver(p, s))
}

/// One mark posted to the first of three hosts, and passed on to the last.
fn pass_along(rt: &HostRuntime, run: &mut CrashFree<Spacing>, body: u64) -> io::Result<()> {
    post(rt, run, 0, body)?;
    deliver(rt, run, 0, OUTSIDE)?;
    deliver(rt, run, 1, 0)?;
    deliver(rt, run, 2, 1)
}

/// The position and the greatest width in a number that spacing shows or puts out.
// No `Display`: a shown state is a plain number.
fn print_placement(rt: &HostRuntime, shown: u64) -> io::Result<()> {
    let greatest = shown / 0x1_0000_0000;
    let position = shown % 0x1_0000_0000;
    println!(rt; "position {position:08x}, greatest width {greatest:08x}")
}

fn space_line(rt: &HostRuntime) -> io::Result<()> {
    println!(rt; "Three hosts space a line of music; each passes a mark on to the next.")?;
    let mut run = CrashFree::new(Spacing::new());
    if run.start(3).is_err() {
        return Ok(());
    }
    for bits in [WIDE, NARROW, NARROW] {
        pass_along(rt, &mut run, Mark::width(bits))?;
    }
    pass_along(rt, &mut run, Mark::BAR)?;
    if let Some(output) = run.output(2, 0) {
        print!(rt; "At the barline host 2 puts out ")?;
        print_placement(rt, output)?;
    }
    Ok(())
}

/// Three widths taken by host 0 of three in one call.
fn place_three(run: &mut CrashFree<Spacing>, widths: [u32; 3]) -> Result<u64, Refusal> {
    let [a, b, c] = widths;
    let mut posts = [new_post(a), new_post(b), new_post(c)];
    let mut deliveries = [Delivery {
        host: 0,
        sender: OUTSIDE,
        answer: Ok(0),
    }; 3];
    run.run(3, &mut posts, &mut deliveries)?;
    run.show(0)
}

fn new_post(bits: u32) -> Post {
    Post {
        host: 0,
        body: Mark::width(bits),
        answer: Ok(0),
    }
}

fn compare_orders(rt: &HostRuntime) -> io::Result<()> {
    println!(rt; "The same three widths in two orders:")?;
    let mut run = CrashFree::new(Spacing::new());
    for widths in [[WIDE, NARROW, NARROW], [NARROW, NARROW, WIDE]] {
        let [a, b, c] = widths;
        print!(rt; "  {a:08x} {b:08x} {c:08x}: ")?;
        if let Ok(shown) = place_three(&mut run, widths) {
            print_placement(rt, shown)?;
        }
    }
    Ok(())
}

fn move_licences(rt: &HostRuntime) -> io::Result<()> {
    println!(rt; "Host 0 is credited 100 licences, and hands 30 to host 1.")?;
    let mut run = CrashFree::new(Ledger::new());
    if run.start(2).is_err() {
        return Ok(());
    }
    post(rt, &mut run, 0, Order::Credit(100).into())?;
    post(rt, &mut run, 0, Order::Transfer(1, 30).into())?;
    deliver(rt, &mut run, 0, OUTSIDE)?;
    deliver(rt, &mut run, 1, 0)?;
    deliver(rt, &mut run, 0, OUTSIDE)?;
    deliver(rt, &mut run, 1, 0)?;
    post(rt, &mut run, 1, Order::Statement.into())?;
    deliver(rt, &mut run, 1, OUTSIDE)?;
    print_balances(rt, &run)
}

fn print_balances(rt: &HostRuntime, run: &CrashFree<Ledger>) -> io::Result<()> {
    if let Some(output) = run.output(1, 0) {
        println!(rt; "The statement of host 1 says {output}.")?;
    }
    for p in 0..2u8 {
        if let Ok(balance) = run.show(p) {
            println!(rt; "Host {p} has {balance}.")?;
        }
    }
    Ok(())
}

fn main(rt: HostRuntime) -> io::Result<()> {
    space_line(&rt)?;
    compare_orders(&rt)?;
    move_licences(&rt)
}
