//! Family-based logging at work: one message is passed on from host 0 to 1 to 2, of three hosts of which one
//! may be down. After each step: which determinants each host holds, and who it knows to hold them.
#![tactic(auto)]

ghost use Rattle.std.specs.Prelude.{◌≡◌};

use logger::determinant::Determinant;
use logger::host_set::HostSet;
use logger::logger::Logger;
use loggers::entry::Entry;
use loggers::family_based::FamilyBased;
use network::seq_no::SeqNo;
use std::io;
use workload::host::Host;
use workload::host_count::HostCount;
use workload::sender::Sender;

fn hosts() -> HostCount
    ensures { result ≡ 3 }
{
    HostCount::new(3)
}

// No `Display`: how a set is printed is this program's alone.
fn print_set(rt: &HostRuntime, set: HostSet) -> io::Result<()> {
    for h in hosts().hosts() {
        if set.contains(h) {
            print!(rt; " {h}")?;
        }
    }
    println!(rt; "")
}

/// What host h holds of the first receipt of host q.
// No `Display` of a determinant: this program alone prints one.
fn print_held(rt: &HostRuntime, log: &FamilyBased, h: Host, q: Host) -> io::Result<()> {
    if let Some(Entry { source, holders }) = log.known_holders(h, q, SeqNo::new(1)) {
        let sender = source.sender;
        let ssn = source.ssn;
        print!(rt; "  host {h} holds ({q}, 1, {sender}, {ssn}), known to be held by")?;
        print_set(rt, holders)?;
    }
    Ok(())
}

fn print_all(rt: &HostRuntime, log: &FamilyBased) -> io::Result<()> {
    for h in hosts().hosts() {
        for q in hosts().hosts() {
            print_held(rt, log, h, q)?;
        }
    }
    Ok(())
}

/// Host p notes its first receipt: message 1 from s.
fn note_first(log: &mut FamilyBased, p: Host, s: Sender) {
    let determinant = Determinant {
        receiver: p.number(),
        number: 1,
        sender: s.number(),
        ssn: 1,
    };
    log.note(p, determinant);
}

/// Host p takes the message from host s, and with it what too few hosts are known to hold.
fn pass_on(rt: &HostRuntime, log: &mut FamilyBased, s: Host, p: Host) -> io::Result<()> {
    log.carry(s, p);
    note_first(log, p, Sender::from(s));
    println!(rt; "Host {p} takes the message from host {s}.")?;
    print_all(rt, log)
}

fn print_findable(rt: &HostRuntime, log: &FamilyBased) -> io::Result<()> {
    for q in hosts().hosts() {
        match log.find(q, SeqNo::new(1)) {
            Some((sender, ssn)) => println!(rt;
                "  receipt 1 of host {q} is found: message {ssn} from {sender}"
            )?,
            None => println!(rt; "  receipt 1 of host {q} is not found")?,
        }
    }
    Ok(())
}

fn main(rt: HostRuntime) -> io::Result<()> {
    println!(rt;
        "Determinants are (receiver, receipt number, sender, ssn); sender 8 is the outside world."
    )?;
    let (a, b, c) = (Host::new(0), Host::new(1), Host::new(2));
    let mut log = FamilyBased::new();
    log.start(hosts(), 1);
    note_first(&mut log, a, Sender::OUTSIDE);
    println!(rt; "Host 0 takes a post.")?;
    print_all(&rt, &log)?;
    pass_on(&rt, &mut log, a, b)?;
    pass_on(&rt, &mut log, b, c)?;
    log.lose(b);
    println!(rt; "Host 1 crashes. What can still be found:")?;
    print_findable(&rt, &log)?;
    log.rejoin();
    println!(rt; "Host 1 is back, with what the others hold.")?;
    print_all(&rt, &log)
}
