//! Small runs of a logger, by hand.
ghost use Rattle.std.specs.Prelude.{◌≡◌};
ghost use Rattle.logger.specs.Meaning.{determinant};

use logger::determinant::Determinant;
use logger::logger::Logger;
use loggers::family_based::FamilyBased;
use loggers::pessimistic::Pessimistic;
use network::seq_no::SeqNo;
use std::test::Fail;
use workload::host::Host;
use workload::host_count::HostCount;

// Receipt `number` of `receiver`, of message `ssn` of `sender`.
fn receipt(receiver: u8, number: u8, sender: u8, ssn: u8) -> Determinant
    ensures { result ≡ determinant receiver number sender ssn }
{
    Determinant {
        receiver,
        number,
        sender,
        ssn,
    }
}

// Host 0 receives a message from outside, and crashes.
fn lose_one<L: Logger>(l: &mut L) -> Option<(u8, u8)> {
    l.start(HostCount::new(3), 1);
    l.note(Host::new(0), receipt(0, 1, 8, 1));
    l.lose(Host::new(0));
    l.find(Host::new(0), SeqNo::new(1))
}

// The same, but host 0 passed a message on before it crashed.
fn pass_on<L: Logger>(l: &mut L) -> Option<(u8, u8)> {
    l.start(HostCount::new(3), 1);
    l.note(Host::new(0), receipt(0, 1, 8, 1));
    l.carry(Host::new(0), Host::new(1));
    l.note(Host::new(1), receipt(1, 1, 0, 1));
    l.lose(Host::new(0));
    l.find(Host::new(0), SeqNo::new(1))
}

// Receipt 64 of host 0, spread to all four hosts, outlives three crashes, and after a return three more.
fn spread_wide<L: Logger>(l: &mut L) -> Option<(u8, u8)> {
    l.start(HostCount::new(4), 3);
    l.note(Host::new(0), receipt(0, 64, 8, 7));
    l.spread(Host::new(0));
    l.lose(Host::new(0));
    l.lose(Host::new(1));
    l.lose(Host::new(2));
    l.rejoin();
    l.lose(Host::new(3));
    l.lose(Host::new(1));
    l.lose(Host::new(0));
    l.find(Host::new(0), SeqNo::new(64))
}

#[test]
fn pessimistic_finds_what_was_noted(rt: HostRuntime) {
    let mut l = Pessimistic::new();
    assert_eq!(rt; lose_one(&mut l), Some((8, 1)));
    assert_eq!(rt; pass_on(&mut l), Some((8, 1)));
    assert_eq!(rt; spread_wide(&mut l), Some((8, 7)));
}

#[test]
fn family_based_finds_what_was_passed_on(rt: HostRuntime) {
    let mut l = FamilyBased::new();
    assert_eq!(rt; lose_one(&mut l), None);
    assert_eq!(rt; pass_on(&mut l), Some((8, 1)));
    assert_eq!(rt; spread_wide(&mut l), Some((8, 7)));
}

// A host that is down stays among the known holders, so the spread adds none.
#[test]
fn a_down_host_is_a_known_holder(rt: HostRuntime) -> Result<(), Fail> {
    let mut l = FamilyBased::new();
    l.start(HostCount::new(3), 1);
    l.note(Host::new(0), receipt(0, 1, 8, 1));
    l.carry(Host::new(0), Host::new(1));
    l.lose(Host::new(0));
    l.spread(Host::new(1));
    assert!(rt;
        l.known_holders(Host::new(2), Host::new(0), SeqNo::new(1))
            .is_none()
    );
    let e = l
        .known_holders(Host::new(1), Host::new(0), SeqNo::new(1))
        .ok_or("host 1 holds it")?;
    assert_eq!(rt; e.source.sender, 8);
    assert_eq!(rt; e.holders.len(), 2);
    assert!(rt; e.holders.contains(Host::new(0)));
    Ok(())
}
