use super::ignored::check_ignored;
use std::process::Abort;
use workload::host::Host;
use workload::host_count::HostCount;
use workload::spacing::Spacing;
use workload::spacing::mark::Mark;
use workload::{OUTSIDE, Workload};

/// Two hosts at the margin.
fn margin() -> Spacing {
    let mut spacing = Spacing::new();
    spacing.start(HostCount::new(2));
    spacing
}

/// Host 0 takes the width: it shows these bits twice, and sends the same body on.
fn check_taken(rt: &impl Abort, bits: u32, what: &str) {
    let mut spacing = margin();
    let body = Mark::width(bits);
    let reaction = spacing.step(Host::new(0), OUTSIDE, body);
    assert_eq!(rt;
        spacing.show(Host::new(0)),
        bits as u64 * 0x1_0000_0001,
        "{what}"
    );
    assert_eq!(rt; reaction.send, Some((1, body)), "{what}");
    assert_eq!(rt; reaction.output, None, "{what}");
}

#[test]
fn widths_up_to_the_widest(rt: HostRuntime) {
    check_taken(&rt, 0x4580_0000, "4096.0");
    check_taken(&rt, 0x0000_0001, "the least subnormal");
    check_taken(&rt, 0, "zero");
    let rows = [
        (Mark::width(0x4580_0001), "just above 4096.0"),
        (Mark::width(0x8000_0000), "negative zero"),
        (Mark::width(0x7f80_0000), "infinity"),
        (Mark::width(0x7fc0_0000), "not a number"),
        (0x300_0000_0000_0000, "kind 3"),
    ];
    for (body, what) in rows {
        check_ignored(&rt, &mut margin(), 0, OUTSIDE, body, what);
    }
}

#[test]
fn barline_comes_out_at_the_last_host(rt: HostRuntime) {
    let mut spacing = margin();
    let _ = spacing.step(Host::new(1), 0, Mark::width(0x3f80_0000));
    let body = Mark::BAR + 0xff_ffff_ffff;
    let first = spacing.step(Host::new(0), OUTSIDE, body);
    assert_eq!(rt; first.send, Some((1, body)), "other bits set, and sent on");
    assert_eq!(rt; first.output, None);
    let last = spacing.step(Host::new(1), 0, body);
    assert_eq!(rt; last.send, None);
    assert_eq!(rt; last.output, Some(0x3f80_0000_3f80_0000));
}

#[test]
fn greatest_width_stays(rt: HostRuntime) {
    let mut spacing = margin();
    let _ = spacing.step(Host::new(0), OUTSIDE, Mark::width(0x4000_0000));
    let _ = spacing.step(Host::new(0), OUTSIDE, Mark::width(0x3f80_0000));
    assert_eq!(rt; spacing.show(Host::new(0)), 0x4000_0000_4040_0000);
    spacing.reset(Host::new(0));
    assert_eq!(rt; spacing.show(Host::new(0)), 0);
}
