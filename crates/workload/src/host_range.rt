ghost use Rattle.std.specs.Prelude.{◌≡◌, ℕ, ◌-◌, ◌≤◌, List, length};
ghost use Rattle.std.specs.List.{range_with_len};
ghost use Rattle.std.specs.Iterator.{YieldsFirst, item_count};

use crate::host::Host;
use crate::host_count::HostCount;
use std::marker::Model;

/// The hosts of a run of numbers, lowest first.
// A type of its own and no range mapped by `Host::new`, which asks of each number that it is below 8.
#[derive(Drop)]
pub struct HostRange {
    next: u8,
    end: u8,
}

impl Model for HostRange {
    ghost Value = { List ℕ };

    ghost view = { λ h. range_with_len h.next (h.end - h.next) };

    ghost invariant = { λ h. h.end ≤ 8 };
}

impl HostRange {
    /// The hosts of this many, from host 0 on.
    pub(super) fn below(end: HostCount) -> HostRange
        ensures hosts { result ≡ range_with_len 0 end }
        ensures few { length result ≤ 8 }
    {
        HostRange {
            next: 0,
            end: end.number(),
        }
    }
}

impl Iterator for HostRange {
    type Item = Host;

    ghost next_gives = { YieldsFirst (λ h. h) };

    ghost remaining = { item_count (λ h. h) };

    fn next(&mut self) -> Option<Host> {
        if self.next < self.end {
            let host = Host::new(self.next);
            self.next += 1;
            Some(host)
        } else {
            None
        }
    }
}
