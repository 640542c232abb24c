ghost use Rattle.std.specs.Prelude.{◌≡◌, ℕ, ◌≤◌, cond, length, Some, None, nat_lt};
ghost use Rattle.std.specs.List.{range_with_len};

use crate::host::Host;
use crate::host_range::HostRange;
use std::marker::Model;

/// How many hosts there are: at most eight.
// Not one type with `Host`, `Sender` and `SeqNo` by its bound: a count would then pass for a sender.
#[derive(Clone, Copy, PartialEq, Eq, Debug)]
pub struct HostCount(u8);

impl Model for HostCount {
    ghost Value = { ℕ };

    ghost view = { λ n. n.0 };

    ghost invariant = { λ n. n.0 ≤ 8 };

    ghost inverse = { λ n. record { 0 = n } };
}

impl HostCount {
    /// As many as there can be.
    pub const MOST: HostCount = HostCount(8);

    pub const fn new(number: u8) -> HostCount
        requires { number ≤ 8 }
        ensures { result ≡ number }
    {
        HostCount(number)
    }

    pub const fn number(self) -> u8
        ensures value { result ≡ self }
        ensures few { result ≤ 8 }
    {
        self.0
    }

    /// The host of this number, if there is one.
    pub fn host(self, number: u8) -> Option<Host>
        ensures { result ≡ cond (nat_lt number self) (Some number) None }
    {
        if number < self.number() {
            Some(Host::new(number))
        } else {
            None
        }
    }

    /// The hosts, lowest first.
    pub fn hosts(self) -> HostRange
        ensures hosts { result ≡ range_with_len 0 self }
        ensures few { length result ≤ 8 }
    {
        HostRange::below(self)
    }
}
