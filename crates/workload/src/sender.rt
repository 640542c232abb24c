ghost use Rattle.std.specs.Prelude.{◌≡◌, ℕ, ◌≤◌, cond, Some, None, nat_lt};

use crate::OUTSIDE;
use crate::host::Host;
use std::marker::Model;

/// Who sent a message: a host, by its number, or the outside world.
#[derive(Clone, Copy, PartialEq, Eq, Debug)]
pub struct Sender(u8);

impl Model for Sender {
    ghost Value = { ℕ };

    ghost view = { λ s. s.0 };

    ghost invariant = { λ s. s.0 ≤ 8 };

    ghost inverse = { λ n. record { 0 = n } };
}

impl Sender {
    /// The outside world.
    pub const OUTSIDE: Sender = Sender(OUTSIDE);

    pub const fn number(self) -> u8
        ensures value { result ≡ self }
        ensures most { result ≤ 8 }
    {
        self.0
    }

    /// The host that sent it, if it is not the outside world.
    pub fn host(self) -> Option<Host>
        ensures { result ≡ cond (nat_lt self 8) (Some self) None }
    {
        if self.number() < OUTSIDE {
            Some(Host::new(self.number()))
        } else {
            None
        }
    }
}

impl From<Host> for Sender {
    ghost from_gives = { λ h s. s ≡ h };

    fn from(host: Host) -> Sender {
        Sender(host.number())
    }
}
