ghost use Rattle.std.specs.Prelude.{◌≡◌, ℕ, ◌<◌, Some, decimal};

use std::fmt;
use std::marker::Model;

/// The number of a host. There are never more than eight, and they are numbered from 0.
#[derive(Clone, Copy, PartialEq, Eq, Debug)]
pub struct Host(u8);

impl Model for Host {
    ghost Value = { ℕ };

    ghost view = { λ h. h.0 };

    ghost invariant = { λ h. h.0 < 8 };

    ghost inverse = { λ n. record { 0 = n } };
}

impl Host {
    pub const fn new(number: u8) -> Host
        requires { number < 8 }
        ensures { result ≡ number }
    {
        Host(number)
    }

    pub const fn number(self) -> u8
        ensures value { result ≡ self }
        ensures low { result < 8 }
    {
        self.0
    }

    /// Where a table of eight has its place for the host.
    pub const fn index(self) -> usize
        ensures value { result ≡ self }
        ensures low { result < 8 }
    {
        self.number() as usize
    }
}

impl fmt::Display for Host {
    ghost output = { λ h. Some (decimal h) };

    fn fmt<W: fmt::Write>(&self, f: &mut fmt::Formatter<W>) -> fmt::Result {
        let number = self.number();
        write!(f, "{number}")
    }
}
