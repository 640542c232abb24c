ghost use Rattle.std.specs.Prelude.{◌≡◌, ℕ, ◌+◌, ◌<◌, ◌≤◌};

use std::marker::Model;

/// A sequence number: which of a host's receipts, or which message of a sender to a receiver. It counts from 1, to 64.
#[derive(Clone, Copy, PartialEq, Eq, Debug)]
pub struct SeqNo(u8);

impl Model for SeqNo {
    ghost Value = { ℕ };

    ghost view = { λ k. k.0 };

    ghost invariant = { λ k. (1 ≤ k.0) × (k.0 ≤ 64) };

    ghost inverse = { λ k. record { 0 = k } };
}

impl SeqNo {
    pub const fn new(number: u8) -> SeqNo
        requires { (1 ≤ number) × (number ≤ 64) }
        ensures { result ≡ number }
    {
        SeqNo(number)
    }

    /// The number that comes next, after this many.
    pub const fn after(count: u8) -> SeqNo
        requires { count < 64 }
        ensures { result ≡ count + 1 }
    {
        SeqNo::new(count + 1)
    }

    pub const fn number(self) -> u8
        ensures value { result ≡ self }
        ensures least { 1 ≤ result }
        ensures most { result ≤ 64 }
    {
        self.0
    }
}
