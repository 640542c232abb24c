ghost use Rattle.std.specs.Prelude.{Some};
ghost use Rattle.calls.specs.Text.{call_text};

use network::refusal::Refusal;
use std::fmt;

/// A call on an open cluster. Hosts and senders go by number, and a sender may be the outside world.
#[derive(Clone, Copy)]
pub enum Call {
    /// The outside world posts a body to a host.
    Post(u8, u64),
    /// A host takes the next message from a sender.
    Deliver(u8, u8),
    /// The same delivery is begun, and the host goes down in it: 0 before its determinants are carried over,
    /// 1 after that, 2 after the receipt is noted, 3 after all.
    Cut(u8, u8, u8),
    /// A host hands the outside world its oldest output that it has not released.
    Release(u8),
    /// A host goes down.
    Crash(u8),
    /// All hosts that are down come back.
    Recover,
    /// The number that stands for the state of a host.
    Show(u8),
}

impl fmt::Display for Call {
    ghost output = { λ c. Some (call_text c) };

    fn fmt<W: fmt::Write>(&self, f: &mut fmt::Formatter<W>) -> fmt::Result {
        match *self {
            Call::Post(p, body) => write!(f, "post {body:016x} to host {p}"),
            Call::Deliver(p, s) => write!(f, "host {p} takes from {s}"),
            Call::Cut(p, s, point) => {
                write!(f, "host {p} takes from {s} and goes down at point {point}")
            }
            Call::Release(p) => write!(f, "host {p} releases"),
            Call::Crash(p) => write!(f, "host {p} crashes"),
            Call::Recover => f.write_str("recover"),
            Call::Show(p) => write!(f, "host {p} shows"),
        }
    }
}

/// A call that was made, with its answer.
#[derive(Clone, Copy)]
pub struct Made {
    pub call: Call,
    pub answer: Result<u64, Refusal>,
}
