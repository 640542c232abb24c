ghost use Rattle.std.specs.Prelude.{◌≡◌, ◌++◌, Some, codes, decimal};
ghost use Rattle.network.specs.Checks.{number};

use std::fmt;

/// Why a call is refused: the first of its checks that fails.
#[derive(Clone, Copy, PartialEq, Eq, Debug)]
pub enum Refusal {
    /// The number of hosts, n, is 2 to 8.
    HostCount = 1,
    /// The number of hosts that may be down at once, f, is 1 to n - 1.
    DownBound = 2,
    /// The host is below n.
    NoSuchHost = 3,
    /// The sender is the outside world, or below n and not the host.
    NoSuchSender = 4,
    /// The point at which a delivery is cut is 0 to 3.
    NoSuchPoint = 5,
    /// The cluster is whole: it was opened, and never more than f hosts were down at once since.
    NotWhole = 6,
    /// The host is up.
    HostDown = 7,
    /// The sender is the outside world, or up.
    SenderDown = 8,
    /// A message waits.
    NothingWaits = 9,
    /// The host has under 64 receipts.
    ReceiptsFull = 10,
    /// The host has under 64 posts.
    PostsFull = 11,
    /// The host has an output that it has not released.
    NothingToRelease = 12,
    /// Some host is down.
    NobodyDown = 13,
    /// Every returning host reached its target.
    TargetMissed = 14,
}

/// The number of the check.
impl From<Refusal> for u8 {
    ghost from_gives = { λ e k. k ≡ number e };

    fn from(refusal: Refusal) -> u8 {
        refusal as u8
    }
}

impl fmt::Display for Refusal {
    ghost output = { λ e. Some (codes "refused by check " ++ decimal (number e)) };

    fn fmt<W: fmt::Write>(&self, f: &mut fmt::Formatter<W>) -> fmt::Result {
        write!(f, "refused by check {}", u8::from(*self))
    }
}
