//! The hosts that a logger serves.
ghost use Rattle.std.specs.Prelude.{◌≡◌, nat_le};
ghost use Rattle.logger.specs.HostSets.{nobody, size, members};
ghost use Rattle.loggers.specs.FamilyBased.{join_one, join};

use logger::host_set::HostSet;
use workload::host::Host;
use workload::host_count::HostCount;

/// How many hosts there are, how many of them may be down at once, and which are.
// f is a plain number: its bound depends on n, and `Sizes` says it.
#[derive(Drop)]
pub struct Members {
    pub n: HostCount,
    pub f: u8,
    pub down: HostSet,
}

impl Members {
    /// All are up.
    pub fn new(n: HostCount, f: u8) -> Members
        ensures hosts { result.n ≡ n }
        ensures bound { result.f ≡ f }
        ensures none_down { members result.down ≡ nobody }
    {
        Members {
            n,
            f,
            down: HostSet::empty(),
        }
    }

    /// Whether so few hosts are known to hold a determinant that it has to travel on.
    pub fn too_few(&self, known: HostSet) -> bool
        ensures { result ≡ nat_le (size (members known)) self.now.f }
    {
        known.len() <= self.f
    }

    fn join_one(&self, known: HostSet, h: Host) -> HostSet
        ensures { members result ≡ join_one self.now.f (members self.now.down) (members known) h }
    {
        if self.too_few(known) && !self.down.contains(h) && !known.contains(h) {
            known.insert(h)
        } else {
            known
        }
    }

    /// The hosts that are known, and those that join them.
    pub fn join(&self, known: HostSet) -> HostSet
        ensures { members result ≡ join self.now.f (members self.now.down) (members known) self.now.n }
    {
        self.n.hosts().fold(known, |all, h| self.join_one(all, h))
    }
}
