//! Sets of hosts 0 to 7.
ghost use Rattle.std.specs.Prelude.{◌≡◌};
ghost use Rattle.logger.specs.HostSets.{nobody, with_host, either, size, members};

use workload::host::Host;

/// Host h is in the set if bit h is 1.
#[derive(Clone, Copy, PartialEq, Eq, Debug)]
pub struct HostSet {
    bits: u8,
}

impl HostSet {
    /// No host.
    pub fn empty() -> HostSet
        ensures { members result ≡ nobody }
    {
        HostSet { bits: 0 }
    }

    /// The set, with host p in it.
    pub fn insert(self, p: Host) -> HostSet
        ensures { members result ≡ with_host (members self) p }
    {
        HostSet {
            bits: self.bits | (1 << p.number()),
        }
    }

    pub fn union(self, other: HostSet) -> HostSet
        ensures { members result ≡ either (members self) (members other) }
    {
        HostSet {
            bits: self.bits | other.bits,
        }
    }

    pub fn contains(self, h: Host) -> bool
        ensures { result ≡ members self h }
    {
        (self.bits >> h.number()) % 2 == 1
    }

    /// How many hosts are in the set.
    pub fn len(self) -> u8
        ensures { result ≡ size (members self) }
    {
        self.bits.count_ones() as u8
    }
}
