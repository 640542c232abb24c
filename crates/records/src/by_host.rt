ghost use Rattle.std.specs.Prelude.{◌≡◌, ℕ, ◌<◌, [], ◌∷◌, ◌++◌, length};
ghost use Rattle.std.specs.List.{slice_get};
ghost use Rattle.workload.specs.Machine.{replaced};
ghost use Rattle.records.specs.View.{row};

use arrayvec::ArrayVec;
use workload::host::Host;

/// A list of at most 64 numbers for each host.
#[derive(Drop)]
pub struct ByHost {
    lists: [ArrayVec<u64, 64>; 8],
}

impl ByHost {
    /// Every list is empty.
    pub fn empty() -> ByHost
        ensures { row result ≡ (λ (h : ℕ). []) }
    {
        ByHost {
            lists: Default::default(),
        }
    }

    /// How many numbers host p has.
    pub fn len(&self, p: Host) -> u8
        ensures { result ≡ length (row self.now p) }
    {
        self.lists[p.index()].len() as u8
    }

    /// The number of host p at place i, from 0.
    pub fn get(&self, p: Host, i: u8) -> Option<u64>
        ensures { result ≡ slice_get (row self.now p) i }
    {
        self.lists[p.index()].get(i as usize).copied()
    }

    /// Adds a number to those of host p.
    // Room is asked, here and wherever a list grows: a push that may fail would let calls fail that cannot.
    pub fn push(&mut self, p: Host, x: u64)
        requires { length (row self.old p) < 64 }
        ensures { row self.new ≡ replaced (row self.old) p (row self.old p ++ (x ∷ [])) }
    {
        self.lists[p.index()].push(x);
    }

    /// Every list is empty again.
    pub fn clear(&mut self)
        ensures { row self.new ≡ (λ (h : ℕ). []) }
    {
        for list in self.lists.iter_mut() {
            list.clear();
        }
    }
}
