//! What is true of every crash-free run, for hosts that follow any workload.
//! Nothing here does anything when it runs: a function's contract is a theorem, and the crate is proved only if the theorem is.
ghost use Rattle.std.specs.Prelude.{ℕ};
ghost use Rattle.network.specs.Relay.{Orphan};
ghost use Rattle.network.specs.Theorems.{Worlds, Cuts, Replays, Runs};

use workload::Workload;

/// The worlds that runs come to, and how hosts that have part of their histories come back to one.
pub fn worlds<W: Workload>()
    ensures worlds { (n : ℕ) → Worlds (W.Workload.machine n) n }
    ensures replays { (n : ℕ) → Replays (W.Workload.machine n) n }
{}

/// What a cut of a world keeps, and which cuts runs come to. One cut shows that they do not come to all.
pub fn cuts<W: Workload>()
    ensures cuts { (n : ℕ) → Cuts (W.Workload.machine n) n }
    ensures orphan { Orphan }
{}

/// The runs that are fed, call by call, come to these worlds and no others.
pub fn runs<W: Workload>()
    ensures { (n : ℕ) → Runs (W.Workload.machine n) n }
{}
