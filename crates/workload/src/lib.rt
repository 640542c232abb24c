//! A workload: the deterministic rule by which each of n hosts takes messages.
//! The licence ledger and the spacing of music are the two that ship.
#![tactic(auto)]

ghost use Rattle.std.specs.Prelude.{◌≡◌, ℕ, ◌<◌, ◌≢◌, Some};
ghost use Rattle.workload.specs.Machine.{Machine, replaced};

use host::Host;
use host_count::HostCount;
use reaction::Reaction;

pub mod fields;
pub mod host;
pub mod host_count;
pub mod host_range;
pub mod ledger;
pub mod reaction;
pub mod sender;
pub mod spacing;

/// The sender number of the outside world. Hosts are numbered from 0, so at most eight of them leave it free.
pub const OUTSIDE: u8 = 8;

/// A workload is known by its number of hosts and a state for each of them. No method refuses.
///
/// Each method is asked of any host, and not only of those below n: so whoever calls it need not know what n is now.
pub trait Workload {
    /// What one host holds.
    type State;

    /// The number of hosts, n.
    ghost hosts: { Self → ℕ };

    /// The state of each host.
    ghost state: { Self → ℕ → Self.State };

    /// What the hosts do, by n: the state that each begins in, the rule, and what is shown of a state.
    ghost machine: { ℕ → Machine Self.State };

    /// n hosts, each in its first state.
    fn start(&mut self, n: HostCount)
        ensures hosts { hosts self.new ≡ n }
        ensures state { state self.new ≡ (machine n).first };

    /// Host p is in its first state again.
    fn reset(&mut self, p: Host)
        ensures hosts { hosts self.new ≡ hosts self.old }
        ensures state { state self.new ≡ replaced (state self.old) p ((machine (hosts self.old)).first p) };

    /// Host p takes a message from s: its state alone is replaced, and the answer is what it sends and puts out.
    fn step(&mut self, p: Host, s: u8, body: u64) -> Reaction
        ensures hosts { hosts self.new ≡ hosts self.old }
        ensures state { state self.new ≡ replaced (state self.old) p ((machine (hosts self.old)).rule p (state self.old p) s body).state }
        ensures reaction { result ≡ ((machine (hosts self.old)).rule p (state self.old p) s body).reaction };

    /// One number that stands for the state of host p.
    fn show(&self, p: Host) -> u64
        ensures { result ≡ (machine (hosts self.now)).shown (state self.now p) };

    /// A message goes to another host.
    ghost addressed: { (n p : ℕ) (x : Self.State) (s body to sent : ℕ) → ((machine n).rule p x s body).reaction.send ≡ Some (to, sent) → (to < n) × (to ≢ p) };
}
