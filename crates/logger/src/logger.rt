//! A logger keeps the determinants of receipts, in the memory of hosts or in a stable store, so that the
//! receipts of a host that crashed can be replayed.
ghost use Rattle.std.specs.Prelude.{◌≡◌, ℕ, Some, None, Option};
ghost use Rattle.logger.specs.declared.determinant.Determinant.{Determinant};
ghost use Rattle.logger.specs.Meaning.{Meaning, Findable, determinant};
ghost use Rattle.logger.specs.Clauses.{Sizes, Started, InRange};
ghost use Rattle.logger.specs.Operation.{Operation, Allowed, Lawful};

use super::determinant::Determinant;
use network::seq_no::SeqNo;
use workload::host::Host;
use workload::host_count::HostCount;

/// A method asks for numbers in range and no more, which the types of most of them say, and none refuses: where an
/// operation is not allowed, no law says what it does.
pub trait Logger {
    /// The hosts, the down set, the volatile sets and the stable store.
    ghost meaning: { Self → Meaning };

    /// The logger's own invariant: the values that a start and allowed operations lead to.
    ghost ready: { Self → Type 0 };

    /// What an operation makes of a logger.
    ghost acts: { Operation → Self → Self → Type 0 };

    /// Of a receiver and a receipt number: the sender and the ssn.
    ghost found: { Self → ℕ → ℕ → Option (ℕ × ℕ) };

    /// Forgets everything, and serves n hosts from now on, of which f may be down at once.
    // f is a plain number: its bound depends on n, and `Sizes` says it.
    fn start(&mut self, n: HostCount, f: u8)
        requires { Sizes n f }
        ensures { acts (Operation.start n f) self.old self.new };

    /// Host p is about to receive a message from host s.
    fn carry(&mut self, s: Host, p: Host)
        ensures { acts (Operation.carry s p) self.old self.new };

    /// Host p has received a message, with determinant d.
    // A determinant is any four numbers to whoever makes one, so that they are in range is asked here.
    fn note(&mut self, p: Host, d: Determinant)
        requires { InRange d }
        ensures { acts (Operation.note p d) self.old self.new };

    /// Host p is about to release an output.
    fn spread(&mut self, p: Host)
        ensures { acts (Operation.spread p) self.old self.new };

    /// Host p has crashed.
    fn lose(&mut self, p: Host)
        ensures { acts (Operation.lose p) self.old self.new };

    /// All hosts that were down come back.
    fn rejoin(&mut self)
        ensures { acts Operation.rejoin self.old self.new };

    /// The sender and the ssn of receipt number r of host q, if its determinant can be found.
    // A pair of plain numbers for an answer: a form that a rule of the project fixes.
    fn find(&self, q: Host, r: SeqNo) -> Option<(u8, u8)>
        ensures { result ≡ found self.now q r };

    ghost begins: { (n f : ℕ) (l m : Self) → Sizes n f → acts (Operation.start n f) l m → ready m × Started n f (meaning m) };

    ghost lawful: { (op : Operation) (l m : Self) → ready l → Allowed op (meaning l) → acts op l m → ready m × Lawful op (meaning l) (meaning m) };

    ghost finds: { (l : Self) (q r s j : ℕ) → ready l → found l q r ≡ Some (s, j) → Findable (meaning l) (determinant q r s j) };

    ghost misses: { (l : Self) (q r : ℕ) → ready l → found l q r ≡ None → (d : Determinant) → d.receiver ≡ q → d.number ≡ r → Findable (meaning l) d → ⊥ };
}
