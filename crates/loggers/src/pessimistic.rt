//! Pessimistic logging: each determinant goes to the stable store as it is noted.
ghost use Rattle.std.specs.Prelude.{◌≡◌};
ghost use Rattle.logger.specs.Sources.{pair};
ghost use Rattle.loggers.specs.Pessimistic.{fresh, after, means, state};
ghost use Rattle.logger.specs.Operation;
ghost use Rattle.loggers.specs.Stably;
ghost use Rattle.std.proofs.Common.{rules};

use super::members::Members;
use super::places::Places;
use logger::determinant::Determinant;
use logger::host_set::HostSet;
use logger::logger::Logger;
use network::message::Receipt;
use network::seq_no::SeqNo;
use workload::host::Host;
use workload::host_count::HostCount;

#[derive(Drop)]
pub struct Pessimistic {
    hosts: Members,
    store: Places<Receipt>,
}

impl Pessimistic {
    /// A logger of no hosts: `start` gives it some.
    pub fn new() -> Pessimistic
        ensures { state result ≡ fresh 0 0 }
    {
        Pessimistic {
            hosts: Members::new(HostCount::new(0), 0),
            store: Places::empty(),
        }
    }
}

impl Logger for Pessimistic {
    ghost meaning = { λ l. means (state l) };

    ghost ready = { λ _. Unit {0} };

    ghost acts = { λ op l m. state m ≡ after op (state l) };

    ghost found = { λ l q r. pair ((state l).store q r) };

    ghost begins = { λ n f l m sizes e. (tt, Stably.lawful (Operation.start n f) (state l) (state m) sizes e) };

    ghost lawful = { λ op l m r w e. (tt, Stably.lawful op (state l) (state m) w e) };

    ghost finds = { Prim.search rules };

    ghost misses = { Prim.search rules };

    fn start(&mut self, n: HostCount, f: u8) {
        self.hosts = Members::new(n, f);
        self.store = Places::empty();
    }

    fn carry(&mut self, _s: Host, _p: Host) {}

    fn note(&mut self, _p: Host, d: Determinant) {
        let (q, r) = (Host::new(d.receiver), SeqNo::new(d.number));
        self.store.set(q, r, Receipt::from(d));
    }

    fn spread(&mut self, _p: Host) {}

    fn lose(&mut self, p: Host) {
        self.hosts.down = self.hosts.down.insert(p);
    }

    fn rejoin(&mut self) {
        self.hosts.down = HostSet::empty();
    }

    fn find(&self, q: Host, r: SeqNo) -> Option<(u8, u8)> {
        self.store.get(q, r).map(|source| (*source).into())
    }
}
