//! Family-based logging: a determinant travels with messages until f + 1 hosts are known to hold it.
ghost use Rattle.std.specs.Prelude.{◌≡◌};
ghost use Rattle.loggers.specs.FamilyBased.{fresh, after, means, finds};
ghost use Rattle.loggers.specs.FamilyInvariant.{Ready};
ghost use Rattle.loggers.specs.FamilyViews.{seen, state};
ghost use Rattle.loggers.specs.Families;
ghost use Rattle.loggers.specs.Families.{finds_findable, finds_none};

use super::entry::Entry;
use super::holdings::{Holdings, carry_at, gather, lose_at, note_at, rejoin_at, spread_at};
use super::members::Members;
use super::places::Places;
use logger::determinant::Determinant;
use logger::host_set::HostSet;
use logger::logger::Logger;
use network::seq_no::SeqNo;
use workload::host::Host;
use workload::host_count::HostCount;

#[derive(Drop)]
pub struct FamilyBased {
    hosts: Members,
    table: Places<Holdings>,
}

impl FamilyBased {
    /// A logger of no hosts: `start` gives it some.
    pub fn new() -> FamilyBased
        ensures { state result ≡ fresh 0 0 }
    {
        FamilyBased {
            hosts: Members::new(HostCount::new(0), 0),
            table: Places::empty(),
        }
    }

    /// What host h holds of receipt number r of host q: the message, and the hosts that h knows to hold that.
    pub fn known_holders(&self, h: Host, q: Host, r: SeqNo) -> Option<Entry>
        ensures { seen result ≡ (state self.now).holdings q r h }
    {
        self.table.get(q, r).and_then(|held| held[h.index()])
    }
}

impl Logger for FamilyBased {
    ghost meaning = { λ l. means (state l) };

    ghost ready = { λ l. Ready (state l) };

    ghost acts = { λ op l m. state m ≡ after op (state l) };

    ghost found = { λ l q r. finds (state l) q r };

    ghost begins = { λ n f l m sizes e. Families.begins n f (state l) (state m) sizes e };

    ghost lawful = { λ op l m ready may e. Families.lawful op (state l) (state m) ready may e };

    ghost finds = { λ l q r s j ready e. finds_findable (state l) q r s j e };

    ghost misses = { λ l q r ready e d i j w. finds_none (state l) q r e d i j w };

    fn start(&mut self, n: HostCount, f: u8) {
        self.hosts = Members::new(n, f);
        self.table = Places::empty();
    }

    fn carry(&mut self, s: Host, p: Host) {
        let hosts = &self.hosts;
        self.table.change(|held| carry_at(held, hosts, s, p));
    }

    fn note(&mut self, p: Host, d: Determinant) {
        let (q, r) = (Host::new(d.receiver), SeqNo::new(d.number));
        // A match: by `copied` and `unwrap_or` the row was copied twice, entry by entry.
        let mut held = match self.table.get(q, r) {
            Some(held) => *held,
            None => [None; 8],
        };
        note_at(&mut held, p, d);
        self.table.set(q, r, held);
    }

    fn spread(&mut self, p: Host) {
        let hosts = &self.hosts;
        self.table.change(|held| spread_at(held, hosts, p));
    }

    fn lose(&mut self, p: Host) {
        self.hosts.down = self.hosts.down.insert(p);
        self.table.change(|held| lose_at(held, p));
    }

    fn rejoin(&mut self) {
        let hosts = &self.hosts;
        self.table.change(|held| rejoin_at(held, hosts));
        self.hosts.down = HostSet::empty();
    }

    #[tactic(auto, using(crate::proofs::Entries::gather_none))]
    fn find(&self, q: Host, r: SeqNo) -> Option<(u8, u8)> {
        let held = self.table.get(q, r)?;
        let entry = gather(held, &self.hosts)?;
        Some(entry.source.into())
    }
}
