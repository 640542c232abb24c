ghost use Rattle.std.specs.Prelude.{◌≡◌, replicate};
ghost use Rattle.workload.specs.Machine.{replaced};
ghost use Rattle.workload.specs.Spacing.{Steady, TakenWidth, at_margin, placement_at, widened, placed, both_bits};

use super::mark::Mark;
use super::placement::Placement;
use super::table::Table;
use crate::host::Host;

impl Placement {
    /// At the margin, with no width yet.
    pub fn new() -> Placement
        ensures { result ≡ at_margin }
    {
        Placement {
            position: 0.0,
            greatest: 0.0,
        }
    }

    /// The record after a width.
    fn widen(self, w: f32) -> Placement
        ensures { result ≡ widened self w }
    {
        let position = self.position + w;
        let greatest = if w <= self.greatest { self.greatest } else { w };
        Placement { position, greatest }
    }

    /// The record after a mark.
    fn place(self, mark: Option<Mark>) -> Placement
        requires { (Steady self) × (TakenWidth mark) }
        ensures value { result ≡ placed self mark }
        ensures steady { Steady result }
    {
        match mark {
            Some(Mark::Width(w)) => self.widen(w),
            Some(Mark::Bar) | None => self,
        }
    }

    /// The bits of both floats in one number, those of the greatest width first.
    // No `From`: it asks that both floats are numbers.
    fn bits(self) -> u64
        requires { Steady self }
        ensures { result ≡ both_bits self }
    {
        let high = self.greatest.to_bits() as u64;
        let low = self.position.to_bits() as u64;
        high * 0x1_0000_0000 + low
    }
}

impl Table {
    pub fn new() -> Table
        ensures { result.hosts ≡ replicate 8 at_margin }
    {
        Table {
            hosts: [Placement::new(); 8],
        }
    }

    /// Host p is at the margin again.
    pub fn reset(&mut self, p: Host)
        ensures { placement_at self.new.hosts ≡ replaced (placement_at self.old.hosts) p at_margin }
    {
        self.hosts[p.index()] = Placement::new();
    }

    /// Host p takes a mark.
    pub fn place(&mut self, p: Host, mark: Option<Mark>)
        requires { TakenWidth mark }
        ensures { placement_at self.new.hosts ≡ replaced (placement_at self.old.hosts) p (placed (placement_at self.old.hosts p) mark) }
    {
        let old = self.hosts[p.index()];
        self.hosts[p.index()] = old.place(mark);
    }

    /// The number that stands for host p.
    pub fn show(&self, p: Host) -> u64
        ensures { result ≡ both_bits (placement_at self.now.hosts p) }
    {
        self.hosts[p.index()].bits()
    }
}
