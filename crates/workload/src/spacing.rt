ghost use Rattle.std.specs.Prelude.{◌≡◌, replicate};
ghost use Rattle.workload.specs.Spacing.{spacing, at_margin, placement_at, onward, barline_output, reacted};
ghost use Rattle.std.proofs.Common.{rules};

use crate::Workload;
use crate::fields::Fields;
use crate::host::Host;
use crate::host_count::HostCount;
use crate::reaction::Reaction;
use mark::Mark;
use placement::Placement;
use table::Table;

pub mod mark;
mod moves;
pub mod placement;
pub mod sums;
mod table;

/// The spacing of music: a position and a greatest width for each host.
#[derive(Drop)]
pub struct Spacing {
    n: HostCount,
    table: Table,
}

impl Spacing {
    /// A spacing of no hosts, to be started.
    pub fn new() -> Spacing
        ensures hosts { result.n ≡ 0 }
        ensures table { result.table.hosts ≡ replicate 8 at_margin }
    {
        Spacing {
            n: HostCount::new(0),
            table: Table::new(),
        }
    }

    /// Where host p sends a body on to: the next host, if there is one.
    fn onward(&self, p: Host, body: u64) -> Option<(u8, u64)>
        ensures { result ≡ onward self.now.n p body }
    {
        let next = p.number() + 1;
        if next < self.n.number() {
            Some((next, body))
        } else {
            None
        }
    }

    /// What host p puts out on a barline: its numbers, if it is the last.
    fn statement(&self, p: Host) -> Option<u64>
        ensures { result ≡ barline_output self.now.n p (placement_at self.now.table.hosts p) }
    {
        if p.number() + 1 < self.n.number() {
            None
        } else {
            Some(self.show(p))
        }
    }

    /// What host p sends and puts out when it takes a body with this mark.
    fn react(&self, p: Host, body: u64, mark: Option<Mark>) -> Reaction
        ensures { result ≡ reacted self.now.n p (placement_at self.now.table.hosts p) body mark }
    {
        match mark {
            None => Reaction::NONE,
            Some(Mark::Width(_)) => Reaction {
                send: self.onward(p, body),
                output: None,
            },
            Some(Mark::Bar) => Reaction {
                send: self.onward(p, body),
                output: self.statement(p),
            },
        }
    }
}

impl Workload for Spacing {
    type State = Placement;

    ghost hosts = { λ w. w.n };

    ghost state = { λ w. placement_at w.table.hosts };

    ghost machine = { spacing };

    ghost addressed = { Prim.search rules };

    fn start(&mut self, n: HostCount) {
        self.n = n;
        self.table = Table::new();
    }

    fn reset(&mut self, p: Host) {
        self.table.reset(p);
    }

    fn step(&mut self, p: Host, _s: u8, body: u64) -> Reaction {
        let mark = Mark::read(Fields::from(body));
        let reaction = self.react(p, body, mark);
        self.table.place(p, mark);
        reaction
    }

    fn show(&self, p: Host) -> u64 {
        self.table.show(p)
    }
}
