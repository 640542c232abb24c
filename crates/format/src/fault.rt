ghost use Rattle.std.specs.Prelude.{◌≡◌, ◌≤◌, Some};
ghost use Rattle.format.specs.Faults.{read_number, list_number, layer, fault_number};
ghost use Rattle.format.specs.Lines.{stop_line};
ghost use Rattle.format.specs.declared.fault.RunFault.TheVariants.{Reader, Cluster, Listing};

use network::refusal::Refusal;
use std::fmt;

/// Why a script cannot be read on: the first of the reader's checks that fails. They go on from those of the cluster.
#[derive(Clone, Copy, PartialEq, Eq, Debug)]
pub enum ReadFault {
    /// The script and the listing have at most 65,536 bytes each.
    TooLong = 15,
    /// There is a first command, and it is an open.
    NoOpen = 16,
    /// A later command has one of the other kinds.
    NoSuchKind = 17,
    /// The body is whole.
    CutShort = 18,
    /// There is such a logger, and such a workload.
    NoSuchChoice = 19,
}

/// The number of the check.
impl From<ReadFault> for u8 {
    ghost from_gives = { λ e k. k ≡ read_number e };

    fn from(fault: ReadFault) -> u8 {
        fault as u8
    }
}

/// Why a line is not written.
#[derive(Clone, Copy, PartialEq, Eq, Debug)]
pub enum ListFault {
    /// The whole line fits.
    Full = 20,
}

/// The number of the check.
impl From<ListFault> for u8 {
    ghost from_gives = { λ e k. k ≡ list_number e };

    fn from(fault: ListFault) -> u8 {
        fault as u8
    }
}

/// Why a run stops: the fault of the layer below, whole.
#[derive(Clone, Copy, PartialEq, Eq, Debug)]
pub enum RunFault {
    Reader(ReadFault),
    Cluster(Refusal),
    Listing(ListFault),
}

impl From<ReadFault> for RunFault {
    ghost from_gives = { λ e r. r ≡ Reader e };

    fn from(e: ReadFault) -> RunFault {
        RunFault::Reader(e)
    }
}

impl From<Refusal> for RunFault {
    ghost from_gives = { λ e r. r ≡ Cluster e };

    fn from(e: Refusal) -> RunFault {
        RunFault::Cluster(e)
    }
}

impl From<ListFault> for RunFault {
    ghost from_gives = { λ e r. r ≡ Listing e };

    fn from(e: ListFault) -> RunFault {
        RunFault::Listing(e)
    }
}

impl RunFault {
    /// The layer that the fault comes from: 1 the reader, 2 the cluster, 3 the listing.
    // A number, which is only printed: an enum of layers would be this one without its faults.
    pub fn layer(self) -> u8
        ensures { result ≡ layer self }
    {
        match self {
            RunFault::Reader(_) => 1,
            RunFault::Cluster(_) => 2,
            RunFault::Listing(_) => 3,
        }
    }
}

/// The number of the check that fails.
impl From<RunFault> for u8 {
    ghost from_gives = { λ e k. (k ≡ fault_number e) × (k ≤ 20) };

    fn from(fault: RunFault) -> u8 {
        match fault {
            RunFault::Reader(e) => u8::from(e),
            RunFault::Cluster(e) => u8::from(e),
            RunFault::Listing(e) => u8::from(e),
        }
    }
}

/// Where a run stops and why: the number of the command, from 1, and the place of its kind byte in the script, from 0.
#[derive(Clone, Copy, PartialEq, Eq, Debug)]
pub struct Stop {
    pub fault: RunFault,
    pub command: u64,
    pub place: usize,
}

/// The line of a stop.
// Beside the bytes of `Line`: this is text for a program, and writing it may fail; the bytes always come about.
impl fmt::Display for Stop {
    ghost output = { λ s. Some (stop_line s) };

    fn fmt<W: fmt::Write>(&self, f: &mut fmt::Formatter<W>) -> fmt::Result {
        let fault = self.fault;
        writeln!(
            f,
            "! {} {} {} {}",
            fault.layer(),
            u8::from(fault),
            self.command,
            self.place
        )
    }
}
