ghost use Rattle.std.specs.Prelude.{◌≡◌};
ghost use Rattle.format.specs.Commands.{call_of, letter};
ghost use Rattle.format.specs.Reader.{logger_numbered, workload_numbered, opening_in};

use crate::fault::ReadFault;
use calls::call::Call;

/// A command after the first, with its body as it stands in the script.
// Bodies are lent and not read into fields, by a rule of the project.
#[derive(Clone, Copy)]
pub enum Command<'a> {
    /// A host, and the eight bytes of a message body, the highest first.
    Post(&'a [u8; 9]),
    /// A host and a sender.
    Deliver(&'a [u8; 2]),
    /// A host, a sender and a point.
    Cut(&'a [u8; 3]),
    /// A host.
    Release(&'a [u8; 1]),
    /// A host.
    Crash(&'a [u8; 1]),
    /// Nothing.
    Recover,
    /// A host.
    Show(&'a [u8; 1]),
}

/// The call that the command asks for.
impl From<Command<'_>> for Call {
    ghost from_gives = { λ c k. k ≡ call_of c };

    fn from(command: Command<'_>) -> Call {
        match command {
            // not `body @ ..`: no proof covers a copy of part of an array
            Command::Post(&[host, a, b, c, d, e, f, g, h]) => {
                Call::Post(host, u64::from_be_bytes([a, b, c, d, e, f, g, h]))
            }
            Command::Deliver(&[host, sender]) => Call::Deliver(host, sender),
            Command::Cut(&[host, sender, point]) => Call::Cut(host, sender, point),
            Command::Release(&[host]) => Call::Release(host),
            Command::Crash(&[host]) => Call::Crash(host),
            Command::Recover => Call::Recover,
            Command::Show(&[host]) => Call::Show(host),
        }
    }
}

impl Command<'_> {
    /// The letter that stands for the command in a listing.
    // No `From`: a letter says less than the command, and a byte may mean other things of it.
    pub fn letter(self) -> u8
        ensures { result ≡ letter (call_of self.entry) }
    {
        match self {
            Command::Post(_) => b'P',
            Command::Deliver(_) => b'D',
            Command::Cut(_) => b'C',
            Command::Release(_) => b'R',
            Command::Crash(_) => b'X',
            Command::Recover => b'V',
            Command::Show(_) => b'S',
        }
    }
}

/// The loggers that ship.
#[derive(Clone, Copy, PartialEq, Eq, Debug)]
pub enum LoggerChoice {
    Pessimistic,
    FamilyBased,
}

/// The logger of this number. Number 0 stands for the default.
impl TryFrom<u8> for LoggerChoice {
    type Error = ReadFault;

    ghost try_from_gives = { λ k r. r ≡ logger_numbered k };

    fn try_from(number: u8) -> Result<LoggerChoice, ReadFault> {
        match number {
            0 | 1 => Ok(LoggerChoice::Pessimistic),
            2 => Ok(LoggerChoice::FamilyBased),
            _ => Err(ReadFault::NoSuchChoice),
        }
    }
}

/// The workloads that ship.
#[derive(Clone, Copy, PartialEq, Eq, Debug)]
pub enum WorkloadChoice {
    Ledger,
    Spacing,
}

/// The workload of this number.
impl TryFrom<u8> for WorkloadChoice {
    type Error = ReadFault;

    ghost try_from_gives = { λ k r. r ≡ workload_numbered k };

    fn try_from(number: u8) -> Result<WorkloadChoice, ReadFault> {
        match number {
            1 => Ok(WorkloadChoice::Ledger),
            2 => Ok(WorkloadChoice::Spacing),
            _ => Err(ReadFault::NoSuchChoice),
        }
    }
}

/// The letter that stands for the first command in a listing.
pub const OPEN_LETTER: u8 = b'O';

/// The first command: the number of hosts, how many may be down at once, the logger and the workload.
#[derive(Clone, Copy, PartialEq, Eq, Debug)]
pub struct Opening {
    pub n: u8,
    pub f: u8,
    pub logger: LoggerChoice,
    pub workload: WorkloadChoice,
}

/// What the body of an open asks for.
impl TryFrom<&[u8; 4]> for Opening {
    type Error = ReadFault;

    ghost try_from_gives = { λ b r. r ≡ opening_in b.now };

    fn try_from(body: &[u8; 4]) -> Result<Opening, ReadFault> {
        let [n, f, logger, workload] = *body;
        Ok(Opening {
            n,
            f,
            logger: logger.try_into()?,
            workload: workload.try_into()?,
        })
    }
}
