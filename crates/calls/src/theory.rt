//! What recovery is worth. Each contract here is a theorem over every logger that keeps the clauses and every workload.
ghost use Rattle.calls.specs.Alike.{NoLoggerShows};
ghost use Rattle.calls.specs.Guarantee.{Guaranteed, WholeIsWithin};
ghost use Rattle.calls.specs.Sound.{StaysSound};

use logger::logger::Logger;
use workload::Workload;

/// The recovery guarantee, of any calls on a cluster.
pub fn guarantee_holds<L: Logger, W: Workload>()
    ensures { Guaranteed L.Logger W.Workload.machine }
{}

/// What it is for a cluster to be whole.
pub fn whole_is_within<L: Logger, W: Workload>()
    ensures { WholeIsWithin L.Logger W.Workload.machine }
{}

/// A crash-free run goes the same way under any logger.
pub fn no_logger_shows<L: Logger, W: Workload>()
    ensures { NoLoggerShows L.Logger W.Workload.machine }
{}

/// What holds between any two calls: an accepted open gives it, and each call keeps it while the cluster is whole.
pub fn stays_sound<L: Logger, W: Workload>()
    ensures { StaysSound L.Logger W.Workload.machine }
{}
