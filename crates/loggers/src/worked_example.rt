//! A small run of family-based logging.
ghost use Rattle.loggers.specs.WorkedExample.{StopsTravelling};

/// A determinant travels until f + 1 hosts are known to hold it, and no further.
pub fn stops_travelling()
    ensures { StopsTravelling }
{}
