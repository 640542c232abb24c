//! What the clauses of a logger are worth. Each contract here is a theorem over every logger, and no code stands behind it.
ghost use Rattle.logger.specs.Theorems.{CoveredStays, PastIsKnown, InvariantIsKept, RunsStaySound, ClausesCanBeMet};

/// What is covered stays so, and can be found while at most f hosts are down.
pub fn covered_stays()
    ensures { CoveredStays }
{}

/// A host that is up knows its whole past, so no determinant that few hosts log has a dependent elsewhere.
pub fn past_is_known()
    ensures { PastIsKnown }
{}

/// Every operation keeps the invariant, and a crash does with the receipts that can still be found.
pub fn invariant_is_kept()
    ensures { InvariantIsKept }
{}

/// Whatever happens, as long as at most f hosts are down at once: the invariant holds, and what was released stays.
pub fn runs_stay_sound()
    ensures { RunsStaySound }
{}

/// No clause asks for the impossible.
pub fn clauses_can_be_met()
    ensures { ClausesCanBeMet }
{}
