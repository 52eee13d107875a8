//! Examples of runs with series that are handed over.
ghost use Rattle.cpi_office.specs.HandoverExamples.{HandedOver, CopiedOnce, HandedOn, HandoverRefusals, LaterQuotes};
ghost use Rattle.cpi_office.specs.HandoverExamples.{CachedMonths, NotAssigned, StaysInSample, TwoYears};

/// Small runs with series that are handed over, computed by the definitions: the views of both collectors, refusals,
/// and the table of a month after it.
pub fn worked_handovers()
    ensures handed_over { HandedOver }
    ensures copied_once { CopiedOnce }
    ensures handed_on { HandedOn }
    ensures refusals { HandoverRefusals }
    ensures later_quotes { LaterQuotes }
    ensures cached_months { CachedMonths }
    ensures not_assigned { NotAssigned }
    ensures stays_in_sample { StaysInSample }
    ensures two_years { TwoYears }
{}
