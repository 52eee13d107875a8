//! Examples of runs with freezes.
ghost use Rattle.cpi_office.specs.FreezeExamples.{OneMonth, FreezeRefusals, WithoutReference, WithoutRows, FrozenRows};
ghost use Rattle.cpi_office.specs.FreezeExamples.{Reopened, CachedFrozen, Backwards};

/// Small runs with freezes, computed by the definitions: a month from its quotes to its table, the same month
/// reopened and frozen again, and refusals.
pub fn worked_freezes()
    ensures one_month { OneMonth }
    ensures freeze_refusals { FreezeRefusals }
    ensures without_reference { WithoutReference }
    ensures without_rows { WithoutRows }
    ensures frozen_rows { FrozenRows }
    ensures reopened { Reopened }
    ensures cached_frozen { CachedFrozen }
    ensures backwards { Backwards }
{}
