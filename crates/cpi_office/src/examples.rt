//! Examples of runs.
ghost use Rattle.cpi_office.specs.Examples.{OneQuote, TwoCollectors, TenOfAnother, Again, Window, EntryRefusals};
ghost use Rattle.cpi_office.specs.Examples.{LastReceipt, ByMonth, Tolerance, Replacements, WorkLists, ItemsOfAll};
ghost use Rattle.cpi_office.specs.Examples.{NotForCallers, StandsAlready, TakenPlaces, AssignRefusals, NewWindow};

/// Small runs from an empty office, computed by the definitions: each reply and each refusal, in its place among the
/// others.
pub fn worked_runs()
    ensures one_quote { OneQuote }
    ensures two_collectors { TwoCollectors }
    ensures ten_of_another { TenOfAnother }
    ensures again { Again }
    ensures window { Window }
    ensures entry_refusals { EntryRefusals }
    ensures last_receipt { LastReceipt }
    ensures by_month { ByMonth }
    ensures tolerance { Tolerance }
    ensures replacements { Replacements }
    ensures work_lists { WorkLists }
    ensures items_of_all { ItemsOfAll }
    ensures not_for_callers { NotForCallers }
    ensures stands_already { StandsAlready }
    ensures taken_places { TakenPlaces }
    ensures assign_refusals { AssignRefusals }
    ensures new_window { NewWindow }
{}
