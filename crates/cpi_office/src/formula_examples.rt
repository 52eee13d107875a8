//! Examples of the index.
ghost use Rattle.cpi_office.specs.FormulaExamples as formula;

/// The formulas of the theorem, computed at months that were worked by hand: samples, changes, weights, links, bases and
/// whole tables.
pub fn worked_formulas()
    ensures samples { formula.Samples }
    ensures changes { formula.Changes }
    ensures weights { formula.Weights }
    ensures links { formula.Links }
    ensures bases { formula.Bases }
    ensures tables { formula.Tables }
{}
