//! Rows of the tables, computed by the definitions.
ghost use Rattle.cpi_sql.specs.WorkedRows.{Items, Calendar, Quotes, Receipts, Assignments, Nodes};
ghost use Rattle.cpi_sql.specs.WorkedRows.{Headers, FrozenQuotes, CarriedPrices, Levels, Weights, SumsOfWeights};

/// Rows of the tables, computed by the definitions: what they stand for, each kind of column among them, and rows that
/// stand for nothing, since one column is outside of its limits.
pub fn worked_rows()
    ensures items { Items }
    ensures calendar { Calendar }
    ensures quotes { Quotes }
    ensures receipts { Receipts }
    ensures assignments { Assignments }
    ensures nodes { Nodes }
    ensures headers { Headers }
    ensures frozen { FrozenQuotes }
    ensures carried { CarriedPrices }
    ensures levels { Levels }
    ensures weights { Weights }
    ensures sums { SumsOfWeights }
{}
