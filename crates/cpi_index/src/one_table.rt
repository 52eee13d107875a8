//! A law of the indices and their means, as a function that does nothing.
ghost use Rattle.cpi_index.specs.OneTable.{IndicesAreOfRows, MeansAreOfRows};

/// A law: if each series keeps its item, the indices and means that `elementary` and `upper` answer from a year's bases
/// and a month's carried prices are those that the rows of each aggregate's sample give by `carry_group`.
pub fn tables_are_one()
    ensures indices { IndicesAreOfRows }
    ensures means { MeansAreOfRows }
{}
