//! The rows of an import.
ghost use Rattle.std.specs.Prelude.{◌≡◌, List, Option};
ghost use Rattle.cpi_office.specs.declared.request.Request.{Request};

use cpi_office::Request;
use std::marker::Model;

/// The rows of an import in their order: each is a request, or none if it is of no form or outside the limits.
#[derive(Drop)]
pub struct ImportRows {
    pub(crate) rows: Vec<Option<Request>>,
}

impl Model for ImportRows {
    ghost Value = { List (Option Request) };

    ghost view = { λ r. r.rows.items };
}

impl ImportRows {
    /// The rows in their order.
    pub fn rows(&self) -> &[Option<Request>]
        ensures { result.now ≡ self.now }
    {
        &self.rows
    }
}
