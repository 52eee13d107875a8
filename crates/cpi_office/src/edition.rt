//! The editions of a month's table.
use cpi_release::Revision;
use std::marker::Model;

/// The table of a month that a request asks for: that of a revision, or else the latest published one. The logic sees
/// it as the revision, if it names one.
#[derive(Clone, Copy, PartialEq, Eq)]
pub struct Edition {
    revision: Option<Revision>,
}

impl Model for Edition {
    ghost use Rattle.std.specs.Prelude.{ℕ, Option};

    ghost Value = { Option ℕ };

    ghost view = { λ e. e.revision };

    ghost inverse = { λ r. record { revision = r } };
}

impl Edition {
    ghost use Rattle.std.specs.Prelude.{◌≡◌, Some, None};

    /// The latest published table.
    pub fn latest() -> Edition
        ensures { result ≡ None }
    {
        Edition { revision: None }
    }

    /// The table of a revision.
    pub fn of(revision: Revision) -> Edition
        ensures { result ≡ Some revision }
    {
        Edition {
            revision: Some(revision),
        }
    }

    /// The revision, if one is named.
    pub fn revision(self) -> Option<Revision>
        ensures { result ≡ self }
    {
        self.revision
    }
}
