//! The tables that are read whole, each by one statement.
ghost use Rattle.cpi_sql_rows.specs.Common.{IsSecond, refl};
ghost use Rattle.cpi_sql_rows.specs.WholeTables.{all_assignments_table, registrations_table, calendar_table};
ghost use Rattle.cpi_sql_rows.specs.WholeTables.{headers_table};
ghost use Rattle.cpi_sql_rows.specs.WholeTables.{items_table, outlets_table};

use crate::release_rows::Header;
use crate::table::Table;
use cpi_plan::{CalendarRow, Item};
use cpi_store::{HeldGiven, Outlet, Registration};

impl Table for Header {
    ghost is_in = { IsSecond };

    ghost table = { headers_table };

    ghost same = { λ _. refl };

    fn text() -> &'static str {
        "SELECT month, revision, frozen_at, publishes, carry FROM release_2 ORDER BY month, revision"
    }
}

impl Table for Registration {
    ghost table = { registrations_table };

    ghost same = { λ _. refl };

    fn text() -> &'static str {
        "SELECT number, key FROM collector ORDER BY number"
    }
}

impl Table for Outlet {
    ghost table = { outlets_table };

    ghost same = { λ _. refl };

    fn text() -> &'static str {
        "SELECT number, name FROM outlet ORDER BY number"
    }
}

impl Table for Item {
    ghost table = { items_table };

    ghost same = { λ _. refl };

    fn text() -> &'static str {
        "SELECT code, text, unit, low, high FROM item ORDER BY code"
    }
}

impl Table for CalendarRow {
    ghost table = { calendar_table };

    ghost same = { λ _. refl };

    fn text() -> &'static str {
        "SELECT month, opens, closes, publishes FROM calendar ORDER BY month"
    }
}

impl Table for HeldGiven {
    ghost is_in = { IsSecond };

    ghost table = { all_assignments_table };

    ghost same = { λ _. refl };

    fn text() -> &'static str {
        "SELECT collector, slot, outlet, item, first_month, last_month, series_collector, series_slot, copied \
         FROM assignment_2 ORDER BY collector, slot"
    }
}
