//! The rows of a year's plan: its nodes, its places and its reference month.
ghost use Rattle.std.specs.Prelude.{◌∷◌, ◌≡◌};
ghost use Rattle.cpi_codes.specs.CodeOf.{spelled_code};
ghost use Rattle.cpi_codes.specs.ItemCode.{item_code_of};
ghost use Rattle.cpi_sql_rows.specs.Common.{[], Some, state, string_bytes};
ghost use Rattle.cpi_sql_rows.specs.Lists.{node_in, place_in_row, reference_month_in_row, references_for};
ghost use Rattle.cpi_sql_rows.specs.Tables.{table_of_nodes, table_of_plan_items, table_of_plan_refs};
ghost use Rattle.cpi_sql_writes.specs.PlanSteps.{is_of_year, IsYearNumber};
ghost use Rattle.cpi_sql_writes.specs.Within.{AddsTo, Changes, Drops, Replaces, Within};

use crate::held_row::{HeldRow, insert_text};
use crate::inside::run_inside;
use cpi_codes::Month;
use cpi_plan::{Node, Place};
use cpi_sql_rows::{Unread, code_text, item_text, month_number, name_text};
use sqlite::types::{ToSql, ValueRef};
use sqlite::{Alter, Transaction, params};
use std::alloc::Global;

const DROP_NODES: &str = "DELETE FROM node WHERE year = ?1";

impl HeldRow for Node {
    type Holder = u32;

    type Texts = String;

    ghost table = { table_of_nodes };

    ghost entry = { node_in };

    ghost is_of = { is_of_year 1 };

    ghost goes_by = { IsYearNumber };

    ghost spells = { λ node code. spelled_code (string_bytes code) ≡ Some node.code };

    fn drop_of<S: Alter>(tx: &mut Transaction<'_, S>, year: u32) -> Result<(), Unread> {
        run_inside(tx, DROP_NODES, params![year])
    }

    fn texts(&self, alloc: Global) -> Result<String, Unread> {
        code_text(alloc, self.code)
    }

    fn put_columns<'a>(
        &'a self,
        year: u32,
        code: &'a String,
        all: &mut Vec<ValueRef<'a>>,
    ) -> Result<(), Unread> {
        let columns = [
            year.to_sql(),
            code.to_sql(),
            name_text(&self.title).to_sql(),
            self.weight.to_sql(),
        ];
        all.extend_from_slice(&columns).map_err(|_| Unread)
    }

    fn insert_text(many: bool) -> &'static str {
        insert_text!(many, "node (year, code, title, weight)", "(?, ?, ?, ?)")
    }
}

/// The codes of a place as texts.
#[derive(Drop)]
pub struct PlaceTexts {
    /// The item's code.
    pub item: String,
    /// The code of its elementary aggregate.
    pub aggregate: String,
}

const DROP_PLACES: &str = "DELETE FROM plan_item WHERE year = ?1";

impl HeldRow for Place {
    type Holder = u32;

    type Texts = PlaceTexts;

    ghost table = { table_of_plan_items };

    ghost entry = { place_in_row };

    ghost is_of = { is_of_year 1 };

    ghost goes_by = { IsYearNumber };

    ghost spells = { λ place texts.
        (item_code_of (string_bytes texts.item) ≡ Some place.item)
        × (spelled_code (string_bytes texts.aggregate) ≡ Some place.aggregate) };

    fn drop_of<S: Alter>(tx: &mut Transaction<'_, S>, year: u32) -> Result<(), Unread> {
        run_inside(tx, DROP_PLACES, params![year])
    }

    fn texts(&self, alloc: Global) -> Result<PlaceTexts, Unread> {
        let item = item_text(alloc, self.item)?;
        let aggregate = code_text(alloc, self.aggregate)?;
        Ok(PlaceTexts { item, aggregate })
    }

    fn put_columns<'a>(
        &'a self,
        year: u32,
        texts: &'a PlaceTexts,
        all: &mut Vec<ValueRef<'a>>,
    ) -> Result<(), Unread> {
        let columns = [year.to_sql(), texts.item.to_sql(), texts.aggregate.to_sql()];
        all.extend_from_slice(&columns).map_err(|_| Unread)
    }

    fn insert_text(many: bool) -> &'static str {
        insert_text!(many, "plan_item (year, item, code)", "(?, ?, ?)")
    }
}

const DROP_REFERENCE: &str = "DELETE FROM plan_ref WHERE year = ?1";

const ADD_REFERENCE: &str = "INSERT INTO plan_ref (year, month) VALUES (?1, ?2)";

// Adds the reference month of the year, if the plan has one.
fn add_reference<S: Alter>(
    tx: &mut Transaction<'_, S>,
    year: u32,
    reference: Option<Month>,
) -> Result<(), Unread>
    ensures same_reference { tx.new.conn.ghost_name ≡ tx.old.conn.ghost_name }
    ensures added { Within (state S.Store tx.old.conn.now) (state S.Store tx.new.conn.now) result
        (Changes table_of_plan_refs.tree
        (AddsTo reference_month_in_row (IsYearNumber year) (references_for reference))) }
{
    match reference {
        Some(month) => run_inside(tx, ADD_REFERENCE, params![year, month_number(month)]),
        None => Ok(()),
    }
}

/// Puts the reference month of a year, if the plan has one, in place of the year's former one. It is an error if the
/// store fails.
pub fn replace_reference<S: Alter>(
    tx: &mut Transaction<'_, S>,
    year: u32,
    reference: Option<Month>,
) -> Result<(), Unread>
    ensures same_reference { tx.new.conn.ghost_name ≡ tx.old.conn.ghost_name }
    ensures replaced { Within (state S.Store tx.old.conn.now) (state S.Store tx.new.conn.now) result
        (Changes table_of_plan_refs.tree
        (Replaces reference_month_in_row (is_of_year 0 year) (IsYearNumber year) (references_for reference))) }
{
    run_inside(tx, DROP_REFERENCE, params![year])?;
    add_reference(tx, year, reference)
}
