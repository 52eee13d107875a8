//! The plans of the years, read from the tables.
ghost use Rattle.std.specs.Prelude.{◌≡◌, ◌≤◌, ◌++◌};
ghost use Rattle.std.specs.Option.{option_to_list};
ghost use Rattle.cpi_plan.specs.Plan.{IsPlan};
ghost use Rattle.cpi_plan.specs.Stored.{plan_from};
ghost use Rattle.cpi_sql_rows.specs.Common.{ℕ, held_by, held_cmp, held_key, nat_cmp, state, year_in};
ghost use Rattle.cpi_sql_rows.specs.Common.{refl, AllStandFor, ArePlansTaken, IfOk, IsInOrder, IsPlanTaken, Looks};
ghost use Rattle.cpi_sql_rows.specs.Common.{OnOk};
ghost use Rattle.cpi_sql_rows.specs.HeldTables.{HeldTable, Holds, row_with_holder};
ghost use Rattle.cpi_sql_rows.specs.HeldTables.{node_table, place_table, reference_table};
ghost use Rattle.cpi_sql_rows.specs.Lists.{if_whole, rows_in_key_order, nodes_in, places_in, plan_at, plans_in};
ghost use Rattle.cpi_sql_rows.specs.Lists.{reference_of};
ghost use Rattle.cpi_sql_rows.specs.Lists.{references_in};
ghost use Rattle.cpi_sql_rows.specs.Texts.{is_first_parameter};
ghost use Rattle.cpi_sql_reads.specs.Tells.{Tells};

use cpi_plan::{Item, Node, Place, YearPlan};
use cpi_rows::{RowsByKey, are_in_order};
use cpi_sql_rows::{ReferenceMonth, Stored, Unread, list};
use sqlite::{Alter, Connection, params};
use std::alloc::Global;

/// A row of a list that a table keeps for each year.
pub trait YearRow: Stored {
    /// The column of the year.
    ghost place: { ℕ };

    /// The table, and the statement that asks for the rows of a year, by their keys.
    ghost table: { HeldTable Self (is_first_parameter place) };

    /// The SELECT that asks for the rows of a year, by their keys.
    fn text() -> &'static str
        ensures { result.now ≡ table.text };

    /// The statement's answers stand for the same as the rows.
    ghost holds: { Holds (year_in place) Self.Key.cmp Self.key Self.stands_for table };
}

impl YearRow for Node {
    ghost place = { 1 };

    ghost table = { node_table };

    ghost holds = { record { same = λ _. refl; keyed = λ _ plans releases. plans.nodes } };

    fn text() -> &'static str {
        "SELECT year, code, title, weight FROM node WHERE year = ?1 ORDER BY year, code"
    }
}

impl YearRow for Place {
    ghost place = { 1 };

    ghost table = { place_table };

    ghost holds = { record { same = λ _. refl; keyed = λ _ plans releases. plans.places } };

    fn text() -> &'static str {
        "SELECT year, item, code FROM plan_item WHERE year = ?1 ORDER BY year, item"
    }
}

impl YearRow for ReferenceMonth {
    ghost place = { 0 };

    ghost table = { reference_table };

    ghost holds = { record { same = λ _. refl; keyed = λ _ plans releases. plans.references } };

    fn text() -> &'static str {
        "SELECT year, month FROM plan_ref WHERE year = ?1 ORDER BY year, month"
    }
}

// The rows of a year, by their keys.
fn rows_of_year<S: Alter, T: YearRow>(
    conn: &mut Connection<S>,
    alloc: Global,
    year: u16,
) -> Result<Vec<T>, Unread>
    ensures look { Looks (state S.Store conn.old) (state S.Store conn.new) result }
    ensures read { Tells S.Store conn.old conn.new result (λ trees xs.
        xs.items ≡ held_by year
        (rows_in_key_order (held_cmp T.Key.cmp) (held_key T.key)
        (row_with_holder (year_in T.place) T.table.after) (trees T.table.tree))) }
    ensures stand { Tells S.Store conn.old conn.new result (λ trees _.
        AllStandFor (year_in T.place) (row_with_holder (year_in T.place) T.table.after) year (trees T.table.tree)) }
{
    let number = u32::from(year);
    list(conn, alloc, T::text(), params![number])
}

// Does nothing: it is called for the proof, which learns what each plan keeps true.
fn know_plan(plan: &YearPlan)
    ensures { IsPlan plan.now }
{
    let _nodes = plan.nodes();
}

// The plan that the rows of a year make; none if it has no nodes. It is an error if the rows make no plan, or memory is
// refused.
fn made(
    alloc: Global,
    items: &RowsByKey<Item>,
    year: u16,
    nodes: &[Node],
    places: &[Place],
    references: &[ReferenceMonth],
) -> Result<Option<YearPlan>, Unread>
    requires year_in_calendar { (2000 ≤ year) × (year ≤ 2199) }
    ensures { IfOk result (λ p. p ≡ if_whole (plan_from year nodes.now places.now (reference_of references.now))) }
{
    if nodes.is_empty() {
        return Ok(None);
    }
    let reference = references.first().map(|reference| reference.month);
    let Some(plan) = YearPlan::from_rows(alloc, year, items, nodes, places, reference) else {
        return Err(Unread);
    };
    know_plan(&plan);
    Ok(Some(plan))
}

// The plan of a year, if there is one.
fn plan_of<S: Alter>(
    conn: &mut Connection<S>,
    alloc: Global,
    items: &RowsByKey<Item>,
    year: u16,
) -> Result<Option<YearPlan>, Unread>
    requires year_in_calendar { (2000 ≤ year) × (year ≤ 2199) }
    ensures look { Looks (state S.Store conn.old) (state S.Store conn.new) result }
    ensures read { Tells S.Store conn.old conn.new result (λ trees p. p ≡ plan_at (nodes_in (trees node_table.tree))
        (places_in (trees place_table.tree)) (references_in (trees reference_table.tree)) year) }
    ensures taken { Tells S.Store conn.old conn.new result (λ trees _. IsPlanTaken year trees) }
{
    let nodes: Vec<Node> = rows_of_year(conn, alloc, year)?;
    let places: Vec<Place> = rows_of_year(conn, alloc, year)?;
    let references: Vec<ReferenceMonth> = rows_of_year(conn, alloc, year)?;
    made(alloc, items, year, &nodes, &places, &references)
}

/// The plans of all years, 2000 to 2199. It is an error if the store fails, the types refuse a row of a plan of one of
/// these years, or memory is refused.
pub fn plans<S: Alter>(
    conn: &mut Connection<S>,
    alloc: Global,
    items: &RowsByKey<Item>,
) -> Result<Vec<YearPlan>, Unread>
    ensures look { Looks (state S.Store conn.old) (state S.Store conn.new) result }
    ensures read { Tells S.Store conn.old conn.new result (λ trees ps. ps.items ≡ plans_in trees) }
    ensures taken { Tells S.Store conn.old conn.new result (λ trees _. ArePlansTaken trees) }
    ensures order { IfOk result (λ ps. IsInOrder nat_cmp (λ p. p.year) ps.items) }
{
    let mut plans = Vec::new(alloc);
    'years: for n in 0..200 {
        if let Some(plan) = plan_of(conn, alloc, items, 2000 + n)? {
            plans.push(plan).map_err(|_| Unread)?;
        }
    }
    if are_in_order(&plans) {
        Ok(plans)
    } else {
        Err(Unread)
    }
}
