//! Yearly plans.
ghost use Rattle.std.specs.Prelude.{◌≡◌, ◌≢◌, ◌↔◌, ℕ, ◌≤◌, IfOk, IsTrue, SomeIff, option_map};
ghost use Rattle.std.specs.Option.{option_copied};
ghost use Rattle.std.specs.Ordering.{nat_cmp};
ghost use Rattle.cpi_codes.specs.CodeOrder.{code_cmp};
ghost use Rattle.cpi_rows.specs.Keyed.{row_at, IsInOrder};
ghost use Rattle.cpi_plan.specs.Plan.{Body, Plan, IsBuilt, IsOneFault, IsOnePlan, IsPlan, plan_body_of};
ghost use Rattle.cpi_plan.specs.Planned.{plan_or_fault};
ghost use Rattle.cpi_plan.specs.SamePlan.{same_plan};
ghost use Rattle.cpi_plan.specs.Sums.{weight_under, is_node};
ghost use Rattle.cpi_plan.specs.declared.plan_faults.PlanFault.TheVariants.{NoMemory};

use crate::checks::{has_unknown, has_unplaced, nodes_of, one_reference};
use crate::items::Item;
use crate::once::put_in_order;
use crate::plan_faults::PlanFault;
use crate::plan_rows::{Node, Place, Title, Weight};
use crate::same_rows::are_same;
use crate::weighing::weighed;
use cpi_codes::{Code, ItemCode, Month, Name};
use cpi_rows::{Keyed, RowsByKey, find_row};
use std::alloc::{AllocError, Global};
use std::marker::Model;

/// The plan of a year: its nodes with titles and weights, the place of each item, and the month whose prices the
/// weights are of. The Consumer Price Index Manual has the yearly change of weights in its chapters on updating weights
/// and on linking.
#[derive(Drop)]
pub struct YearPlan {
    year: u16,
    nodes: Vec<Node>,
    weights: Vec<Weight>,
    places: Vec<Place>,
    reference: Option<Month>,
}

impl Model for YearPlan {
    ghost use Rattle.cpi_plan.specs.Plan.{Plan, IsPlan, plan_with};

    ghost Value = { Plan };

    ghost view = { λ p. plan_with p.year p.nodes.items p.weights.items p.places.items p.reference };

    ghost invariant = { λ p. IsPlan (plan_with p.year p.nodes.items p.weights.items p.places.items p.reference) };
}

// The plan of a year, or the first fault that remains once no code comes twice. Titles and weights are in the order of
// codes.
fn of_ordered(
    alloc: Global,
    year: u16,
    known_items: &RowsByKey<Item>,
    titles: Vec<Title>,
    weights: Vec<Weight>,
    mut places: Vec<Place>,
    references: Vec<Month>,
) -> Result<YearPlan, PlanFault>
    requires year_in_calendar { (2000 ≤ year) × (year ≤ 2199) }
    requires titles_in_order { IsInOrder code_cmp (λ t. t.code) titles.items }
    requires weights_in_order { IsInOrder code_cmp (λ w. w.code) weights.items }
    ensures { IsBuilt year (plan_body_of known_items.now titles.items weights.items places.items
        references.items) result }
{
    let sums = weighed(alloc, &titles, &weights, &places)?;
    if has_unknown(known_items, &places) {
        return Err(PlanFault::UnknownItem);
    }
    if !put_in_order(&mut places).map_err(|_| PlanFault::NoMemory)? {
        return Err(PlanFault::ItemTwice);
    }
    if has_unplaced(&weights, &places) {
        return Err(PlanFault::UnknownAggregate);
    }
    let reference = one_reference(year, &references)?;
    let nodes = nodes_of(alloc, titles, &sums).map_err(|_| PlanFault::NoMemory)?;
    Ok(YearPlan {
        year,
        nodes,
        weights,
        places,
        reference,
    })
}

// A copy of each node, in the same order. An `Err` says that memory was refused.
fn copy_nodes(alloc: Global, nodes: &[Node]) -> Result<Vec<Node>, AllocError>
    ensures { IfOk result (λ copies. copies.items ≡ nodes.now) }
{
    let mut copies = Vec::new(alloc);
    for node in nodes {
        copies.push(Node {
            code: node.code,
            title: node.title.copy(alloc)?,
            weight: node.weight,
        })?;
    }
    Ok(copies)
}

// Whether the two plans have the same content.
fn is_alike(plan: &YearPlan, other: &YearPlan) -> bool
    ensures { result ≡ same_plan plan.now other.now }
{
    plan.year == other.year
        && are_same(&plan.nodes, &other.nodes)
        && are_same(&plan.weights, &other.weights)
        && are_same(&plan.places, &other.places)
        && plan.reference == other.reference
}

impl YearPlan {
    /// The plan of a year, 2000 to 2199, or the first fault of the rows that were sent. Rows may come in any order.
    /// Titles of codes that are no nodes are dropped. `known_items` are the items that the office knows, and
    /// `references` the price reference months that were sent; a plan has one or none. O(n log n) for n rows.
    pub fn build(
        alloc: Global,
        year: u16,
        known_items: &RowsByKey<Item>,
        mut titles: Vec<Title>,
        mut weights: Vec<Weight>,
        places: Vec<Place>,
        references: Vec<Month>,
    ) -> Result<YearPlan, PlanFault>
        requires { (2000 ≤ year) × (year ≤ 2199) }
        ensures built { IsBuilt year
            (plan_body_of known_items.now titles.items weights.items places.items references.items) result }
        ensures planned { result ≢ Err NoMemory →
            result ≡ plan_or_fault year (plan_body_of known_items.now titles.items weights.items places.items
            references.items) }
    {
        let titles_once = put_in_order(&mut titles).map_err(|_| PlanFault::NoMemory)?;
        let weights_once = put_in_order(&mut weights).map_err(|_| PlanFault::NoMemory)?;
        if !titles_once || !weights_once {
            return Err(PlanFault::DuplicateCode);
        }
        of_ordered(
            alloc,
            year,
            known_items,
            titles,
            weights,
            places,
            references,
        )
    }

    /// The year, 2000 to 2199.
    pub fn year(&self) -> u16
        ensures value { result ≡ self.now.year }
        ensures range { (2000 ≤ result) × (result ≤ 2199) }
    {
        self.year
    }

    /// The nodes, in the order of codes.
    pub fn nodes(&self) -> &[Node]
        ensures value { result.now ≡ self.now.nodes }
        ensures kept { IsPlan self.now }
    {
        &self.nodes
    }

    /// The weights, in the order of codes.
    pub fn weights(&self) -> &[Weight]
        ensures value { result.now ≡ self.now.weights }
        ensures kept { IsPlan self.now }
    {
        &self.weights
    }

    /// The items with their aggregates, in the order of items.
    pub fn places(&self) -> &[Place]
        ensures value { result.now ≡ self.now.places }
        ensures kept { IsPlan self.now }
    {
        &self.places
    }

    /// The price reference month of the weights, if the plan has one: a month before its year.
    pub fn reference(&self) -> Option<Month>
        ensures value { result ≡ self.now.reference }
        ensures kept { IsPlan self.now }
    {
        self.reference
    }

    /// A copy of the plan. An `Err` says that memory was refused.
    pub fn copy(&self, alloc: Global) -> Result<YearPlan, AllocError>
        ensures { IfOk result (λ p. p ≡ self.now) }
    {
        let nodes = copy_nodes(alloc, &self.nodes)?;
        let weights = Vec::from_slice(alloc, &self.weights)?;
        let places = Vec::from_slice(alloc, &self.places)?;
        Ok(YearPlan {
            year: self.year,
            nodes,
            weights,
            places,
            reference: self.reference,
        })
    }

    /// Whether the two plans have the same year, nodes with their titles, weights, places and reference month.
    pub fn is_same(&self, other: &YearPlan) -> bool
        ensures content { result ≡ same_plan self.now other.now }
        ensures same { IsTrue result ↔ (self.now ≡ other.now) }
    {
        is_alike(self, other)
    }

    /// The sum of the weights of the aggregates at and below the code, in parts per million. A code that is no node has
    /// none.
    pub fn weight(&self, code: &Code) -> Option<u32>
        ensures { SomeIff result (IsTrue (is_node self.now.weights code.now)) (weight_under code.now self.now.weights) }
    {
        Some(find_row(&self.nodes, code)?.weight)
    }

    /// The title of a node. A code that is no node has none.
    pub fn title(&self, code: &Code) -> Option<&Name>
        ensures { option_copied result
            ≡ option_map (λ n. n.title) (row_at code_cmp (λ n. n.code) code.now self.now.nodes) }
    {
        Some(&find_row(&self.nodes, code)?.title)
    }

    /// The elementary aggregate of an item, if the plan has a place for it.
    pub fn aggregate_of(&self, item: &ItemCode) -> Option<Code>
        ensures { result ≡ option_map (λ p. p.aggregate) (row_at nat_cmp (λ p. p.item) item.now self.now.places) }
    {
        Some(find_row(&self.places, item)?.aggregate)
    }
}

impl Keyed for YearPlan {
    type Key = u16;

    ghost key = { λ p. p.year };

    fn key(&self) -> u16 {
        self.year
    }
}

/// A law: the rows that are sent for a year make no more than one plan.
pub fn makes_one_plan()
    ensures { (year : ℕ) (b : Body) → IsOnePlan year b }
{}

/// A law: the rows that are sent for a year have no more than one first fault, refused memory aside.
pub fn has_one_fault()
    ensures { (year : ℕ) (b : Body) → IsOneFault year b }
{}

/// A law: a plan that is made of the rows that were sent has its nodes in the order of codes.
pub fn nodes_are_in_order()
    ensures { (year : ℕ) (b : Body) (plan : Plan) → plan_or_fault year b ≡ Ok plan →
        IsInOrder code_cmp (λ n. n.code) plan.nodes }
{}
