//! Plans by the rows of a store.
ghost use Rattle.std.specs.Prelude.{◌≡◌, ◌≤◌, IfOk, IfSome, IsTrue, map};
ghost use Rattle.cpi_plan.specs.Plan.{reference_in};
ghost use Rattle.cpi_plan.specs.Stored.{plan_from, weights_in};

use crate::items::Item;
use crate::plan_rows::{Node, Place, Title, Weight};
use crate::plans::YearPlan;
use crate::same_rows::are_same;
use cpi_codes::Month;
use cpi_rows::RowsByKey;
use std::alloc::{AllocError, Global};

// The titles of the nodes. An `Err` says that memory was refused.
fn titles_of(alloc: Global, nodes: &[Node]) -> Result<Vec<Title>, AllocError>
    ensures { IfOk result (λ ts. ts.items ≡ map (λ n. record { code = n.code; title = n.title }) nodes.now) }
{
    let mut titles = Vec::new(alloc);
    'nodes: for node in nodes {
        let title = node.title.copy(alloc)?;
        titles.push(Title {
            code: node.code,
            title,
        })?;
    }
    Ok(titles)
}

// The weights of the elementary nodes. An `Err` says that memory was refused.
fn weights_of(alloc: Global, nodes: &[Node]) -> Result<Vec<Weight>, AllocError>
    ensures { IfOk result (λ ws. ws.items ≡ weights_in nodes.now) }
{
    let mut weights = Vec::new(alloc);
    'nodes: for node in nodes {
        if node.code.is_elementary() {
            weights.push(Weight {
                code: node.code,
                parts: node.weight,
            })?;
        }
    }
    Ok(weights)
}

// A copy of the places. An `Err` says that memory was refused.
fn copies(alloc: Global, places: &[Place]) -> Result<Vec<Place>, AllocError>
    ensures { IfOk result (λ ps. ps.items ≡ places.now) }
{
    let mut copies = Vec::new(alloc);
    copies.extend_from_slice(places)?;
    Ok(copies)
}

// The reference month as a list of one, or an empty list if there is none. An `Err` says that memory was refused.
fn references_of(alloc: Global, reference: Option<Month>) -> Result<Vec<Month>, AllocError>
    ensures { IfOk result (λ ms. reference_in ms.items ≡ reference) }
{
    let mut months = Vec::new(alloc);
    if let Some(month) = reference {
        months.push(month)?;
    }
    Ok(months)
}

// Whether the plan has these nodes, each in its place.
#[tactic(auto, using(crate::proofs::SamePlans::nodes_are))]
fn has_nodes(plan: &YearPlan, nodes: &[Node]) -> bool
    ensures { IsTrue result → plan.now.nodes ≡ nodes.now }
{
    are_same(plan.nodes(), nodes)
}

// Whether the plan has these weights, each in its place.
#[tactic(auto, using(crate::proofs::SamePlans::weights_are))]
fn has_weights(plan: &YearPlan, weights: &[Weight]) -> bool
    ensures { IsTrue result → plan.now.weights ≡ weights.now }
{
    are_same(plan.weights(), weights)
}

// Whether the plan has these places, each in its place.
#[tactic(auto, using(crate::proofs::SamePlans::places_are))]
fn has_places(plan: &YearPlan, places: &[Place]) -> bool
    ensures { IsTrue result → plan.now.places ≡ places.now }
{
    are_same(plan.places(), places)
}

impl YearPlan {
    /// The plan of a year with these nodes, places and reference month; the weights are those of the elementary nodes.
    /// It is `None` if the rows make no such plan, or aren't in order, or if memory was refused. `known_items` are the
    /// items that the office knows. O(n log n) for n rows.
    pub fn from_rows(
        alloc: Global,
        year: u16,
        known_items: &RowsByKey<Item>,
        nodes: &[Node],
        places: &[Place],
        reference: Option<Month>,
    ) -> Option<YearPlan>
        requires year_in_calendar { (2000 ≤ year) × (year ≤ 2199) }
        ensures { IfSome result (λ plan. plan ≡ plan_from year nodes.now places.now reference) }
    {
        let titles = titles_of(alloc, nodes).ok()?;
        let sent = weights_of(alloc, nodes).ok()?;
        let weights = weights_of(alloc, nodes).ok()?;
        let placed = copies(alloc, places).ok()?;
        let references = references_of(alloc, reference).ok()?;
        let plan = YearPlan::build(
            alloc,
            year,
            known_items,
            titles,
            sent,
            placed,
            references,
        ).ok()?;
        if has_nodes(&plan, nodes) && has_weights(&plan, &weights) && has_places(&plan, places) {
            Some(plan)
        } else {
            None
        }
    }
}
