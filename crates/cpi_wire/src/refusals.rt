//! The JSON value of a refusal.
ghost use Rattle.std.specs.Prelude.{◌≡◌, IfOk};
ghost use Rattle.serde_json.specs.View.{view};
ghost use Rattle.cpi_wire.specs.Refusals.{number_of_plan_fault, sum_in_refusal, numbered_at, plan_fault_data};
ghost use Rattle.cpi_wire.specs.Refusals.{index_fault_data, refusal_data};

use cpi_codes::Code;
use cpi_index::IndexFault;
use cpi_office::Refusal;
use cpi_plan::PlanFault;
use serde_json::{Value, json};
use std::alloc::{AllocError, Global};

// The number of a fault of a plan.
fn plan_fault_number(fault: PlanFault) -> u8
    ensures { result ≡ number_of_plan_fault fault }
{
    match fault {
        PlanFault::DuplicateCode => 1,
        PlanFault::NotElementary => 2,
        PlanFault::ZeroWeight => 3,
        PlanFault::WeightSum(_) => 4,
        PlanFault::TitleMissing(_) => 5,
        PlanFault::UnknownItem => 6,
        PlanFault::ItemTwice => 7,
        PlanFault::UnknownAggregate => 8,
        PlanFault::NoMemory => 9,
        PlanFault::Reference => 10,
    }
}

// A sum of weights, in parts per million, capped at the greatest number of 64 bits.
fn capped_sum(found: u128) -> u64
    ensures { result ≡ sum_in_refusal found }
{
    if found <= u128::from(u64::MAX) {
        found as u64
    } else {
        u64::MAX
    }
}

// The number of a fault, with the code that has it.
fn located_value(alloc: Global, code: Code, fault: u8, refused: u8) -> Result<Value, AllocError>
    ensures { IfOk result (λ v. view v ≡ numbered_at code fault refused) }
{
    let text = code.text(alloc)?;
    json!(in alloc; {"code": text, "fault": fault, "refused": refused})
}

// A fault of a plan: a wrong sum with that sum, a missing title with its code.
fn plan_fault_value(alloc: Global, fault: PlanFault) -> Result<Value, AllocError>
    ensures { IfOk result (λ v. view v ≡ plan_fault_data fault) }
{
    match fault {
        PlanFault::WeightSum(found) => {
            json!(in alloc; {"fault": 4, "found": capped_sum(found), "refused": 44})
        }
        PlanFault::TitleMissing(code) => located_value(alloc, code, 5, 44),
        other => json!(in alloc; {"fault": plan_fault_number(other), "refused": 44}),
    }
}

// A fault of the index of a month, with the code that has it.
fn index_fault_value(alloc: Global, fault: IndexFault) -> Result<Value, AllocError>
    ensures { IfOk result (λ v. view v ≡ index_fault_data fault) }
{
    match fault {
        IndexFault::NoSample(code) => located_value(alloc, code, 1, 49),
        IndexFault::NoMatch(code) => located_value(alloc, code, 2, 49),
        IndexFault::OutOfRange(code) => located_value(alloc, code, 3, 49),
        IndexFault::NoMemory => json!(in alloc; {"fault": 4, "refused": 49}),
        IndexFault::NoReference(code) => located_value(alloc, code, 5, 49),
    }
}

/// The JSON value of a refusal: its number; for a price out of tolerance also the last price and the bounds, in minor
/// units; for a fault of a plan or of an index also that fault.
pub(crate) fn refusal_value(alloc: Global, refusal: &Refusal) -> Result<Value, AllocError>
    ensures { IfOk result (λ v. view v ≡ refusal_data refusal.now) }
{
    match refusal {
        Refusal::OutOfTolerance { last, low, high } => {
            json!(in alloc; {"high": *high, "last": last.units(), "low": *low, "refused": 26})
        }
        Refusal::PlanFault(fault) => plan_fault_value(alloc, *fault),
        Refusal::Index(fault) => index_fault_value(alloc, *fault),
        other => json!(in alloc; {"refused": other.number()}),
    }
}
