//! One pass over the aggregates of a plan.
ghost use Rattle.std.specs.Prelude.{◌≡◌, ◌≢◌, ◌+◌, ◌*◌, ◌≤◌, ◌<◌, ◌^◌, ℕ, [], List, Some, None, true, length};
ghost use Rattle.std.specs.Prelude.{IsSome, IfOk, Err, IfErr, OnOk, option_map, if◌then◌else◌};
ghost use Rattle.std.specs.List.{list_all};
ghost use Rattle.cpi_codes.specs.CodeOrder.{is_code_elementary};
ghost use Rattle.std.specs.Option.{option_or};
ghost use Rattle.cpi_codes.specs.CodeText.{is_code_at_or_below};
ghost use Rattle.cpi_codes.specs.declared.codes.Code.{Code};
ghost use Rattle.cpi_plan.specs.Sums.{sum_at, weight_under};
ghost use Rattle.cpi_index.specs.Month.{is_listed};
ghost use Rattle.cpi_index.specs.Series.{are_by_series, row_serial};
ghost use Rattle.cpi_index.specs.declared.fault.IndexFault.TheVariants.{NoSample, NoMatch, OutOfRange};
ghost use Rattle.cpi_release.specs.declared.freeze_fault.FreezeFault.TheVariants.{Group};
ghost use Rattle.cpi_release.specs.Passing.{faults_with, IsPassingStep, IsPassed};
ghost use Rattle.cpi_release.specs.State.{Keeps, StaysClean};
ghost use Rattle.cpi_release.specs.GroupCalls.{group_of};
ghost use Rattle.cpi_release.specs.Asking.{AreListed, CanAsk, IsReadFault};
ghost use Rattle.cpi_plan.specs.declared.limits.TheConstants.{ALL_PARTS};
ghost use Rattle.cpi_index.specs.declared.limits.TheConstants.{MOST_INDEX, MOST_WEIGHTED_INDEX, MOST_WEIGHTED_SUM};

use crate::faults::Faults;
use crate::freeze_fault::FreezeFault;
use crate::groups::Groups;
use crate::pass::Pass;
use cpi_codes::{Code, Month};
use cpi_index::{EffectiveWeight, GroupLack, GroupRow, IndexFault, carry_group};
use cpi_plan::add_path;
use std::alloc::{AllocError, Global};
use std::collections::BTreeMap;

// Notes an aggregate's lack, if it is the first of its kind.
fn note(faults: &mut Faults, lack: GroupLack, code: Code)
    ensures { faults.new ≡ faults_with (Some lack) code faults.old }
{
    match lack {
        GroupLack::NoSample => faults.no_sample = faults.no_sample.or(Some(code)),
        GroupLack::NoMatch => faults.no_match = faults.no_match.or(Some(code)),
        GroupLack::PriceOutOfRange => faults.price = faults.price.or(Some(code)),
        GroupLack::IndexOutOfRange => faults.index = faults.index.or(Some(code)),
    }
}

// The first fault in the order of kinds.
pub(crate) fn first_fault(faults: &Faults) -> Option<IndexFault>
    ensures { result ≡ option_or (option_map NoSample faults.now.no_sample)
        (option_or (option_map NoMatch faults.now.no_match)
        (option_or (option_map OutOfRange faults.now.price) (option_map OutOfRange faults.now.index))) }
{
    if let Some(code) = faults.no_sample {
        return Some(IndexFault::NoSample(code));
    }
    if let Some(code) = faults.no_match {
        return Some(IndexFault::NoMatch(code));
    }
    if let Some(code) = faults.price {
        return Some(IndexFault::OutOfRange(code));
    }
    match faults.index {
        Some(code) => Some(IndexFault::OutOfRange(code)),
        None => None,
    }
}

// A pass over no aggregate.
pub(crate) fn empty_pass(alloc: Global) -> Pass
    ensures faults { result.faults ≡ record { no_sample = None; no_match = None; price = None; index = None } }
    ensures sums { (q : Code) → sum_at result.sums q ≡ 0 }
    ensures imputed { (q : Code) → sum_at result.imputed q ≡ 0 }
    ensures carried { result.carried.items ≡ [] }
{
    Pass {
        faults: Faults {
            no_sample: None,
            no_match: None,
            price: None,
            index: None,
        },
        sums: BTreeMap::new(alloc),
        imputed: BTreeMap::new(alloc),
        carried: Vec::new(alloc),
    }
}

// Counts an aggregate at its code and at all codes above it, if a price of its sample is imputed.
fn count_imputed(
    counts: &mut BTreeMap<Code, u128>,
    code: Code,
    imputed: bool,
) -> Result<(), AllocError>
    requires elementary { IsSome code.aggregate }
    requires few { (q : Code) → sum_at counts.old q < 2 ^ 64 }
    ensures { OnOk result ((q : Code) → sum_at counts.new q ≡ sum_at counts.old q
        + (if is_code_at_or_below q code then (if imputed then 1 else 0) else 0)) }
{
    if imputed {
        add_path(counts, code, 1)?;
    }
    Ok(())
}

// One more aggregate: its carried prices after the others, its weighted index in the sums of all codes at and above it,
// or its lack.
pub(crate) fn add(
    pass: &mut Pass,
    weight: EffectiveWeight,
    rows: &[GroupRow],
    unchanged: bool,
) -> Result<(), AllocError>
    requires elementary { IsSome weight.code.aggregate }
    requires sums { (q : Code) → sum_at pass.old.sums q ≤ MOST_WEIGHTED_SUM }
    requires imputed { (q : Code) → sum_at pass.old.imputed q < 2 ^ 64 }
    ensures most { OnOk result ((q : Code) → sum_at pass.new.sums q ≤ sum_at pass.old.sums q
        + (if is_code_at_or_below q weight.code then MOST_INDEX * weight.parts else 0)) }
    ensures within { OnOk result ((q : Code) →
        sum_at pass.new.sums q ≤ sum_at pass.old.sums q + MOST_WEIGHTED_INDEX) }
    ensures few { OnOk result ((q : Code) → sum_at pass.new.imputed q ≤ sum_at pass.old.imputed q + 1) }
    ensures step { OnOk result (are_by_series row_serial rows.now ≡ true →
        IsPassingStep unchanged rows.now weight pass.old pass.new) }
{
    let code = weight.code();
    match carry_group(rows, unchanged, &mut pass.carried)? {
        Ok(group) => {
            let index = u128::from(group.index.millionths());
            add_path(&mut pass.sums, code, u128::from(weight.parts()) * index)?;
            count_imputed(&mut pass.imputed, code, group.imputed)?;
        }
        Err(lack) => note(&mut pass.faults, lack, code),
    }
    Ok(())
}

// A pass over all aggregates with a weight in use, each read once.
pub(crate) fn pass_over<G: Groups>(
    alloc: Global,
    groups: &mut G,
    weights: &[EffectiveWeight],
    month: Month,
    unchanged: &[bool],
) -> Result<Pass, FreezeFault>
    requires elementary { list_all (λ w. is_code_elementary w.code) weights.now ≡ true }
    requires few { length weights.now ≤ ALL_PARTS }
    requires each { length unchanged.now ≡ length weights.now }
    ensures keeps { Keeps (G.holds groups.old) (G.holds groups.new) }
    ensures stays { result ≢ Err Group → StaysClean (G.holds groups.old) (G.holds groups.new) }
    ensures count { (G.holds groups.old).failures ≤ (G.holds groups.new).failures }
    ensures most { IfOk result (λ p. (q : Code) → sum_at p.sums q ≤ MOST_INDEX * weight_under q weights.now) }
    ensures exact { (carry : List Code) → AreListed weights.now carry unchanged.now →
        (G.holds groups.new).is_clean →
        G.is_sound (G.holds groups.old).held → CanAsk (G.sources (G.holds groups.old).held) month →
        let own = group_of (G.sources (G.holds groups.old).held) month in
        IfOk result (λ p. IsPassed own (is_listed carry) weights.now p) }
    ensures fault { IfErr result (λ f. IsReadFault (G.holds groups.old).failures (G.holds groups.new).failures f) }
{
    let mut pass = empty_pass(alloc);
    for i in 0..weights.len() {
        let weight = weights[i];
        let Ok(rows) = groups.rows(month.year(), month, weight.code()) else {
            return Err(FreezeFault::Group);
        };
        let Ok(()) = add(&mut pass, weight, &rows, unchanged[i]) else {
            return Err(FreezeFault::Index(IndexFault::NoMemory));
        };
    }
    Ok(pass)
}
