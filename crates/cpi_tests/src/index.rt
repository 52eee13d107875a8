//! A month's index, by the weights of its plan, and by moved ones.
use crate::records::{referred_plan, two_months};
use cpi_codes::Code;
use cpi_index::{
    ChainedLevel, NodeLevel, bases_of_year, carry_month, chain, effective_weights, elementary,
    upper,
};
use std::alloc::Global;
use std::test::Fail;

#[test]
fn a_month_is_computed(rt: HostRuntime) -> Result<(), Fail> {
    let alloc = rt.alloc();
    let year = two_months(alloc)?;
    let bases = bases_of_year(alloc, &year.plan, &[], &year.december)?;
    let carried = carry_month(alloc, &year.plan, &bases, &bases, &year.january, &[])?;
    let indices = elementary(alloc, &year.plan, &bases, &carried)?;
    let weights = effective_weights(alloc, &year.plan, &[], &[])?;
    let nodes = upper(alloc, &year.plan, &weights, &indices)?;
    let levels = chain(alloc, &[], &nodes)?;
    let all_items = levels.first().map(|row| row.level);
    assert_eq!(rt; all_items, ChainedLevel::new(102_200_000));
    Ok(())
}

// The levels of both aggregates in a table, in millionths.
fn levels_of(alloc: Global, levels: [u128; 2]) -> Result<Vec<NodeLevel>, Fail> {
    let mut rows = Vec::new(alloc);
    for (code, level) in ["01.1.1.1-01", "01.1.1.2-01"].iter().zip(levels) {
        rows.push(NodeLevel {
            code: Code::parse(code.as_bytes())?,
            level: ChainedLevel::new(level).ok_or("no level")?,
        })?;
    }
    Ok(rows)
}

#[test]
fn a_month_is_computed_by_moved_weights(rt: HostRuntime) -> Result<(), Fail> {
    let alloc = rt.alloc();
    let (year, plan) = (two_months(alloc)?, referred_plan(alloc)?);
    let bases = bases_of_year(alloc, &plan, &[], &year.december)?;
    let carried = carry_month(alloc, &plan, &bases, &bases, &year.january, &[])?;
    let indices = elementary(alloc, &plan, &bases, &carried)?;
    let link = levels_of(alloc, [105_000_000, 98_000_000])?;
    let reference = levels_of(alloc, [100_000_000, 100_000_000])?;
    let weights = effective_weights(alloc, &plan, &link, &reference)?;
    let levels = chain(alloc, &[], &upper(alloc, &plan, &weights, &indices)?)?;
    let all_items = levels.first().map(|row| row.level);
    // (630,000 times 105 and 392,000 times 98, by 1,022,000)
    assert_eq!(rt; all_items, ChainedLevel::new(102_315_068));
    Ok(())
}
