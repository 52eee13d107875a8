//! Sums of weights, kept for each code.
ghost use Rattle.std.specs.Prelude.{◌≡◌, ℕ, ◌+◌, ◌^◌, ◌<◌, ◌*◌, IsSome, OnOk, if◌then◌else◌};
ghost use Rattle.cpi_codes.specs.CodeText.{is_code_at_or_below};
ghost use Rattle.cpi_codes.specs.CodeOrder.{is_same_code};
ghost use Rattle.cpi_codes.specs.declared.codes.Code.{Code};
ghost use Rattle.cpi_plan.specs.Sums.{sum_at};

use cpi_codes::Code;
use std::alloc::AllocError;
use std::collections::BTreeMap;

// Adds an amount to a code's sum. An `Err` says that memory was refused.
fn add(sums: &mut BTreeMap<Code, u128>, node: Code, amount: u128) -> Result<(), AllocError>
    requires { sum_at sums.old node + amount < 2 ^ 128 }
    ensures { OnOk result ((q : Code) →
        sum_at sums.new q ≡ sum_at sums.old q + (if is_same_code node q then amount else 0)) }
{
    let had = sums.get(&node).copied().unwrap_or(0);
    sums.insert(node, had + amount)?;
    Ok(())
}

/// Adds an amount to the sum of an elementary aggregate and to the sums of all codes above it, in six look-ups. An
/// `Err` says that memory was refused; some of the sums may have grown then.
pub fn add_path(sums: &mut BTreeMap<Code, u128>, code: Code, amount: u128) -> Result<(), AllocError>
    requires elementary { IsSome code.aggregate }
    requires fits { (q : Code) → sum_at sums.old q + 6 * amount < 2 ^ 128 }
    ensures { OnOk result ((q : Code) →
        sum_at sums.new q ≡ sum_at sums.old q + (if is_code_at_or_below q code then amount else 0)) }
{
    let mut node = code;
    add(sums, node, amount)?;
    node.aggregate = None;
    add(sums, node, amount)?;
    node.subclass = None;
    add(sums, node, amount)?;
    node.class = None;
    add(sums, node, amount)?;
    node.group = None;
    add(sums, node, amount)?;
    node.division = 0;
    add(sums, node, amount)?;
    Ok(())
}
