//! The sums of the weights in use.
ghost use Rattle.std.specs.Prelude.{◌≡◌, ◌≤◌, true, length, IfOk};
ghost use Rattle.std.specs.List.{list_all};
ghost use Rattle.cpi_codes.specs.CodeOrder.{is_code_elementary};
ghost use Rattle.cpi_codes.specs.declared.codes.Code.{Code};
ghost use Rattle.cpi_plan.specs.Sums.{sum_at, weight_under, is_node};
ghost use Rattle.cpi_plan.specs.declared.limits.TheConstants.{ALL_PARTS};
ghost use Rattle.cpi_index.specs.declared.limits.TheConstants.{MOST_NODE_WEIGHT};

use crate::effective::EffectiveWeight;
use cpi_codes::Code;
use cpi_plan::add_path;
use std::alloc::{AllocError, Global};
use std::collections::BTreeMap;

/// The sum of the weights in use at and below each code, in one pass. The caller owes at most 1,000,000 weights of
/// elementary aggregates.
pub fn weights_under(
    alloc: Global,
    weights: &[EffectiveWeight],
) -> Result<BTreeMap<Code, u128>, AllocError>
    requires elementary { list_all (λ w. is_code_elementary w.code) weights.now ≡ true }
    requires few { length weights.now ≤ ALL_PARTS }
    ensures sums { IfOk result (λ sums. (q : Code) → sum_at sums q ≡ weight_under q weights.now) }
    ensures least { IfOk result (λ sums. (q : Code) → is_node weights.now q ≡ true → 1 ≤ sum_at sums q) }
    ensures most { IfOk result (λ sums. (q : Code) → sum_at sums q ≤ MOST_NODE_WEIGHT) }
{
    let mut sums = BTreeMap::new(alloc);
    for weight in weights {
        add_path(&mut sums, weight.code(), u128::from(weight.parts()))?;
    }
    Ok(sums)
}
