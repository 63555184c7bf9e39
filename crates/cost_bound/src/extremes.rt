// The greatest and the least cost over all snapshots.
ghost use Rattle.std.specs.Prelude.{◌≡◌, IfOk};
ghost use Rattle.transition_table.specs.declared.machine.Machine.{Machine};
ghost use Rattle.task_code.specs.Codes.{StepsOf};
ghost use Rattle.task_code.specs.Facts.{OnceCode};
ghost use Rattle.task_machine.specs.Running.{CodeFits};
ghost use Rattle.cost_bound.specs.inner.Scores.{IsExtreme};
ghost use Rattle.cost_bound.specs.Costs.{CostOf};
ghost use Rattle.cost_bound.specs.Bounds.{IsWorst, IsBest};

use crate::aim::Aim;
use crate::bound::{Bound, Range};
use crate::costs::Costs;
use crate::numbering::{codes_at, weights};
use crate::score::scores_of;
use polis_base::NoMemory;
use std::alloc::Global;
use task_code::Code;
use transition_table::{Machine, Snapshot};

// The greatest or the least cost of code. It takes one pass over the code.
fn best(alloc: Global, aim: Aim, code: &Code, m: &Machine, costs: &Costs) -> Result<Bound, NoMemory>
    requires fits { CodeFits m.now code.now }
    requires once { OnceCode code.now }
    ensures { IfOk result (IsExtreme aim m.now (CostOf costs.now code.now)) }
{
    let _ = code.len();
    domains::laws();
    let weights = weights(alloc, &m.vars)?;
    let scores = scores_of(alloc, aim, code, costs, &weights)?;
    let first = *scores.get(0);
    let codes = codes_at(alloc, &m.vars, &weights, first.number)?;
    Ok(Bound {
        steps: first.cost,
        snapshot: Snapshot { codes },
    })
}

/// The greatest number of instructions that code executes on a snapshot of a machine, the halt
/// included, and the first snapshot that takes so many.
pub fn worst(alloc: Global, code: &Code, m: &Machine) -> Result<Bound, NoMemory>
    requires fits { CodeFits m.now code.now }
    requires once { OnceCode code.now }
    ensures { IfOk result (IsWorst m.now (StepsOf code.now)) }
{
    let bound = best(alloc, Aim::Most, code, m, &Costs::ones())?;
    Ok(bound)
}

/// The greatest and the least cost of code over all snapshots of a machine, each with the first
/// snapshot that takes it.
pub fn range(alloc: Global, code: &Code, m: &Machine, costs: &Costs) -> Result<Range, NoMemory>
    requires fits { CodeFits m.now code.now }
    requires once { OnceCode code.now }
    ensures most { IfOk result (λ range. IsWorst m.now (CostOf costs.now code.now) range.most) }
    ensures least { IfOk result (λ range. IsBest m.now (CostOf costs.now code.now) range.least) }
{
    let most = best(alloc, Aim::Most, code, m, costs)?;
    let least = best(alloc, Aim::Least, code, m, costs)?;
    Ok(Range { most, least })
}
