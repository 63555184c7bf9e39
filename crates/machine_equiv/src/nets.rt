// The comparison of two networks.
ghost use Rattle.std.specs.Prelude.{IfOk, IfNone};
ghost use Rattle.transition_table.specs.Transitions.{AreDeterministic};
ghost use Rattle.machine_equiv.specs.Comparing.{IsNetComparison};
ghost use Rattle.machine_equiv.specs.Runs.{HaveSameRuns};
ghost use Rattle.machine_equiv.specs.Shapes.{SameShape};

use crate::tables::difference;
use polis_base::NoMemory;
use std::alloc::Global;
use transition_table::{Network, Snapshot};

/// Where the tables of two networks differ first.
#[derive(Drop)]
pub struct Differing {
    /// The number of the machine.
    pub machine: u32,
    /// The least snapshot on which the tables of that machine differ.
    pub snapshot: Snapshot,
}

/// The first machine of two networks of one shape whose tables differ, with the least snapshot on
/// which they do. None where no tables differ: then the networks have the same runs.
pub fn compare_nets(alloc: Global, a: &Network, b: &Network) -> Result<Option<Differing>, NoMemory>
    requires shape { SameShape a.now b.now }
    requires deterministic { AreDeterministic a.now }
    requires other { AreDeterministic b.now }
    ensures answer { IfOk result (IsNetComparison a.now b.now) }
    ensures runs { IfOk result (λ found. IfNone found (HaveSameRuns a.now b.now)) }
{
    for k in 0..a.machines.len() {
        let found = difference(alloc, a.machines.get(k), b.machines.get(k))?;
        if let Some(snapshot) = found {
            return Ok(Some(Differing {
                machine: k as u32,
                snapshot,
            }));
        }
    }
    Ok(None)
}
