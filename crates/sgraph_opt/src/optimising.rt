// Graphs made as small as they get here.
ghost use Rattle.std.specs.Prelude.{ℕ, List, IfOk};
ghost use Rattle.sgraph.specs.Graphs.{Reduced};
ghost use Rattle.sgraph.specs.Reactions.{IsGraphOf};
ghost use Rattle.transition_table.specs.declared.machine.Machine.{Machine};
ghost use Rattle.sgraph_opt.specs.Smaller.{Keeps, NoDefaults};

use crate::numbering::renumbered;
use crate::sharing::all_shared;
use polis_base::NoMemory;
use sgraph::Graph;
use std::alloc::Global;

/// The graph without its assignments of the code 0, and then with equal vertices as one. An
/// assignment that is left out can make the children of a test one, and a test that is left out can
/// make vertices before it equal.
pub fn optimise(alloc: Global, g: &Graph) -> Result<Graph, NoMemory>
    ensures keeps { IfOk result (λ h. Keeps g.now h) }
    ensures reduced { IfOk result (λ h. Reduced h) }
    ensures of_machine { (m : Machine) (order : List ℕ) → IsGraphOf m order g.now
        → IfOk result (λ h. IsGraphOf m order h) }
    ensures defaults { IfOk result (λ h. NoDefaults h) }
{
    let _ = g.len();
    let reps = all_shared(alloc, g, true)?;
    let h = renumbered(alloc, g, &reps)?;
    Ok(h)
}
