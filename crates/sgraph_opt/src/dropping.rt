// Assignments of the code 0 are left out.
ghost use Rattle.std.specs.Prelude.{◌≡◌, ◌<◌, ℕ, length, slice_get, slice_index, Some, IfOk};
ghost use Rattle.sgraph.specs.declared.vertex.Vertex.{Vertex};
ghost use Rattle.sgraph_opt.specs.inner.Representatives.{past_default, Dropping};
ghost use Rattle.sgraph_opt.specs.Smaller.{Keeps, NoDefaults};

use crate::numbering::renumbered;
use polis_base::{List, NoMemory};
use sgraph::{Graph, Vertex};
use std::alloc::Global;

// What stands for a vertex, where the later ones have what stands for them.
fn past_default(g: &Graph, k: u64, reps: &List<u64>) -> u64
    requires long { length reps.now ≡ length g.now }
    requires k { k < length g.now }
    ensures { (v : Vertex) → slice_get g.now k ≡ Some v
        → result ≡ past_default (slice_index reps.now) k v }
{
    let _ = g.len();
    let v = g.get(k);
    match v {
        Vertex::Assign { code, next, .. } => {
            if *code == 0 {
                return *reps.get(*next);
            }
            k
        }
        _ => k,
    }
}

// What stands for each vertex.
fn past_defaults(alloc: Global, g: &Graph) -> Result<List<u64>, NoMemory>
    ensures { IfOk result (λ reps. Dropping g.now reps 0) }
{
    let mut reps = List::filled(alloc, g.len(), 0)?;
    for k in (0..g.len()).rev() {
        let r = past_default(g, k, &reps);
        reps.set(k, r);
    }
    Ok(reps)
}

/// The graph without its assignments of the code 0, which each result has from the beginning.
pub fn drop_defaults(alloc: Global, g: &Graph) -> Result<Graph, NoMemory>
    ensures keeps { IfOk result (λ h. Keeps g.now h) }
    ensures defaults { IfOk result (λ h. NoDefaults h) }
{
    let _ = g.len();
    let reps = past_defaults(alloc, g)?;
    let h = renumbered(alloc, g, &reps)?;
    Ok(h)
}
