// Equal vertices are joined, and tests are left out whose children are one.
ghost use Rattle.std.specs.Prelude.{◌≡◌, ◌<◌, ℕ, List, map, length, slice_get, slice_index, Some, IfOk, OnOk, IfSome, IfNone, IsTrue};
ghost use Rattle.sgraph.specs.declared.vertex.Vertex.{Vertex};
ghost use Rattle.sgraph.specs.declared.vertex.Vertex.TheVariants.{Test, Assign};
ghost use Rattle.sgraph.specs.Graphs.{key_of, varies, Reduced};
ghost use Rattle.sgraph_opt.specs.inner.Choices.{Entered, Chosen, Shared};
ghost use Rattle.sgraph_opt.specs.inner.Representatives.{Standing};
ghost use Rattle.sgraph.specs.Reactions.{IsGraphOf};
ghost use Rattle.transition_table.specs.declared.machine.Machine.{Machine};
ghost use Rattle.sgraph_opt.specs.Smaller.{Keeps, NoDefaults};

use crate::numbering::renumbered;
use polis_base::index::{Index, enter, find, index_with_room};
use polis_base::{List, NoMemory};
use sgraph::{Graph, Places, Vertex};
use std::alloc::Global;

// What stands for all of some vertices, where it is one.
fn one_kid(kids: &Places, reps: &List<u64>) -> Option<u64>
    requires some { 0 < length kids.now }
    requires kids { (i : ℕ) → i < length kids.now → slice_index kids.now i < length reps.now }
    ensures one { IfSome result (λ r. (i : ℕ) → i < length kids.now
        → slice_index reps.now (slice_index kids.now i) ≡ r) }
    ensures none { IfNone result ((var : ℕ)
        → IsTrue (varies (Test var (map (slice_index reps.now) kids.now)))) }
{
    let first = *reps.get(*kids.get(0));
    for i in 0..kids.len() {
        let rep = *reps.get(*kids.get(i));
        if rep != first {
            return None;
        }
    }
    Some(first)
}

// Makes a key of a test with what stands for its children.
fn test_key(var: u32, kids: &Places, reps: &List<u64>, key: &mut Vec<u64>) -> Result<(), NoMemory>
    requires { (i : ℕ) → i < length kids.now → slice_index kids.now i < length reps.now }
    ensures { OnOk result (key.new.items
        ≡ key_of (Test var (map (slice_index reps.now) kids.now))) }
{
    key.clear();
    key.push(1)?;
    key.push(u64::from(var))?;
    for i in 0..kids.len() {
        let number = *reps.get(*kids.get(i));
        key.push(number)?;
    }
    Ok(())
}

// An assignment with what stands for its child, as a key.
fn assign_key(y: u32, code: u8, next: u64) -> [u64; 4]
    ensures { result ≡ key_of (Assign y code next) }
{
    [2, u64::from(y), u64::from(code), next]
}

// The number that stands under a key, or else this one, which is put there.
fn known_or_new(alloc: Global, index: &mut Index, key: &[u64], k: u64) -> Result<u64, NoMemory>
    ensures { IfOk result (λ r. Entered index.old index.new key.now k r) }
{
    match find(index, key) {
        Some(r) => Ok(r),
        None => {
            enter(index, Vec::from_slice(alloc, key)?, k)?;
            Ok(k)
        }
    }
}

// What stands for a vertex, where the later ones have what stands for them: what stands for all its
// children, a later vertex that is equal with what stands for the children, or itself. Where
// assignments of the code 0 are dropped, what stands for the child of one.
fn shared(
    alloc: Global,
    g: &Graph,
    k: u64,
    reps: &List<u64>,
    drops: bool,
    key: &mut Vec<u64>,
    index: &mut Index,
) -> Result<u64, NoMemory>
    requires long { length reps.now ≡ length g.now }
    requires k { k < length g.now }
    ensures { IfOk result (λ r. (v : Vertex) → slice_get g.now k ≡ Some v
        → Chosen drops (slice_index reps.now) k r index.old index.new v) }
{
    let _ = g.len();
    let v = g.get(k);
    match v {
        Vertex::Begin { .. } => Ok(k),
        Vertex::Test { var, kids } => {
            if let Some(r) = one_kid(kids, reps) {
                return Ok(r);
            }
            test_key(*var, kids, reps, key)?;
            let r = known_or_new(alloc, index, key, k)?;
            Ok(r)
        }
        Vertex::Assign {
            result: y,
            code,
            next,
        } => {
            let next = *reps.get(*next);
            if drops && *code == 0 {
                return Ok(next);
            }
            let r = known_or_new(alloc, index, &assign_key(*y, *code, next), k)?;
            Ok(r)
        }
        Vertex::End => Ok(k),
    }
}

// What stands for each vertex, where assignments of the code 0 may be dropped.
pub(crate) fn all_shared(alloc: Global, g: &Graph, drops: bool) -> Result<List<u64>, NoMemory>
    ensures stands { IfOk result (λ reps. Standing g.now reps 0) }
    ensures shared { IfOk result (λ reps. Shared drops g.now reps) }
{
    let mut index = index_with_room(alloc, g.len())?;
    let mut key = Vec::new(alloc);
    let mut reps = List::filled(alloc, g.len(), 0)?;
    for k in (0..g.len()).rev() {
        let r = shared(alloc, g, k, &reps, drops, &mut key, &mut index)?;
        reps.set(k, r);
    }
    Ok(reps)
}

/// The graph in which equal vertices are one, and no test has all its children the same.
pub fn share(alloc: Global, g: &Graph) -> Result<Graph, NoMemory>
    ensures keeps { IfOk result (λ h. Keeps g.now h) }
    ensures reduced { IfOk result (λ h. Reduced h) }
    ensures of_machine { (m : Machine) (order : List ℕ) → IsGraphOf m order g.now
        → IfOk result (λ h. IsGraphOf m order h) }
    ensures defaults { NoDefaults g.now → IfOk result (λ h. NoDefaults h) }
{
    let _ = g.len();
    let reps = all_shared(alloc, g, false)?;
    let h = renumbered(alloc, g, &reps)?;
    Ok(h)
}
