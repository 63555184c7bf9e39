// Vertices that are numbered again.
ghost use Rattle.std.specs.Prelude.{◌≡◌, ◌<◌, ℕ, true, length, slice_index, map, IfOk, OnOk};
ghost use Rattle.sgraph.specs.Facts.{IsGraph};
ghost use Rattle.sgraph.specs.Graphs.{kids_of, kids_at, left_after};
ghost use Rattle.sgraph.specs.inner.Marks.{turned, Marks};
ghost use Rattle.sgraph_opt.specs.inner.Representatives.{renamed, Standing};
ghost use Rattle.sgraph_opt.specs.Renumbering.{all_left};
ghost use Rattle.sgraph_opt.specs.inner.Renumbering.{vertex_at, numbered_of, replaced};
ghost use Rattle.sgraph_opt.specs.Smaller.{Keeps};
ghost use Rattle.transition_table.specs.NetworkFacts.{has};
ghost use Rattle.domains.specs.Orders.{place};

use polis_base::{Duplicate, List, NoMemory};
use sgraph::{Graph, Places, Vertex, VertexList};
use std::alloc::Global;
use std::slice;

// The children of a vertex.
fn kids(v: &Vertex) -> &[u64]
    ensures { result.now ≡ kids_of v.now }
{
    match v {
        Vertex::Begin { next } => slice::from_ref(next),
        Vertex::Test { kids, .. } => kids.as_slice(),
        Vertex::Assign { next, .. } => slice::from_ref(next),
        Vertex::End => &[],
    }
}

// Leaves a vertex, after what stands for those that follow on it.
fn leave(
    g: &Graph,
    reps: &List<u64>,
    k: u64,
    marks: &mut List<bool>,
    left: &mut List<u64>,
) -> Result<(), NoMemory>
    requires graph { IsGraph g.now }
    requires stands { Standing g.now reps.now 0 }
    requires vertex { k < length g.now }
    requires marks { Marks (length (replaced g.now reps.now)) marks.old left.old }
    ensures left { OnOk result (turned left.new
        ≡ left_after (length (replaced g.now reps.now)) (kids_at (replaced g.now reps.now))
        (turned left.old) k) }
    ensures marks { OnOk result (Marks (length (replaced g.now reps.now)) marks.new left.new) }
{
    if *marks.get(k) {
        return Ok(());
    }
    for kid in kids(g.get(k)) {
        let rep = *reps.get(*kid);
        if !*marks.get(rep) {
            leave(g, reps, rep, marks, left)?;
        }
    }
    marks.set(k, true);
    left.push(k)?;
    Ok(())
}

// The vertices that a walk from the first one leaves, in the order in which it leaves them, where
// each vertex has what stands for its children.
fn leave_all(alloc: Global, g: &Graph, reps: &List<u64>) -> Result<List<u64>, NoMemory>
    requires { Standing g.now reps.now 0 }
    ensures { IfOk result (λ left. turned left ≡ all_left (replaced g.now reps.now)) }
{
    let mut marks = List::filled(alloc, g.len(), false)?;
    let mut left = List::new(alloc);
    leave(g, reps, 0, &mut marks, &mut left)?;
    Ok(left)
}

// The new number of each vertex.
fn numbers_of(alloc: Global, count: u64, left: &List<u64>) -> Result<List<u64>, NoMemory>
    requires { (i : ℕ) → i < length left.now → slice_index left.now i < count }
    ensures long { IfOk result (λ numbers. length numbers ≡ count) }
    ensures each { IfOk result (λ numbers. (k : ℕ) → has (turned left.now) k ≡ true
        → slice_index numbers k ≡ place (turned left.now) k) }
{
    let mut numbers = List::filled(alloc, count, 0)?;
    let len = left.len();
    for i in 0..len {
        numbers.set(*left.get(i), len - i - 1);
    }
    Ok(numbers)
}

// The new number of what stands for a vertex.
fn number_of(k: u64, reps: &List<u64>, numbers: &List<u64>) -> u64
    requires within { k < length reps.now }
    requires rep { slice_index reps.now k < length numbers.now }
    ensures { result ≡ slice_index numbers.now (slice_index reps.now k) }
{
    *numbers.get(*reps.get(k))
}

// The new numbers of what stands for vertices.
fn kid_numbers(kids: &Places, reps: &List<u64>, numbers: &List<u64>) -> Result<Places, NoMemory>
    requires within { (j : ℕ) → j < length kids.now → slice_index kids.now j < length reps.now }
    requires reps { (j : ℕ) → j < length kids.now
        → slice_index reps.now (slice_index kids.now j) < length numbers.now }
    ensures { IfOk result (λ list. list
        ≡ map (λ k. slice_index numbers.now (slice_index reps.now k)) kids.now) }
{
    let named = kids.copy()?.through(reps);
    let list = named.through(numbers);
    Ok(list)
}

// A vertex with the new numbers of what stands for its children.
fn rename(v: &Vertex, reps: &List<u64>, numbers: &List<u64>) -> Result<Vertex, NoMemory>
    requires within { (j : ℕ) → j < length (kids_of v.now)
        → slice_index (kids_of v.now) j < length reps.now }
    requires reps { (j : ℕ) → j < length (kids_of v.now)
        → slice_index reps.now (slice_index (kids_of v.now) j) < length numbers.now }
    ensures { IfOk result
        (λ w. w ≡ renamed (λ k. slice_index numbers.now (slice_index reps.now k)) v.now) }
{
    match v {
        Vertex::Begin { next } => Ok(Vertex::Begin {
            next: number_of(*next, reps, numbers),
        }),
        Vertex::Test { var, kids } => Ok(Vertex::Test {
            var: *var,
            kids: kid_numbers(kids, reps, numbers)?,
        }),
        Vertex::Assign { result, code, next } => Ok(Vertex::Assign {
            result: *result,
            code: *code,
            next: number_of(*next, reps, numbers),
        }),
        Vertex::End => Ok(Vertex::End),
    }
}

// The vertices that were left, the last one first, with the new numbers of what stands for their
// children.
fn arrange(
    alloc: Global,
    g: &Graph,
    reps: &List<u64>,
    left: &List<u64>,
    numbers: &List<u64>,
) -> Result<VertexList, NoMemory>
    requires graph { IsGraph g.now }
    requires stands { Standing g.now reps.now 0 }
    requires left { (i : ℕ) → i < length left.now → slice_index left.now i < length g.now }
    requires numbers { length numbers.now ≡ length g.now }
    ensures { IfOk result (λ vertices.
        vertices ≡ map (λ k. renamed (slice_index numbers.now)
        (vertex_at (replaced g.now reps.now) k)) (turned left.now)) }
{
    let mut vertices = VertexList::with_room(alloc, left.len())?;
    for i in (0..left.len()).rev() {
        let k = *left.get(i);
        let v = rename(g.get(k), reps, numbers)?;
        vertices.push(v)?;
    }
    Ok(vertices)
}

// The graph of what stands for the vertices that are reached from the first one, numbered again in
// the reverse of the order in which a walk leaves them.
pub(crate) fn renumbered(alloc: Global, g: &Graph, reps: &List<u64>) -> Result<Graph, NoMemory>
    requires { Standing g.now reps.now 0 }
    ensures list { IfOk result (λ h. h ≡ numbered_of (replaced g.now reps.now)) }
    ensures keeps { IfOk result (λ h. Keeps g.now h) }
{
    let count = g.len();
    let left = leave_all(alloc, g, reps)?;
    let numbers = numbers_of(alloc, count, &left)?;
    let vertices = arrange(alloc, g, reps, &left, &numbers)?;
    Ok(Graph::of(vertices))
}
