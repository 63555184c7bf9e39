// The graph of a diagram.
ghost use Rattle.std.specs.Prelude.{◌≡◌, ◌+◌, ◌<◌, ◌≤◌, ℕ, true, ◌∷◌, map, length, slice_index, IfOk};
ghost use Rattle.transition_table.specs.NetworkFacts.{has};
ghost use Rattle.transition_table.specs.Transitions.{IsDeterministic};
ghost use Rattle.decision_diagram.specs.Diagrams.{IsNode, inner_at, kids_of, shape_of};
ghost use Rattle.decision_diagram.specs.declared.node.Shape.TheVariants.{Inner};
ghost use Rattle.sgraph.specs.declared.vertex.Vertex.TheVariants.{Begin};
ghost use Rattle.transition_table.specs.Orders.{sizes_of, Allowed};
ghost use Rattle.sgraph.specs.Building.{number_in, vertex_in, graph_of};
ghost use Rattle.sgraph.specs.Built.{IsExact};
ghost use Rattle.sgraph.specs.inner.Marks.{turned};
ghost use Rattle.sgraph.specs.Reactions.{IsGraphOf};

use crate::graph::{Graph, VertexList};
use crate::law::laws;
use crate::leaving::{Nodes, all_left, first_code, item_size};
use crate::places::Places;
use crate::vertex::Vertex;
use decision_diagram::{NodeId, Order, Root, Shape, Store};
use polis_base::{List, NoMemory};
use std::alloc::Global;
use transition_table::Machine;

// The number of each node's vertex.
fn numbers_of(alloc: Global, count: u64, left: &Nodes) -> Result<List<u64>, NoMemory>
    requires { (i : ℕ) → i < length left.now → slice_index left.now i < count }
    ensures long { IfOk result (λ numbers. length numbers ≡ count) }
    ensures each { IfOk result (λ numbers. (k : ℕ) → has (turned left.now) k ≡ true
        → slice_index numbers k ≡ number_in (turned left.now) k) }
{
    let mut numbers = List::filled(alloc, count, 0)?;
    let len = left.len();
    for i in 0..len {
        numbers.set(left.get(i).number(), len - i);
    }
    Ok(numbers)
}

// The numbers of the vertices of a node's children.
fn kid_numbers(
    alloc: Global,
    m: &Machine,
    store: &Store,
    k: NodeId,
    var: u32,
    numbers: &List<u64>,
) -> Result<List<u64>, NoMemory>
    requires node { IsNode store.now k }
    requires shape { shape_of store.now k ≡ Inner var }
    requires var { var < length m.now.vars }
    requires sizes { store.now.sizes ≡ sizes_of m.now }
    requires numbers { length numbers.now ≡ length store.now.nodes + 2 }
    ensures { IfOk result (λ list. list
        ≡ map (slice_index numbers.now) (kids_of store.now k)) }
{
    let _ = store.shape(k);
    let size = *m.vars.get(u64::from(var));
    let mut list = List::filled(alloc, u64::from(size), 0)?;
    for code in 0..size {
        let number = *numbers.get(store.child(k, code).number());
        list.set(u64::from(code), number);
    }
    Ok(list)
}

// The number of the vertex of a node's child.
fn kid_number(store: &Store, k: NodeId, code: u8, numbers: &List<u64>) -> u64
    requires node { IsNode store.now k }
    requires code { code < length (kids_of store.now k) }
    requires numbers { length numbers.now ≡ length store.now.nodes + 2 }
    ensures { result ≡ slice_index numbers.now (slice_index (kids_of store.now k) code) }
{
    *numbers.get(store.child(k, code).number())
}

// The numbers of the vertices of a node's children, as a test has them.
fn kid_places(
    alloc: Global,
    m: &Machine,
    store: &Store,
    k: NodeId,
    var: u32,
    numbers: &List<u64>,
) -> Result<Places, NoMemory>
    requires node { IsNode store.now k }
    requires shape { shape_of store.now k ≡ Inner var }
    requires var { var < length m.now.vars }
    requires sizes { store.now.sizes ≡ sizes_of m.now }
    requires numbers { length numbers.now ≡ length store.now.nodes + 2 }
    ensures { IfOk result (λ list. list
        ≡ map (slice_index numbers.now) (kids_of store.now k)) }
{
    let _ = store.shape(k);
    if item_size(m, var) == 2 {
        let first = kid_number(store, k, 0, numbers);
        let second = kid_number(store, k, 1, numbers);
        return Ok(Places::two(first, second));
    }
    let list = kid_numbers(alloc, m, store, k, var, numbers)?;
    Ok(Places::of(list))
}

// The test of a variable's node.
fn test_vertex(
    alloc: Global,
    m: &Machine,
    store: &Store,
    k: NodeId,
    var: u32,
    numbers: &List<u64>,
) -> Result<Vertex, NoMemory>
    requires node { IsNode store.now k }
    requires shape { shape_of store.now k ≡ Inner var }
    requires var { var < length m.now.vars }
    requires sizes { store.now.sizes ≡ sizes_of m.now }
    requires numbers { length numbers.now ≡ length store.now.nodes + 2 }
    ensures { IfOk result
        (λ v. v ≡ vertex_in (length m.now.vars) (slice_index numbers.now)
        (inner_at store.now.nodes k)) }
{
    let kids = kid_places(alloc, m, store, k, var, numbers)?;
    Ok(Vertex::Test { var, kids })
}

// The assignment of a result's node.
fn assign_vertex(m: &Machine, store: &Store, k: NodeId, var: u32, numbers: &List<u64>) -> Vertex
    requires node { IsNode store.now k }
    requires shape { shape_of store.now k ≡ Inner var }
    requires var { length m.now.vars ≤ var }
    requires sizes { store.now.sizes ≡ sizes_of m.now }
    requires numbers { length numbers.now ≡ length store.now.nodes + 2 }
    ensures { result ≡ vertex_in (length m.now.vars) (slice_index numbers.now)
        (inner_at store.now.nodes k) }
{
    let code = first_code(m, store, k, var);
    let next = *numbers.get(store.child(k, code).number());
    let y = (u64::from(var) - m.vars.len()) as u32;
    Vertex::Assign {
        result: y,
        code,
        next,
    }
}

// The vertex of a node.
fn vertex(
    alloc: Global,
    m: &Machine,
    store: &Store,
    k: NodeId,
    numbers: &List<u64>,
) -> Result<Vertex, NoMemory>
    requires node { IsNode store.now k }
    requires sizes { store.now.sizes ≡ sizes_of m.now }
    requires numbers { length numbers.now ≡ length store.now.nodes + 2 }
    ensures { IfOk result
        (λ v. v ≡ vertex_in (length m.now.vars) (slice_index numbers.now)
        (inner_at store.now.nodes k)) }
{
    match store.shape(k) {
        Shape::Inner { var } => {
            if u64::from(var) < m.vars.len() {
                test_vertex(alloc, m, store, k, var, numbers)
            } else {
                Ok(assign_vertex(m, store, k, var, numbers))
            }
        }
        Shape::False => Ok(Vertex::End),
        Shape::True => Ok(Vertex::End),
    }
}

// The begin, and the vertices of the nodes that were left, the last one first.
fn vertices_of(
    alloc: Global,
    m: &Machine,
    store: &Store,
    left: &Nodes,
    numbers: &List<u64>,
) -> Result<VertexList, NoMemory>
    requires nodes { (i : ℕ) → i < length left.now
        → slice_index left.now i < length store.now.nodes + 2 }
    requires sizes { store.now.sizes ≡ sizes_of m.now }
    requires numbers { length numbers.now ≡ length store.now.nodes + 2 }
    ensures { IfOk result (λ vertices.
        vertices ≡ Begin 1
        ∷ map (λ k. vertex_in (length m.now.vars) (slice_index numbers.now)
        (inner_at store.now.nodes k)) (turned left.now)) }
{
    let mut vertices = VertexList::with_room(alloc, numbers.len())?;
    vertices.push(Vertex::Begin { next: 1 })?;
    for i in (0..left.len()).rev() {
        let v = vertex(alloc, m, store, *left.get(i), numbers)?;
        vertices.push(v)?;
    }
    Ok(vertices)
}

// The vertices of the graph.
fn graph_vertices(
    alloc: Global,
    m: &Machine,
    store: &Store,
    root: NodeId,
) -> Result<VertexList, NoMemory>
    requires node { IsNode store.now root }
    requires sizes { store.now.sizes ≡ sizes_of m.now }
    ensures { IfOk result (λ vertices. vertices ≡ graph_of m.now store.now root) }
{
    store.same_value_same_node();
    let left = all_left(alloc, m, store, root)?;
    let numbers = numbers_of(alloc, store.node_count(), &left)?;
    let vertices = vertices_of(alloc, m, store, &left, &numbers)?;
    Ok(vertices)
}

/// A graph of a machine from its diagram under an order in which each result stands after its
/// support: a test for each node of a variable that is reached, an assignment for each such node of
/// a result, the end for the node that is true.
pub fn build(alloc: Global, m: &Machine, root: &Root, order: &Order) -> Result<Graph, NoMemory>
    requires sure { IsDeterministic m.now }
    requires sizes { root.now.store.sizes ≡ sizes_of m.now }
    requires order { root.now.store.order ≡ order.now }
    requires allowed { Allowed m.now order.now }
    requires node { IsNode root.now.store root.now.node }
    requires exact { IsExact m.now root.now.store root.now.node }
    ensures { IfOk result (λ g. IsGraphOf m.now order.now g) }
{
    laws();
    let _ = order;
    root.store.same_value_same_node();
    let vertices = graph_vertices(alloc, m, &root.store, root.node)?;
    Ok(Graph::of(vertices))
}
