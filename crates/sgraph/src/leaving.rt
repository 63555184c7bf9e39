// The walk through a diagram that leaves each node once.
ghost use Rattle.std.specs.Prelude.{◌≡◌, ◌+◌, ◌<◌, ◌≢◌, ℕ, suc, false, [], ◌∷◌, length, slice_index, replicate, IfOk, OnOk};
ghost use Rattle.decision_diagram.specs.Diagrams.{IsNode, shape_of, kids_of};
ghost use Rattle.decision_diagram.specs.declared.node.Shape.TheVariants.{Inner};
ghost use Rattle.transition_table.specs.Orders.{sizes_of};
ghost use Rattle.sgraph.specs.Graphs.{left_after};
ghost use Rattle.sgraph.specs.Building.{code_there, next_nodes};
ghost use Rattle.sgraph.specs.inner.Marks.{turned, Marks, AreNext};

use decision_diagram::{NodeId, Shape, Store};
use polis_base::{List, NoMemory};
use std::alloc::Global;
use transition_table::Machine;

// Nodes in order.
pub(crate) type Nodes = List<NodeId>;

// How many codes a variable or result has.
pub(crate) fn item_size(m: &Machine, item: u32) -> u8
    requires { item < length (sizes_of m.now) }
    ensures { result ≡ slice_index (sizes_of m.now) item }
{
    let k = u64::from(item);
    let vars = m.vars.len();
    if k < vars {
        return *m.vars.get(k);
    }
    *m.results.get(k - vars)
}

// The first code whose child isn't the node that is false.
pub(crate) fn first_code(m: &Machine, store: &Store, k: NodeId, var: u32) -> u8
    requires node { IsNode store.now k }
    requires shape { shape_of store.now k ≡ Inner var }
    requires sizes { store.now.sizes ≡ sizes_of m.now }
    ensures code { result ≡ code_there (kids_of store.now k) }
    ensures low { result < length (kids_of store.now k) }
{
    store.same_value_same_node();
    let _ = store.shape(k);
    for code in 0..item_size(m, var) {
        if store.child(k, code).number() != 0 {
            return code;
        }
    }
    0
}

// The codes whose children follow on a node, as the first one and the one after the last: all codes
// of a variable, and the first code of a result whose child isn't the node that is false.
fn next_codes(m: &Machine, store: &Store, k: NodeId) -> (u8, u8)
    requires node { IsNode store.now k }
    requires sizes { store.now.sizes ≡ sizes_of m.now }
    ensures { AreNext store.now (length m.now.vars) k result.0 result.1 }
{
    match store.shape(k) {
        Shape::Inner { var } => {
            let size = item_size(m, var);
            if u64::from(var) < m.vars.len() {
                (0, size)
            } else {
                let code = first_code(m, store, k, var);
                (code, code + 1)
            }
        }
        Shape::False => (0, 0),
        Shape::True => (0, 0),
    }
}

// Leaves a node, after those that follow on it.
fn leave(
    m: &Machine,
    store: &Store,
    k: NodeId,
    marks: &mut List<bool>,
    left: &mut Nodes,
) -> Result<(), NoMemory>
    requires node { IsNode store.now k }
    requires sizes { store.now.sizes ≡ sizes_of m.now }
    requires marks { Marks (length store.now.nodes + 2) marks.old left.old }
    ensures left { OnOk result (turned left.new
        ≡ left_after (suc k) (next_nodes store.now (length m.now.vars)) (turned left.old) k) }
    ensures marks { OnOk result (Marks (length store.now.nodes + 2) marks.new left.new) }
{
    store.same_value_same_node();
    if *marks.get(k.number()) {
        return Ok(());
    }
    let (from, end) = next_codes(m, store, k);
    for code in from..end {
        let kid = store.child(k, code);
        if !*marks.get(kid.number()) {
            leave(m, store, kid, marks, left)?;
        }
    }
    marks.set(k.number(), true);
    left.push(k)?;
    Ok(())
}

// The nodes that a walk from the root leaves, in order.
pub(crate) fn all_left(
    alloc: Global,
    m: &Machine,
    store: &Store,
    root: NodeId,
) -> Result<Nodes, NoMemory>
    requires node { IsNode store.now root }
    requires sizes { store.now.sizes ≡ sizes_of m.now }
    ensures { IfOk result (λ left. turned left
        ≡ left_after (suc root) (next_nodes store.now (length m.now.vars)) [] root) }
{
    let mut marks = List::filled(alloc, store.node_count(), false)?;
    let mut left = Nodes::new(alloc);
    leave(m, store, root, &mut marks, &mut left)?;
    Ok(left)
}
