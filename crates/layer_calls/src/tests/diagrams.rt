// The lamp's machine: its diagram and its graphs, each by a call of its own, against what is worked
// out by hand. The variables are `press` and `s`, the results `go`, `to s` and `out light`, numbered
// 0 to 4.
ghost use Rattle.std.specs.Prelude.{◌≡◌, IfOk, OnOk, IsTrue};
ghost use Rattle.domains.specs.Tables.{fits};
ghost use Rattle.transition_table.specs.Orders.{Allowed, sizes_of};
ghost use Rattle.transition_table.specs.samples.Lamp.{lamp_machine as the_lamp};
ghost use Rattle.transition_table.specs.Transitions.{IsDeterministic};
ghost use Rattle.decision_diagram.specs.Diagrams.{IsNode};
ghost use Rattle.sgraph.specs.Walks.{FitsMachine};

use char_function::{characteristic, supports};
use decision_diagram::{NodeId, Order, Root, Store};
use domains::Codes;
use order_sift::{Sifted, sift};
use polis_base::{NoMemory, SmallSet};
use sample_networks::lamp::deterministic_machine;
use sgraph::{Graph, build, evaluate};
use sgraph_opt::{drop_defaults, share};
use std::alloc::Global;
use std::test::Fail;
use transition_table::{Machine, Outcome, Snapshot};

// Variables and results, each with the set of its codes. The lamp goes on where it is pressed
// while it is off.
const FIRES: &[(u32, u64)] = &[(0, 2), (1, 1), (2, 2), (3, 4), (4, 2)];

// No result has a code but 0.
const BLANK: &[(u32, u64)] = &[(2, 1), (3, 1), (4, 1)];

// How many results of the lamp have a support.
fn count_supports(alloc: Global) -> Result<u64, NoMemory> {
    let m = deterministic_machine(alloc)?;
    let supports = supports(alloc, &m)?;
    Ok(supports.len())
}

#[test]
fn each_result_has_a_support(rt: HostRuntime) -> Result<(), Fail> {
    assert!(rt; count_supports(rt.alloc())? == 3);
    Ok(())
}

// What sifting makes of a machine: an order in which each result stands after what it depends on.
fn sifted(alloc: Global, m: &Machine) -> Result<Sifted, NoMemory>
    requires { IsDeterministic m.now }
    ensures { IfOk result (λ sifted. Allowed m.now sifted.order) }
{
    let sifted = sift(alloc, m)?;
    Ok(sifted)
}

// The diagram of a machine under an order.
fn root_under(alloc: Global, m: &Machine, order: &Order) -> Result<Root, NoMemory>
    requires sure { IsDeterministic m.now }
    requires allowed { Allowed m.now order.now }
    ensures { IfOk result (λ root. root.store.sizes ≡ sizes_of m.now) }
{
    let root = characteristic(alloc, m, order)?;
    Ok(root)
}

// The node that is true where an item's code is in a set.
fn literal(store: &mut Store, item: u32, codes: u64) -> Result<NodeId, NoMemory>
    requires { store.old.sizes ≡ sizes_of the_lamp }
    ensures { OnOk result (store.new.sizes ≡ sizes_of the_lamp) }
{
    if item == 3 && codes < 8 {
        return store.literal(3, SmallSet::of_bits(codes));
    }
    if item < 5 && codes < 4 {
        return store.literal(item, SmallSet::of_bits(codes));
    }
    Err(NoMemory)
}

fn is_node(store: &Store, n: NodeId) -> bool
    ensures { IsTrue result → IsNode store.now n }
{
    n.number() < store.node_count()
}

fn both(store: &mut Store, a: NodeId, b: NodeId) -> Result<NodeId, NoMemory>
    requires { store.old.sizes ≡ sizes_of the_lamp }
    ensures { OnOk result (store.new.sizes ≡ sizes_of the_lamp) }
{
    if is_node(store, a) && is_node(store, b) {
        return store.and(a, b);
    }
    Err(NoMemory)
}

fn either(store: &mut Store, a: NodeId, b: NodeId) -> Result<NodeId, NoMemory>
    requires { store.old.sizes ≡ sizes_of the_lamp }
    ensures { OnOk result (store.new.sizes ≡ sizes_of the_lamp) }
{
    if is_node(store, a) && is_node(store, b) {
        return store.or(a, b);
    }
    Err(NoMemory)
}

// The node that is true where the code of each of these items is in its set.
fn all_of(store: &mut Store, items: &[(u32, u64)]) -> Result<NodeId, NoMemory>
    requires { store.old.sizes ≡ sizes_of the_lamp }
    ensures { OnOk result (store.new.sizes ≡ sizes_of the_lamp) }
{
    let mut node = store.constant(true);
    for (item, codes) in items {
        let one = literal(store, *item, *codes)?;
        node = both(store, node, one)?;
    }
    Ok(node)
}

// The node that is true where the lamp isn't pressed or is on, and no result has a code but 0.
fn idles(store: &mut Store) -> Result<NodeId, NoMemory>
    requires { store.old.sizes ≡ sizes_of the_lamp }
    ensures { OnOk result (store.new.sizes ≡ sizes_of the_lamp) }
{
    let unpressed = literal(store, 0, 1)?;
    let on = literal(store, 1, 2)?;
    let idle = either(store, unpressed, on)?;
    let blank = all_of(store, BLANK)?;
    both(store, idle, blank)
}

// The node that is true where the results are those of the variables.
fn reacts(store: &mut Store) -> Result<NodeId, NoMemory>
    requires { store.old.sizes ≡ sizes_of the_lamp }
    ensures { OnOk result (store.new.sizes ≡ sizes_of the_lamp) }
{
    let fires = all_of(store, FIRES)?;
    let idles = idles(store)?;
    either(store, fires, idles)
}

// The root's value on these codes.
fn value_on(alloc: Global, root: &Root, codes: &[u8]) -> Result<bool, NoMemory>
    requires sizes { root.now.store.sizes ≡ sizes_of the_lamp }
    requires codes { IsTrue (fits (sizes_of the_lamp) codes.now) }
{
    let codes = Codes::from_slice(alloc, codes)?;
    if is_node(&root.store, root.node) {
        return Ok(root.store.value(root.node, &codes));
    }
    Err(NoMemory)
}

// The root's values where the lamp is pressed while it is off and goes on, with the light and
// without it.
fn values_of(alloc: Global, root: &Root) -> Result<(bool, bool), NoMemory>
    requires { root.now.store.sizes ≡ sizes_of the_lamp }
{
    let lit = value_on(alloc, root, &[1, 0, 1, 2, 1])?;
    let dark = value_on(alloc, root, &[1, 0, 1, 2, 0])?;
    Ok((lit, dark))
}

// Whether the formula's node is the root.
fn is_formula(root: &mut Root) -> Result<bool, NoMemory>
    requires { root.old.store.sizes ≡ sizes_of the_lamp }
{
    let node = reacts(&mut root.store)?;
    Ok(node == root.node)
}

// What is seen of the lamp's diagram: whether it is true with the light and without it, and whether
// it is the formula's.
#[derive(Clone, Copy)]
struct Seen {
    lit: bool,
    dark: bool,
    is_formula: bool,
}

fn see_root(alloc: Global, root: &mut Root) -> Result<Seen, NoMemory>
    requires { root.old.store.sizes ≡ sizes_of the_lamp }
{
    let (lit, dark) = values_of(alloc, root)?;
    let is_formula = is_formula(root)?;
    Ok(Seen {
        lit,
        dark,
        is_formula,
    })
}

fn see_machine(alloc: Global, m: &Machine) -> Result<Seen, NoMemory>
    requires machine { m.now ≡ the_lamp }
    requires sure { IsDeterministic m.now }
{
    let sifted = sifted(alloc, m)?;
    let mut root = root_under(alloc, m, &sifted.order)?;
    see_root(alloc, &mut root)
}

fn see_lamp(alloc: Global) -> Result<Seen, NoMemory> {
    let m = deterministic_machine(alloc)?;
    see_machine(alloc, &m)
}

#[test]
fn the_diagram_is_the_one_of_the_formula(rt: HostRuntime) -> Result<(), Fail> {
    let seen = see_lamp(rt.alloc())?;
    assert!(rt; seen.lit && !seen.dark);
    assert!(rt; seen.is_formula);
    Ok(())
}

// The graph of the diagram under an order.
fn graph_under(alloc: Global, m: &Machine, order: &Order) -> Result<Graph, NoMemory>
    requires sure { IsDeterministic m.now }
    requires allowed { Allowed m.now order.now }
    ensures { IfOk result (λ g. FitsMachine m.now g) }
{
    let root = characteristic(alloc, m, order)?;
    let graph = build(alloc, m, &root, order)?;
    Ok(graph)
}

// The graph without assignments of 0, and then with equal vertices as one.
fn made_small(alloc: Global, m: &Machine, graph: &Graph) -> Result<Graph, NoMemory>
    requires { FitsMachine m.now graph.now }
    ensures { IfOk result (λ small. FitsMachine m.now small) }
{
    let without = drop_defaults(alloc, graph)?;
    let small = share(alloc, &without)?;
    Ok(small)
}

// The graph under the sifted order.
fn sifted_graph(alloc: Global, m: &Machine) -> Result<Graph, NoMemory>
    requires { IsDeterministic m.now }
    ensures { IfOk result (λ g. FitsMachine m.now g) }
{
    let sifted = sifted(alloc, m)?;
    let graph = graph_under(alloc, m, &sifted.order)?;
    Ok(graph)
}

// The small graph under the sifted order.
fn small_graph(alloc: Global, m: &Machine) -> Result<Graph, NoMemory>
    requires { IsDeterministic m.now }
    ensures { IfOk result (λ g. FitsMachine m.now g) }
{
    let graph = sifted_graph(alloc, m)?;
    let small = made_small(alloc, m, &graph)?;
    Ok(small)
}

// What the graph makes of a press while the lamp is off.
fn pressed(alloc: Global, m: &Machine, g: &Graph) -> Result<Outcome, NoMemory>
    requires machine { m.now ≡ the_lamp }
    requires graph { FitsMachine m.now g.now }
{
    let snapshot = Snapshot {
        codes: Codes::from_slice(alloc, &[1, 0])?,
    };
    let mut outcome = m.blank(alloc)?;
    evaluate(g, &snapshot, &mut outcome);
    Ok(outcome)
}

// Whether the machine fires, its state goes to `on`, and it emits `light`.
fn is_lit(outcome: &Outcome) -> bool {
    outcome.fires
        && outcome.next.as_slice() == [2].as_slice()
        && outcome.outs.as_slice() == [1].as_slice()
}

// How long the graph is, and whether that press turns the lamp on.
fn press_graph(alloc: Global, m: &Machine, g: &Graph) -> Result<(u64, bool), NoMemory>
    requires machine { m.now ≡ the_lamp }
    requires graph { FitsMachine m.now g.now }
{
    let outcome = pressed(alloc, m, g)?;
    Ok((g.len(), is_lit(&outcome)))
}

// The same of the small graph.
fn press_machine(alloc: Global, m: &Machine) -> Result<(u64, bool), NoMemory>
    requires machine { m.now ≡ the_lamp }
    requires sure { IsDeterministic m.now }
{
    let small = small_graph(alloc, m)?;
    press_graph(alloc, m, &small)
}

fn press_lamp(alloc: Global) -> Result<(u64, bool), NoMemory> {
    let m = deterministic_machine(alloc)?;
    press_machine(alloc, &m)
}

#[test]
fn graphs_are_made_small_step_by_step(rt: HostRuntime) -> Result<(), Fail> {
    let (vertices, is_lit) = press_lamp(rt.alloc())?;
    assert!(rt; vertices == 7);
    assert!(rt; is_lit);
    Ok(())
}
