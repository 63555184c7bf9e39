// The diagram of a machine's characteristic function.
ghost use Rattle.std.specs.Prelude.{◌≡◌, ◌≤◌, ℕ, length, IfOk, IsTrue};
ghost use Rattle.polis_base.specs.Lists.{upto};
ghost use Rattle.transition_table.specs.Transitions.{IsDeterministic};
ghost use Rattle.transition_table.specs.Computed.{all_supports, char};
ghost use Rattle.transition_table.specs.Orders.{sizes_of};
ghost use Rattle.decision_diagram.specs.Diagrams.{IsNode, Keeps, Means, level_of, value_of};
ghost use Rattle.decision_diagram.specs.Reached.{CountsReached};
ghost use Rattle.outcome_table.specs.Outcomes.{IsTableOf};
ghost use Rattle.char_function.specs.Sizes.{Decides, IsSize};
ghost use Rattle.char_function.specs.inner.Points.{points};
ghost use Rattle.char_function.specs.inner.Groups.{some_agrees, is_group};
ghost use Rattle.char_function.specs.inner.Known.{AreKnown, IsMaking};
ghost use Rattle.char_function.specs.inner.Left.{IsOver};
ghost use Rattle.char_function.specs.Roots.{IsDiagramOf};

use crate::allowed::is_allowed;
use crate::fixing::fixed_root;
use crate::group::parts_of;
use crate::known::{Known, after_variables, keep_node, known_node, none_known};
use crate::support::supports_in;
use crate::support_lists::Supports;
use decision_diagram::{NodeId, Order, Root, Store};
use domains::VarTable;
use outcome_table::{Table, table_of};
use polis_base::{List, NoMemory};
use std::alloc::Global;
use transition_table::Machine;

// What diagrams of groups of snapshots are made of.
#[derive(Clone, Copy)]
struct Making<'a> {
    alloc: Global,
    machine: &'a Machine,
    table: &'a Table,
    order: &'a Order,
    sizes: &'a VarTable,
    // the place after the order's last variable
    start: u64,
}

// The node that is true where a snapshot of the group, with its results, has the codes of what the
// order has from a place on. Nothing is made that isn't kept.
fn build(
    making: &Making,
    store: &mut Store,
    known: &mut Known,
    place: u64,
    group: &[u64],
) -> Result<NodeId, NoMemory>
    requires place { place ≤ length store.old.order }
    requires making { IsMaking making.now.machine.now making.now.table.now making.now.order.now
        making.now.sizes.now making.now.start store.old }
    requires known { AreKnown store.old (length making.now.machine.now.vars) making.now.start
        making.now.table.now.outcomes known.old }
    requires group { IsTrue (is_group (points making.now.machine.now) group.now) }
    ensures kept { Keeps store.old store.new }
    ensures value { IfOk result
        (λ n. Means store.new n
        (some_agrees (points making.now.machine.now) store.old.order place group.now)) }
    ensures level { IfOk result (λ n. place ≤ level_of store.new n) }
    ensures known { IfOk result
        (λ n. AreKnown store.new (length making.now.machine.now.vars) making.now.start
        making.now.table.now.outcomes known.new) }
{
    let (machine, table, start) = (making.machine, making.table, making.start);
    if group.len() == 0 {
        return Ok(store.constant(false));
    }
    if place == making.order.len() {
        return Ok(store.constant(true));
    }
    if place == start {
        if let Some(node) = known_node(machine, table, store, known, start, group) {
            return Ok(node);
        }
    }
    store.same_value_same_node();
    let item = *making.order.get(place);
    let size = *making.sizes.get(u64::from(item));
    let parts = parts_of(making.alloc, machine, table, item, size, group)?;
    let mut kids = Vec::new(making.alloc);
    for part in &parts {
        kids.push(build(making, store, known, place + 1, part.as_slice())?)?;
    }
    let node = store.node(item, &kids)?;
    if place == start {
        keep_node(machine, table, store, known, start, group, node);
    }
    Ok(node)
}

// The sizes of a machine's variables and then of its results.
fn all_sizes(alloc: Global, m: &Machine) -> Result<VarTable, NoMemory>
    ensures { IfOk result (λ sizes. sizes ≡ sizes_of m.now) }
{
    let mut sizes = VarTable::new(alloc);
    for v in 0..m.vars.len() {
        sizes.push(*m.vars.get(v))?;
    }
    for y in 0..m.results.len() {
        sizes.push(*m.results.get(y))?;
    }
    Ok(sizes)
}

// The numbers below a bound.
fn numbers_below(alloc: Global, bound: u64) -> Result<List<u64>, NoMemory>
    ensures { IfOk result (λ list. list ≡ upto bound) }
{
    let mut list = List::new(alloc);
    for i in 0..bound {
        list.push(i)?;
    }
    Ok(list)
}

// The node of a machine's characteristic function under any order, from groups of snapshots.
fn grouped_root(
    alloc: Global,
    m: &Machine,
    table: &Table,
    order: &Order,
    sizes: &VarTable,
    store: &mut Store,
) -> Result<NodeId, NoMemory>
    requires table { IsTableOf m.now table.now }
    requires long { length order.now ≡ length (sizes_of m.now) }
    requires all_sizes { sizes.now ≡ sizes_of m.now }
    requires store { IsOver order.now sizes.now store.old }
    ensures kept { Keeps store.old store.new }
    ensures value { IfOk result (λ n. Means store.new n (char m.now)) }
{
    transition_table::laws_of_computing();
    store.same_value_same_node();
    let group = numbers_below(alloc, table.numbers.len())?;
    let start = after_variables(m, order);
    let mut known = none_known(alloc, m, table, store, start)?;
    let making = Making {
        alloc,
        machine: m,
        table,
        order,
        sizes,
        start,
    };
    let node = build(&making, store, &mut known, 0, group.as_slice())?;
    Ok(node)
}

// The node of a machine's characteristic function.
fn root_of(
    alloc: Global,
    m: &Machine,
    table: &Table,
    s: &Supports,
    order: &Order,
    sizes: &VarTable,
    store: &mut Store,
) -> Result<NodeId, NoMemory>
    requires sure { IsDeterministic m.now }
    requires table { IsTableOf m.now table.now }
    requires supports { s.now ≡ all_supports m.now }
    requires long { length order.now ≡ length (sizes_of m.now) }
    requires all_sizes { sizes.now ≡ sizes_of m.now }
    requires store { IsOver order.now sizes.now store.old }
    ensures kept { Keeps store.old store.new }
    ensures value { IfOk result (λ n. Means store.new n (char m.now)) }
{
    transition_table::laws_of_computing();
    if is_allowed(s, order) {
        let node = fixed_root(alloc, m, table, order, sizes, store)?;
        return Ok(node);
    }
    let node = grouped_root(alloc, m, table, order, sizes, store)?;
    Ok(node)
}

// The diagram of a machine's characteristic function, given the sizes of what it reads.
fn diagram_over(
    alloc: Global,
    m: &Machine,
    table: &Table,
    s: &Supports,
    order: &Order,
    sizes: &VarTable,
) -> Result<Root, NoMemory>
    requires sure { IsDeterministic m.now }
    requires table { IsTableOf m.now table.now }
    requires supports { s.now ≡ all_supports m.now }
    requires order { length order.now ≡ length (sizes_of m.now) }
    requires all_sizes { sizes.now ≡ sizes_of m.now }
    ensures { IfOk result (λ root. IsDiagramOf m.now order.now root.store root.node) }
{
    transition_table::laws_of_computing();
    decision_diagram::laws();
    let mut store = Store::new(alloc, sizes, order)?;
    let node = root_of(alloc, m, table, s, order, sizes, &mut store)?;
    store.same_value_same_node();
    Ok(Root { store, node })
}

/// The diagram of a machine's characteristic function, over the machine's variables and then its
/// results, read in an order, from a table of the outcomes and the supports. Where each result
/// stands after its support this takes at most one step for each way to fix the variables before a
/// place.
pub fn diagram(
    alloc: Global,
    m: &Machine,
    table: &Table,
    s: &Supports,
    order: &Order,
) -> Result<Root, NoMemory>
    requires sure { IsDeterministic m.now }
    requires table { IsTableOf m.now table.now }
    requires supports { s.now ≡ all_supports m.now }
    requires order { length order.now ≡ length (sizes_of m.now) }
    ensures { IfOk result (λ root. IsDiagramOf m.now order.now root.store root.node) }
{
    let sizes = all_sizes(alloc, m)?;
    let root = diagram_over(alloc, m, table, s, order, &sizes)?;
    Ok(root)
}

/// The node that is true for exactly the pairs of a snapshot and the codes of the machine's result
/// on it, over the machine's variables and then its results, read in an order. The clause `size`
/// says what the root's count is: the number of different functions that arise by fixing what
/// stands before a place of the order and that depend on what stands there, over all places. Both
/// speak of the relation between a snapshot and its results, and `laws` says that the function by
/// computation decides it.
pub fn characteristic(alloc: Global, m: &Machine, order: &Order) -> Result<Root, NoMemory>
    requires sure { IsDeterministic m.now }
    requires order { length order.now ≡ length (sizes_of m.now) }
    ensures sizes { IfOk result (λ root. root.store.sizes ≡ sizes_of m.now) }
    ensures order { IfOk result (λ root. root.store.order ≡ order.now) }
    ensures node { IfOk result (λ root. IsNode root.store root.node) }
    ensures char { IfOk result (λ root. Decides (value_of root.store root.node) m.now) }
    ensures size { IfOk result (λ root. (count : ℕ) → CountsReached root.store root.node count
        → IsSize m.now order.now count) }
{
    let table = table_of(alloc, m)?;
    let s = supports_in(alloc, m, &table)?;
    let root = diagram(alloc, m, &table, &s, order)?;
    Ok(root)
}
