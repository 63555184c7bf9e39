// The diagram of a machine's characteristic function under an allowed order.
//
// The snapshots that share the codes of the variables before a place stand for one node, and the
// first of them stands for all: each result before the place has one code on them.
ghost use Rattle.std.specs.Prelude.{◌≡◌, ◌<◌, ◌≤◌, ◌==◌, ◌&&◌, ◌^◌, length, drop, replicate, slice_index, IfOk, IfSome};
ghost use Rattle.domains.specs.Orders.{place};
ghost use Rattle.domains.specs.Tables.{product};
ghost use Rattle.decision_diagram.specs.Diagrams.{IsNode, Keeps, Means, level_of, value_of};
ghost use Rattle.transition_table.specs.Computed.{char};
ghost use Rattle.transition_table.specs.Orders.{sizes_of};
ghost use Rattle.outcome_table.specs.Outcomes.{IsTableOf};
ghost use Rattle.char_function.specs.inner.Left.{AreLeft, AreStrides, IsFirstOf, IsFixing, IsOrdered, IsOver, IsStoreOf, left_from};
ghost use Rattle.char_function.specs.inner.Points.{points};

use crate::group::code_at;
use crate::known::{Known, after_variables};
use crate::levels::rising_root;
use crate::rising::is_rising;
use decision_diagram::{NodeId, Order, Store};
use domains::VarTable;
use outcome_table::{Table, lists_from};
use polis_base::{List, NoMemory};
use std::alloc::Global;
use transition_table::Machine;

// The most codes that a variable or result has.
const CODES: usize = 33;

/// What nodes are made of.
#[derive(Clone, Copy)]
pub(crate) struct Fixing<'a> {
    pub(crate) machine: &'a Machine,
    pub(crate) table: &'a Table,
    pub(crate) order: &'a Order,
    pub(crate) sizes: &'a VarTable,
    /// For each variable how far apart two snapshots are whose codes of it follow each other.
    pub(crate) strides: &'a List<u64>,
    /// The place after the order's last variable.
    pub(crate) start: u64,
}

// The same node for each code.
fn same_kids(node: NodeId) -> [NodeId; CODES]
    ensures { result ≡ replicate 33 node }
{
    [node; CODES]
}

/// The node that is false but at one code of a result, where it is the kid.
pub(crate) fn result_node(
    store: &mut Store,
    item: u32,
    size: u8,
    code: u8,
    kid: NodeId,
) -> Result<NodeId, NoMemory>
    requires size { size ≡ slice_index store.old.sizes item }
    requires few { size ≤ 33 }
    requires code { code < size }
    requires kid { IsNode store.old kid }
    requires later { place store.old.order item < level_of store.old kid }
    ensures kept { Keeps store.old store.new }
    ensures value { IfOk result (λ n.
        Means store.new n (λ codes. slice_index codes item == code && value_of store.old kid
        codes)) }
    ensures level { IfOk result (λ n. place store.old.order item ≤ level_of store.new n) }
{
    store.same_value_same_node();
    let none = store.constant(false);
    let mut kids = same_kids(none);
    kids[usize::from(code)] = kid;
    let node = store.node(item, &kids[..usize::from(size)])?;
    Ok(node)
}

// The node of what is left after the order's last variable.
fn results_node(fixing: &Fixing, store: &mut Store, i: u64) -> Result<NodeId, NoMemory>
    requires fixing { IsFixing fixing.now.machine.now fixing.now.table.now fixing.now.order.now
        fixing.now.sizes.now fixing.now.strides.now fixing.now.start }
    requires store { IsOver fixing.now.order.now fixing.now.sizes.now store.old }
    requires snapshot { i < length (points fixing.now.machine.now) }
    ensures kept { Keeps store.old store.new }
    ensures value { IfOk result (λ n. Means store.new n
        (left_from fixing.now.machine.now fixing.now.order.now fixing.now.start i)) }
    ensures level { IfOk result (λ n. fixing.now.start ≤ level_of store.new n) }
{
    transition_table::laws_of_computing();
    store.same_value_same_node();
    let mut node = store.constant(true);
    let mut place = fixing.order.len();
    while place > fixing.start {
        place -= 1;
        let item = *fixing.order.get(place);
        let size = *fixing.sizes.get(u64::from(item));
        let code = code_at(fixing.machine, fixing.table, item, i);
        node = result_node(store, item, size, code, node)?;
    }
    Ok(node)
}

/// The node of what is left after the order's last variable, where it is known for the outcome.
pub(crate) fn known_outcome(fixing: &Fixing, store: &Store, known: &Known, i: u64) -> Option<NodeId>
    requires fixing { IsFixing fixing.now.machine.now fixing.now.table.now fixing.now.order.now
        fixing.now.sizes.now fixing.now.strides.now fixing.now.start }
    requires order { store.now.order ≡ fixing.now.order.now }
    requires known { AreLeft fixing.now.machine.now fixing.now.table.now store.now fixing.now.start
        known.now }
    requires snapshot { i < length (points fixing.now.machine.now) }
    ensures value { IfSome result (λ n. Means store.now n
        (left_from fixing.now.machine.now fixing.now.order.now fixing.now.start i)) }
    ensures level { IfSome result (λ n. fixing.now.start ≤ level_of store.now n) }
{
    transition_table::laws_of_computing();
    *known.get(*fixing.table.numbers.get(i))
}

/// The same node, made and then known for the outcome.
pub(crate) fn make_outcome(
    fixing: &Fixing,
    store: &mut Store,
    known: &mut Known,
    i: u64,
) -> Result<NodeId, NoMemory>
    requires fixing { IsFixing fixing.now.machine.now fixing.now.table.now fixing.now.order.now
        fixing.now.sizes.now fixing.now.strides.now fixing.now.start }
    requires store { IsStoreOf fixing.now.machine.now fixing.now.table.now fixing.now.order.now
        fixing.now.sizes.now fixing.now.start store.old known.old }
    requires snapshot { i < length (points fixing.now.machine.now) }
    ensures kept { Keeps store.old store.new }
    ensures value { IfOk result (λ n. Means store.new n
        (left_from fixing.now.machine.now fixing.now.order.now fixing.now.start i)) }
    ensures level { IfOk result (λ n. fixing.now.start ≤ level_of store.new n) }
    ensures known { IfOk result (λ n.
        AreLeft fixing.now.machine.now fixing.now.table.now store.new fixing.now.start known.new) }
{
    transition_table::laws_of_computing();
    let number = *fixing.table.numbers.get(i);
    let node = results_node(fixing, store, i)?;
    known.set(number, Some(node));
    Ok(node)
}

// The same node, made once for each outcome.
fn outcome_node(
    fixing: &Fixing,
    store: &mut Store,
    known: &mut Known,
    i: u64,
) -> Result<NodeId, NoMemory>
    requires fixing { IsFixing fixing.now.machine.now fixing.now.table.now fixing.now.order.now
        fixing.now.sizes.now fixing.now.strides.now fixing.now.start }
    requires store { IsStoreOf fixing.now.machine.now fixing.now.table.now fixing.now.order.now
        fixing.now.sizes.now fixing.now.start store.old known.old }
    requires snapshot { i < length (points fixing.now.machine.now) }
    ensures kept { Keeps store.old store.new }
    ensures value { IfOk result (λ n. Means store.new n
        (left_from fixing.now.machine.now fixing.now.order.now fixing.now.start i)) }
    ensures level { IfOk result (λ n. fixing.now.start ≤ level_of store.new n) }
    ensures known { IfOk result (λ n.
        AreLeft fixing.now.machine.now fixing.now.table.now store.new fixing.now.start known.new) }
{
    if let Some(node) = known_outcome(fixing, store, known, i) {
        return Ok(node);
    }
    let node = make_outcome(fixing, store, known, i)?;
    Ok(node)
}

// The node of what is left from a place on, where the codes before it are those of a snapshot.
fn fixed_node(
    fixing: &Fixing,
    store: &mut Store,
    known: &mut Known,
    place: u64,
    i: u64,
) -> Result<NodeId, NoMemory>
    requires place { place ≤ fixing.now.start }
    requires fixing { IsFixing fixing.now.machine.now fixing.now.table.now fixing.now.order.now
        fixing.now.sizes.now fixing.now.strides.now fixing.now.start }
    requires store { IsStoreOf fixing.now.machine.now fixing.now.table.now fixing.now.order.now
        fixing.now.sizes.now fixing.now.start store.old known.old }
    requires first { IsFirstOf fixing.now.machine.now fixing.now.order.now place i }
    ensures kept { Keeps store.old store.new }
    ensures value { IfOk result (λ n. Means store.new n
        (left_from fixing.now.machine.now fixing.now.order.now place i)) }
    ensures level { IfOk result (λ n. place ≤ level_of store.new n) }
    ensures known { IfOk result (λ n.
        AreLeft fixing.now.machine.now fixing.now.table.now store.new fixing.now.start known.new) }
{
    if place == fixing.start {
        let node = outcome_node(fixing, store, known, i)?;
        return Ok(node);
    }
    transition_table::laws_of_computing();
    domains::laws_of_all_codes();
    store.same_value_same_node();
    let item = *fixing.order.get(place);
    let size = *fixing.sizes.get(u64::from(item));
    if u64::from(item) >= fixing.machine.vars.len() {
        let code = code_at(fixing.machine, fixing.table, item, i);
        let kid = fixed_node(fixing, store, known, place + 1, i)?;
        let node = result_node(store, item, size, code, kid)?;
        return Ok(node);
    }
    let stride = *fixing.strides.get(u64::from(item));
    let none = store.constant(false);
    let mut kids = same_kids(none);
    for code in 0..size {
        let first = i + u64::from(code) * stride;
        let kid = fixed_node(fixing, store, known, place + 1, first)?;
        kids[usize::from(code)] = kid;
    }
    let node = store.node(item, &kids[..usize::from(size)])?;
    Ok(node)
}

// How far apart two snapshots are whose codes of a variable follow each other, for each variable.
fn strides_of(alloc: Global, m: &Machine) -> Result<List<u64>, NoMemory>
    ensures { IfOk result (AreStrides m.now.vars) }
{
    let vars = u64::from(m.var_count());
    let mut strides = List::new(alloc);
    for v in 0..vars {
        strides.push(lists_from(&m.vars, v + 1))?;
    }
    Ok(strides)
}

/// The node of a machine's characteristic function under an order in which each result stands after
/// its support.
pub(crate) fn fixed_root(
    alloc: Global,
    m: &Machine,
    table: &Table,
    order: &Order,
    sizes: &VarTable,
    store: &mut Store,
) -> Result<NodeId, NoMemory>
    requires table { IsTableOf m.now table.now }
    requires ordered { IsOrdered m.now order.now }
    requires all_sizes { sizes.now ≡ sizes_of m.now }
    requires store { IsOver order.now sizes.now store.old }
    ensures kept { Keeps store.old store.new }
    ensures value { IfOk result (λ n. Means store.new n (char m.now)) }
{
    transition_table::laws_of_computing();
    let _ = m.var_count();
    let strides = strides_of(alloc, m)?;
    let start = after_variables(m, order);
    let mut known = Known::filled(alloc, table.outcomes.len(), None)?;
    let fixing = Fixing {
        machine: m,
        table,
        order,
        sizes,
        strides: &strides,
        start,
    };
    if is_rising(order, m.vars.len()) {
        let node = rising_root(alloc, &fixing, store, &mut known)?;
        return Ok(node);
    }
    let node = fixed_node(&fixing, store, &mut known, 0, 0)?;
    Ok(node)
}
