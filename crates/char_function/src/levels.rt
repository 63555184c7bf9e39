// The diagram under an allowed order in which the variables stand by rising numbers, made level by
// level from the last one.
//
// The snapshots that share the codes of the variables before a place follow each other, and for
// each such block of them a level has one node. So the children of a variable's node stand next to
// each other in the level after it.
ghost use Rattle.std.specs.Prelude.{◌≡◌, ◌+◌, ◌*◌, ◌<◌, ◌≤◌, length, slice_index, IfOk, OnOk};
ghost use Rattle.decision_diagram.specs.Diagrams.{Keeps, Means};
ghost use Rattle.char_function.specs.inner.Left.{AreLeft, IsFixing, IsOver, left_from};
ghost use Rattle.char_function.specs.inner.Rising.{AreLevel, IsRising};

use crate::fixing::{Fixing, known_outcome, make_outcome, result_node};
use crate::group::code_at;
use crate::known::Known;
use decision_diagram::{NodeId, Store};
use polis_base::NoMemory;
use std::alloc::Global;

// The level after the last variable: a node for each snapshot.
fn last_level(
    alloc: Global,
    fixing: &Fixing,
    store: &mut Store,
    known: &mut Known,
) -> Result<Vec<NodeId>, NoMemory>
    requires fixing { IsFixing fixing.now.machine.now fixing.now.table.now fixing.now.order.now
        fixing.now.sizes.now fixing.now.strides.now fixing.now.start }
    requires store { IsOver fixing.now.order.now fixing.now.sizes.now store.old }
    requires known { AreLeft fixing.now.machine.now fixing.now.table.now store.old fixing.now.start
        known.old }
    ensures kept { Keeps store.old store.new }
    ensures level { IfOk result (λ nodes. AreLevel fixing.now.machine.now fixing.now.order.now
        store.new fixing.now.start 1 nodes.items) }
{
    let count = fixing.table.numbers.len();
    let mut nodes = Vec::with_capacity(alloc, count as usize)?;
    for i in 0..count {
        if let Some(node) = known_outcome(fixing, store, known, i) {
            nodes.push(node)?;
            continue;
        }
        let node = make_outcome(fixing, store, known, i)?;
        nodes.push(node)?;
    }
    Ok(nodes)
}

// The level of a variable from the level after it.
fn variable_level(
    fixing: &Fixing,
    store: &mut Store,
    nodes: &mut Vec<NodeId>,
    place: u64,
    block: u64,
) -> Result<(), NoMemory>
    requires fixing { IsFixing fixing.now.machine.now fixing.now.table.now fixing.now.order.now
        fixing.now.sizes.now fixing.now.strides.now fixing.now.start }
    requires store { IsOver fixing.now.order.now fixing.now.sizes.now store.old }
    requires rising { IsRising (length fixing.now.machine.now.vars) fixing.now.order.now }
    requires place { place < length fixing.now.order.now }
    requires item { slice_index fixing.now.order.now place < length fixing.now.machine.now.vars }
    requires level { AreLevel fixing.now.machine.now fixing.now.order.now store.old (place + 1)
        block nodes.old.items }
    ensures kept { Keeps store.old store.new }
    ensures level { OnOk result (AreLevel fixing.now.machine.now fixing.now.order.now store.new
        place (slice_index fixing.now.sizes.now (slice_index fixing.now.order.now place) * block)
        nodes.new.items) }
{
    domains::laws_of_all_codes();
    transition_table::laws_of_computing();
    store.same_value_same_node();
    let item = *fixing.order.get(place);
    let size = usize::from(*fixing.sizes.get(u64::from(item)));
    let count = nodes.len() / size;
    for j in 0..count {
        let from = j * size;
        let node = store.node(item, &nodes[from..from + size])?;
        nodes[j] = node;
    }
    nodes.truncate(count);
    Ok(())
}

// The level of a result from the level after it.
fn result_level(
    fixing: &Fixing,
    store: &mut Store,
    nodes: &mut Vec<NodeId>,
    place: u64,
    block: u64,
) -> Result<(), NoMemory>
    requires fixing { IsFixing fixing.now.machine.now fixing.now.table.now fixing.now.order.now
        fixing.now.sizes.now fixing.now.strides.now fixing.now.start }
    requires store { IsOver fixing.now.order.now fixing.now.sizes.now store.old }
    requires place { place < length fixing.now.order.now }
    requires item { length fixing.now.machine.now.vars ≤ slice_index fixing.now.order.now place }
    requires level { AreLevel fixing.now.machine.now fixing.now.order.now store.old (place + 1)
        block nodes.old.items }
    ensures kept { Keeps store.old store.new }
    ensures level { OnOk result (AreLevel fixing.now.machine.now fixing.now.order.now store.new
        place block nodes.new.items) }
{
    transition_table::laws_of_computing();
    store.same_value_same_node();
    let item = *fixing.order.get(place);
    let size = *fixing.sizes.get(u64::from(item));
    for j in 0..nodes.len() {
        let code = code_at(fixing.machine, fixing.table, item, j as u64 * block);
        let node = result_node(store, item, size, code, nodes[j])?;
        nodes[j] = node;
    }
    Ok(())
}

/// The node of what is left where nothing is fixed.
pub(crate) fn rising_root(
    alloc: Global,
    fixing: &Fixing,
    store: &mut Store,
    known: &mut Known,
) -> Result<NodeId, NoMemory>
    requires fixing { IsFixing fixing.now.machine.now fixing.now.table.now fixing.now.order.now
        fixing.now.sizes.now fixing.now.strides.now fixing.now.start }
    requires store { IsOver fixing.now.order.now fixing.now.sizes.now store.old }
    requires rising { IsRising (length fixing.now.machine.now.vars) fixing.now.order.now }
    requires known { AreLeft fixing.now.machine.now fixing.now.table.now store.old fixing.now.start
        known.old }
    ensures kept { Keeps store.old store.new }
    ensures value { IfOk result (λ n. Means store.new n
        (left_from fixing.now.machine.now fixing.now.order.now 0 0)) }
{
    let mut nodes = last_level(alloc, fixing, store, known)?;
    let mut block = 1;
    let mut place = fixing.start;
    while place > 0 {
        place -= 1;
        let item = u64::from(*fixing.order.get(place));
        if item < fixing.machine.vars.len() {
            variable_level(fixing, store, &mut nodes, place, block)?;
            block *= u64::from(*fixing.sizes.get(item));
        } else {
            result_level(fixing, store, &mut nodes, place, block)?;
        }
    }
    Ok(nodes[0])
}
