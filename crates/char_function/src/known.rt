// Nodes of what an order has after the machine's variables, kept for each outcome.
ghost use Rattle.std.specs.Prelude.{◌≡◌, ◌<◌, ◌≤◌, length, IfOk, IfSome, IsTrue};
ghost use Rattle.decision_diagram.specs.Diagrams.{Diagrams, Means, level_of};
ghost use Rattle.outcome_table.specs.Outcomes.{IsTableOf};
ghost use Rattle.char_function.specs.inner.Points.{points};
ghost use Rattle.char_function.specs.inner.Groups.{some_agrees, is_group};
ghost use Rattle.char_function.specs.inner.Known.{OnlyResults, AreKnown};

use decision_diagram::{NodeId, Order, Store};
use outcome_table::Table;
use polis_base::{List, NoMemory};
use std::alloc::Global;
use transition_table::Machine;

/// For each number of an outcome the node of what stands after the variables of an order, where it
/// is known.
pub(crate) type Known = List<Option<NodeId>>;

/// The place after the last variable of an order.
pub(crate) fn after_variables(m: &Machine, order: &Order) -> u64
    ensures results { OnlyResults (length m.now.vars) order.now result }
    ensures within { result ≤ length order.now }
{
    let vars = m.vars.len();
    for place in (0..order.len()).rev() {
        if u64::from(*order.get(place)) < vars {
            return place + 1;
        }
    }
    0
}

/// No node is known yet.
pub(crate) fn none_known(
    alloc: Global,
    m: &Machine,
    table: &Table,
    store: &Store,
    start: u64,
) -> Result<Known, NoMemory>
    ensures { IfOk result (AreKnown store.now (length m.now.vars) start table.now.outcomes) }
{
    let known = Known::filled(alloc, table.outcomes.len(), None)?;
    Ok(known)
}

/// The node of a group of one snapshot after the variables, where it is known for the snapshot's
/// outcome.
pub(crate) fn known_node(
    m: &Machine,
    table: &Table,
    store: &Store,
    known: &Known,
    start: u64,
    group: &[u64],
) -> Option<NodeId>
    requires table { IsTableOf m.now table.now }
    requires start { OnlyResults (length m.now.vars) store.now.order start }
    requires known { AreKnown store.now (length m.now.vars) start table.now.outcomes known.now }
    requires group { IsTrue (is_group (points m.now) group.now) }
    ensures value { IfSome result (λ n.
        Means store.now n (some_agrees (points m.now) store.now.order start group.now)) }
    ensures level { IfSome result (λ n. start ≤ level_of store.now n) }
{
    if group.len() != 1 {
        return None;
    }
    *known.get(*table.numbers.get(group[0]))
}

/// Keeps the node of a group of one snapshot after the variables for the snapshot's outcome.
pub(crate) fn keep_node(
    m: &Machine,
    table: &Table,
    store: &Store,
    known: &mut Known,
    start: u64,
    group: &[u64],
    node: NodeId,
)
    requires table { IsTableOf m.now table.now }
    requires start { OnlyResults (length m.now.vars) store.now.order start }
    requires known { AreKnown store.now (length m.now.vars) start table.now.outcomes known.old }
    requires group { IsTrue (is_group (points m.now) group.now) }
    requires value { Means store.now node
        (some_agrees (points m.now) store.now.order start group.now) }
    requires level { start ≤ level_of store.now node }
    ensures { AreKnown store.now (length m.now.vars) start table.now.outcomes known.new }
{
    if group.len() == 1 {
        known.set(*table.numbers.get(group[0]), Some(node));
    }
}
