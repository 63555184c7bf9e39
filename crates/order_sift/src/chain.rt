// Numbers and levels for the prefixes of an order.
ghost use Rattle.std.specs.Prelude.{◌≡◌, ◌+◌, ◌<◌, ◌≤◌, length, IfOk};
ghost use Rattle.polis_base.specs.declared.limits.TheConstants.{SIFTED_SNAPSHOTS_MAX};
ghost use Rattle.domains.specs.Tables.{product};
ghost use Rattle.transition_table.specs.Orders.{Allowed};
ghost use Rattle.transition_table.specs.Transitions.{IsDeterministic};
ghost use Rattle.order_sift.specs.inner.Chains.{AreChain, IsChain};
ghost use Rattle.order_sift.specs.inner.Known.{AreKnown};
ghost use Rattle.order_sift.specs.inner.Pairs.{HasRoom};
ghost use Rattle.order_sift.specs.inner.Points.{AreFewPoints, IsPrepared};
ghost use Rattle.order_sift.specs.inner.Settings.{HasRoomAndSets};

use crate::law::{laws_below, laws_of_levels};
use crate::points::Points;
use crate::sets::{Freed, Known, first_items, freed_after};
use decision_diagram::Order;
use polis_base::{List, NoMemory, Numbers};
use std::alloc::Global;
use transition_table::Machine;

/// What an order leaves of a machine's characteristic function.
#[derive(Drop)]
pub(crate) struct Chain {
    /// At each place t the numbers where all items but the order's last t are fixed.
    pub(crate) classes: List<Numbers>,
    /// At each place t the sum of the levels of the order's last t items.
    pub(crate) backs: List<u64>,
}

// The chain of none of an order's items.
fn empty_chain(alloc: Global, m: &Machine, snapshots: u64, order: &Order) -> Result<Chain, NoMemory>
    requires snapshots { snapshots ≡ product m.now.vars }
    requires sure { IsDeterministic m.now }
    requires allowed { Allowed m.now order.now }
    ensures { IfOk result (λ chain. AreChain m.now order.now 0 chain.classes chain.backs) }
{
    laws_below();
    laws_of_levels(m);
    let whole = Numbers::filled(alloc, snapshots, 0)?;
    let mut classes = List::new(alloc);
    classes.push(whole)?;
    let mut backs = List::new(alloc);
    backs.push(0)?;
    Ok(Chain { classes, backs })
}

// One more of the order's last items, of which the chain has so many.
fn extend(
    m: &Machine,
    points: &Points,
    seen: &mut [u16],
    known: &mut Known,
    order: &Order,
    t: u64,
    chain: &mut Chain,
) -> Result<(), NoMemory>
    requires points { AreFewPoints m.now points.now }
    requires sets { HasRoomAndSets m.now seen.old known.old }
    requires sure { IsDeterministic m.now }
    requires allowed { Allowed m.now order.now }
    requires t { t < length order.now }
    requires chain { AreChain m.now order.now t chain.old.classes chain.old.backs }
    ensures chain { IfOk result (λ done.
        AreChain m.now order.now (t + 1) chain.new.classes chain.new.backs) }
    ensures known { IfOk result (λ done. AreKnown m.now known.new) }
{
    laws_of_levels(m);
    let items = order.len();
    let item = *order.get(items - 1 - t);
    let old = chain.classes.get(t);
    let set = first_items(order, items - 1 - t);
    let Freed { numbers, level } = freed_after(m, points, seen, known, set, old, item)?;
    let last = *chain.backs.get(t);
    chain.classes.push(numbers)?;
    let back = level + last;
    chain.backs.push(back)?;
    Ok(())
}

/// The chain of an order, from its end on.
pub(crate) fn chain_of(
    alloc: Global,
    m: &Machine,
    points: &Points,
    seen: &mut [u16],
    known: &mut Known,
    order: &Order,
) -> Result<Chain, NoMemory>
    requires few { product m.now.vars ≤ SIFTED_SNAPSHOTS_MAX }
    requires prepared { IsPrepared m.now points.now }
    requires room { HasRoom (product m.now.vars) seen.old }
    requires known { AreKnown m.now known.old }
    requires sure { IsDeterministic m.now }
    requires allowed { Allowed m.now order.now }
    ensures chain { IfOk result (IsChain m.now order.now) }
    ensures known { IfOk result (λ chain. AreKnown m.now known.new) }
{
    let mut chain = empty_chain(alloc, m, points.snapshots, order)?;
    for t in 0..order.len() {
        extend(m, points, seen, known, order, t, &mut chain)?;
    }
    Ok(chain)
}
