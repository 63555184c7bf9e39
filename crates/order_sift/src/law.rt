// Laws of the definitions.
ghost use Rattle.std.specs.Prelude.{◌+◌, ◌≤◌, length, IsTrue};
ghost use Rattle.domains.specs.Tables.{are_sizes};
ghost use Rattle.transition_table.specs.Orders.{sizes_of};
ghost use Rattle.order_sift.specs.inner.Below.{Below, BelowOrders};
ghost use Rattle.order_sift.specs.Laws.{LevelsOfSets, LevelsJoin, LevelsAfter, SizeWithItem, OneLast, OneSifted};

use transition_table::Machine;

/// What follows from the definitions: what a single move costs, by sets, and that sifting comes to
/// one order.
pub fn laws()
    ensures levels_of_sets { LevelsOfSets }
    ensures levels_join { LevelsJoin }
    ensures levels_after { LevelsAfter }
    ensures size_with_item { SizeWithItem }
    ensures one_last { OneLast }
    ensures one_sifted { OneSifted }
{
    decision_diagram::laws();
}

/// The laws of the crates below that levels rest on.
pub(crate) fn laws_below()
    ensures { Below }
{
    domains::laws();
    domains::laws_of_all_codes();
    transition_table::laws_of_computing();
}

/// The laws of the crates below that orders and their levels rest on, and what is known of a
/// machine's sizes.
pub(crate) fn laws_of_levels(m: &Machine)
    ensures laws { BelowOrders }
    ensures sizes { IsTrue (are_sizes (sizes_of m.now)) }
    ensures few { length m.now.vars + length m.now.results ≤ 49 }
{
    domains::laws_of_orders();
    transition_table::laws_of_computing();
    decision_diagram::laws();
    let _ = m.vars.len();
    let _ = m.results.len();
    let _ = m.var_count();
    let _ = m.result_count();
}
