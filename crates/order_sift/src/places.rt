// The places to which an item may move.
ghost use Rattle.std.specs.Prelude.{◌≡◌, ◌+◌, ◌<◌, ◌≤◌, ℕ, true, [], length, get_or, nat_lt, IsTrue};
ghost use Rattle.std.specs.List.{list_all};
ghost use Rattle.domains.specs.Orders.{place};
ghost use Rattle.transition_table.specs.Orders.{Allowed, sizes_of};
ghost use Rattle.decision_diagram.specs.Sets.{stands};
ghost use Rattle.char_function.specs.Supported.{AreSupports};
ghost use Rattle.order_sift.specs.inner.Turns.{AreAllowedPlaces};

use char_function::Supports;
use decision_diagram::Order;
use transition_table::Machine;

/// The places from a first to a last one.
#[derive(Clone, Copy)]
pub(crate) struct PlaceRange {
    pub(crate) first: u64,
    pub(crate) last: u64,
}

// The first place after all of these variables.
fn place_after(support: &[u32], order: &Order) -> u64
    requires support { IsTrue (list_all (λ v. nat_lt v (length order.now)) support.now) }
    requires few { length order.now < 1000 }
    ensures after { (v : ℕ) → stands support.now v ≡ true → place order.now v < result }
    ensures least { (k : ℕ) → ((v : ℕ) → stands support.now v ≡ true → place order.now v < k)
        → result ≤ k }
{
    let mut after = 0;
    for v in support {
        after = after.max(order.place_of(*v) + 1);
    }
    after
}

// Whether a number stands in a list.
fn has(list: &[u32], number: u32) -> bool
    ensures { result ≡ stands list.now number }
{
    for item in list {
        if *item == number {
            return true;
        }
    }
    false
}

// The place of the first of the results that depend on a variable, or the length of the order.
fn place_before(supports: &Supports, order: &Order, vars: u64, var: u32) -> u64
    requires long { length order.now ≡ vars + length supports.now }
    requires few { length order.now < 1000 }
    ensures before { (y : ℕ) → y < length supports.now
        → stands (get_or supports.now y []) var ≡ true → result ≤ place order.now (vars + y) }
    ensures greatest { (k : ℕ) → k ≤ length order.now
        → ((y : ℕ) → y < length supports.now → stands (get_or supports.now y []) var ≡ true
        → k ≤ place order.now (vars + y)) → k ≤ result }
    ensures within { result ≤ length order.now }
{
    let mut before = order.len();
    for y in 0..supports.len() {
        if has(supports.get(y).as_slice(), var) {
            before = before.min(order.place_of((vars + y) as u32));
        }
    }
    before
}

/// The places at which an item may stand, if the others keep their order.
pub(crate) fn allowed_places(
    machine: &Machine,
    supports: &Supports,
    order: &Order,
    item: u32,
) -> PlaceRange
    requires supports { AreSupports machine.now supports.now }
    requires allowed { Allowed machine.now order.now }
    requires item { item < length order.now }
    ensures places { AreAllowedPlaces machine.now order.now (place order.now item) result.first
        result.last }
    ensures first { result.first ≤ place order.now item }
    ensures last { place order.now item ≤ result.last }
    ensures within { result.last < length order.now }
{
    domains::laws_of_orders();
    let vars = u64::from(machine.var_count());
    let _ = machine.result_count();
    if u64::from(item) < vars {
        PlaceRange {
            first: 0,
            last: place_before(supports, order, vars, item) - 1,
        }
    } else {
        let support = supports.get(u64::from(item) - vars);
        PlaceRange {
            first: place_after(support.as_slice(), order),
            last: order.len() - 1,
        }
    }
}
