// Orders in which each result stands after what it depends on.
ghost use Rattle.std.specs.Prelude.{◌≡◌, ◌↔◌, ◌<◌, true, length, nat_lt, IsTrue};
ghost use Rattle.std.specs.List.{list_all};
ghost use Rattle.domains.specs.Orders.{place};
ghost use Rattle.transition_table.specs.declared.machine.Machine.{Machine};
ghost use Rattle.transition_table.specs.Transitions.{IsDeterministic};
ghost use Rattle.transition_table.specs.Computed.{all_supports};
ghost use Rattle.transition_table.specs.Orders.{Allowed, sizes_of};
ghost use Rattle.char_function.specs.Orders.{AreOfMachine};

use crate::support_lists::Supports;
use decision_diagram::Order;

// Whether these variables stand before an item.
fn stand_before(support: &[u32], order: &Order, item: u32) -> bool
    requires item { item < length order.now }
    requires support { IsTrue (list_all (λ v. nat_lt v (length order.now)) support.now) }
    ensures { result ≡ list_all (λ v. nat_lt (place order.now v) (place order.now item))
        support.now }
{
    for v in support {
        if order.place_of(*v) >= order.place_of(item) {
            return false;
        }
    }
    true
}

/// Whether each result of a machine stands after all variables of its support. It takes no memory.
pub fn is_allowed(s: &Supports, order: &Order) -> bool
    requires { AreOfMachine s.now order.now }
    ensures { (m : Machine) → IsDeterministic m → s.now ≡ all_supports m
        → length order.now ≡ length (sizes_of m) → (result ≡ true) ↔ Allowed m order.now }
{
    transition_table::laws_of_computing();
    let vars = order.len() - s.len();
    for y in 0..s.len() {
        if !stand_before(s.get(y).as_slice(), order, (vars + y) as u32) {
            return false;
        }
    }
    true
}
