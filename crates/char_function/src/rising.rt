// Orders in which the variables stand by rising numbers.
ghost use Rattle.std.specs.Prelude.{◌≡◌, true};
ghost use Rattle.char_function.specs.inner.Rising.{IsRising};

use decision_diagram::Order;

/// Whether the variables stand in an order by rising numbers.
pub(crate) fn is_rising(order: &Order, vars: u64) -> bool
    ensures { result ≡ true → IsRising vars order.now }
{
    let mut next = 0;
    for place in 0..order.len() {
        let item = u64::from(*order.get(place));
        if item < vars {
            if item != next {
                return false;
            }
            next += 1;
        }
    }
    true
}
