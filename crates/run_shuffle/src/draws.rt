// The draws of a run.
ghost use Rattle.std.specs.Prelude.{◌≡◌, ◌<◌, ◌≤◌, ◌^◌};
ghost use Rattle.polis_base.specs.Draws.{draw, next};
ghost use Rattle.run_shuffle.specs.Shuffles.{after_order, order_from, row_of_orders, stirred};

use crate::order::{Order, RunOrder};
use polis_base::Draws;

// Draws that differ for neighbouring seeds.
pub(crate) fn of_seed(seed: u64) -> Draws
    ensures { result.x ≡ stirred seed }
{
    let mut draws = Draws { x: seed };
    let a = draws.draw(2147483648);
    Draws {
        x: draws.x.wrapping_mul(2 * a + 1),
    }
}

// How often each move of the network counts, which is drawn.
pub(crate) fn pace(draws: &mut Draws) -> u64
    ensures pace { result ≡ 2 ^ draw draws.old.x 5 }
    ensures some { 0 < result }
    ensures small { result ≤ 16 }
    ensures moves { draws.new.x ≡ next draws.old.x }
{
    1 << draws.draw(5)
}

// The order that stands in a row of those that are drawn from.
fn order_in_row(row: u64) -> RunOrder
    ensures { result ≡ row_of_orders row }
{
    match row {
        0 => RunOrder::Free,
        1 => RunOrder::Settled,
        _ => RunOrder::Scheduled,
    }
}

// The order of a run. A mixed one is drawn.
pub(crate) fn order_of_run(draws: &mut Draws, order: Order) -> RunOrder
    ensures order { result ≡ order_from order draws.old.x }
    ensures moves { draws.new.x ≡ after_order order draws.old.x }
{
    match order {
        Order::Free => RunOrder::Free,
        Order::Settled => RunOrder::Settled,
        Order::Scheduled => RunOrder::Scheduled,
        Order::Mixed => order_in_row(draws.draw(3)),
    }
}
