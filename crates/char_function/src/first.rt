// The first order of a machine.
ghost use Rattle.std.specs.Prelude.{◌≡◌, ◌+◌, ◌<◌, ◌^◌, ◌++◌, length, IfOk};
ghost use Rattle.transition_table.specs.Transitions.{IsDeterministic};
ghost use Rattle.transition_table.specs.Computed.{all_supports};
ghost use Rattle.transition_table.specs.Orders.{Allowed};
ghost use Rattle.char_function.specs.Orders.{reach, results_after, interleaved, first_order};

use crate::support_lists::Supports;
use decision_diagram::Order;
use polis_base::{List, NoMemory, Numbers};
use std::alloc::Global;
use transition_table::Machine;

// How many of the variables have to stand until these do.
fn reach(support: &[u32]) -> u64
    ensures { result ≡ reach support.now }
{
    let mut most = 0;
    for v in support {
        most = most.max(u64::from(*v) + 1);
    }
    most
}

// Puts the results whose whole support first stands after k variables.
fn push_results(list: &mut Numbers, supports: &Supports, vars: u64, k: u64) -> Result<(), NoMemory>
    requires { vars + length supports.now < 2 ^ 32 }
    ensures { IfOk result (λ done. list.new ≡ list.old ++ results_after vars supports.now k) }
{
    for y in 0..supports.len() {
        if reach(supports.get(y).as_slice()) == k {
            list.push((vars + y) as u32)?;
        }
    }
    Ok(())
}

// The variables, each with the results that may stand once it does.
fn interleaved(alloc: Global, supports: &Supports, vars: u64) -> Result<Numbers, NoMemory>
    requires { vars + length supports.now < 2 ^ 32 }
    ensures { IfOk result (λ list. list ≡ interleaved vars supports.now) }
{
    let mut list = List::new(alloc);
    push_results(&mut list, supports, vars, 0)?;
    for v in 0..vars {
        list.push(v as u32)?;
        push_results(&mut list, supports, vars, v + 1)?;
    }
    Ok(list)
}

/// The results with empty support, in order, and then each variable with the results whose whole
/// support then stands.
pub fn first_order(alloc: Global, m: &Machine, s: &Supports) -> Result<Order, NoMemory>
    requires sure { IsDeterministic m.now }
    requires supports { s.now ≡ all_supports m.now }
    ensures order { IfOk result (λ order. order ≡ first_order m.now) }
    ensures allowed { IfOk result (λ order. Allowed m.now order) }
{
    transition_table::laws_of_computing();
    let vars = u64::from(m.var_count());
    let count = m.result_count();
    let list = interleaved(alloc, s, vars)?;
    match Order::new(alloc, list.as_slice())? {
        Some(order) => Ok(order),
        None => unreachable!(),
    }
}
