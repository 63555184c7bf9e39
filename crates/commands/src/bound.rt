// The command `bound`: what the reactions of a network's machines cost at most and at least.
ghost use Rattle.polis_words.specs.Bound.{AreFew};
ghost use Rattle.commands.specs.Bound.{AreCosts, bound_meaning};
ghost use Rattle.input_files.specs.Loads.{LeftByLoads, fails_unread};
ghost use Rattle.commands.specs.Made.{IsMade};

use crate::ranges::print_ranges;
use cost_bound::Costs;
use input_files::{Detail, load_net};
use output_files::Product;
use polis_base::{Host, NoMemory};
use polis_words::{Bound, Failure, GivenCosts};
use std::alloc::Global;

// The costs that are asked for.
fn costs_of(given: GivenCosts) -> Costs
    requires { AreFew given }
    ensures { AreCosts given result }
{
    Costs {
        test: given.test,
        set: given.set,
        jump: given.jump,
        halt: given.halt,
    }
}

/// What bounding the costs of reactions makes of the file.
pub fn make_bound<'a, H: Host>(
    alloc: Global,
    host: &mut H,
    asked: &'a Bound<'_>,
) -> Result<Product, Failure<'a>>
    ensures made { IsMade (bound_meaning asked.now) (H.files host.old) result }
    ensures left { LeftByLoads ⟦<H as Host>⟧ (fails_unread result) host.old host.new }
{
    let net = match load_net(alloc, host, asked.net(), Detail::Cause) {
        Ok(net) => net,
        Err(failure) => return Err(failure),
    };
    let costs = costs_of(asked.costs());
    match print_ranges(alloc, &costs, &net) {
        Ok(shown) => Ok(Product::showing(alloc, shown)),
        Err(NoMemory) => Err(Failure::NoMemory),
    }
}
