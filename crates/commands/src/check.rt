// The command `check`: whether a network is accepted.
ghost use Rattle.commands.specs.NetProducts.{on_net_meaning};
ghost use Rattle.polis_words.specs.declared.requests.command.OnNet.TheVariants.{Check as Checks};
ghost use Rattle.input_files.specs.Loads.{LeftByLoads, fails_unread};
ghost use Rattle.commands.specs.Made.{IsMade};

use input_files::{Detail, load_net};
use output_files::Product;
use polis_base::{Host, NoMemory};
use polis_words::{Check, Failure, print_accepted};
use std::alloc::Global;

/// What a check makes of the file, with so much said of one that is refused.
pub fn make_check<'a, H: Host>(
    alloc: Global,
    host: &mut H,
    check: &'a Check<'_>,
    detail: Detail,
) -> Result<Product, Failure<'a>>
    ensures made { IsMade (on_net_meaning detail Checks check.now) (H.files host.old) result }
    ensures left { LeftByLoads ⟦<H as Host>⟧ (fails_unread result) host.old host.new }
{
    let net = match load_net(alloc, host, check.net(), detail) {
        Ok(net) => net,
        Err(failure) => return Err(failure),
    };
    match print_accepted(alloc, &net) {
        Ok(shown) => Ok(Product::showing(alloc, shown)),
        Err(NoMemory) => Err(Failure::NoMemory),
    }
}
