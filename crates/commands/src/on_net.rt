// The commands that show what is to be said of a network.
ghost use Rattle.commands.specs.NetProducts.{on_net_meaning};
ghost use Rattle.input_files.specs.Loads.{LeftByLoads, fails_unread};
ghost use Rattle.commands.specs.Made.{IsMade};

use crate::check::make_check;
use crate::lint::make_lint;
use input_files::Detail;
use output_files::Product;
use polis_base::Host;
use polis_words::{Check, Failure, OnNet};
use std::alloc::Global;

/// What a command that shows what is said of a network makes of the file, with so much said of one
/// that is refused.
pub fn make_on_net<'a, H: Host>(
    alloc: Global,
    host: &mut H,
    kind: OnNet,
    asked: &'a Check<'_>,
    detail: Detail,
) -> Result<Product, Failure<'a>>
    ensures made { IsMade (on_net_meaning detail kind asked.now) (H.files host.old) result }
    ensures left { LeftByLoads ⟦<H as Host>⟧ (fails_unread result) host.old host.new }
{
    match kind {
        OnNet::Check => make_check(alloc, host, asked, detail),
        OnNet::Lint => make_lint(alloc, host, asked, detail),
    }
}
