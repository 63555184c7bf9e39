// The commands that save what is to be made of a network.
ghost use Rattle.commands.specs.NetProducts.{from_net_meaning};
ghost use Rattle.input_files.specs.Loads.{LeftByLoads, fails_unread};
ghost use Rattle.commands.specs.Made.{IsMade};

use crate::compile::make_compile;
use crate::draw::make_draw;
use crate::image::make_image;
use output_files::Product;
use polis_base::Host;
use polis_words::{Failure, FromNet, NetStem};
use std::alloc::Global;

/// What a command that saves what is made of a network makes of the file.
pub fn make_from_net<'a, H: Host>(
    alloc: Global,
    host: &mut H,
    kind: FromNet,
    asked: &'a NetStem<'_>,
) -> Result<Product, Failure<'a>>
    ensures made { IsMade (from_net_meaning kind asked.now) (H.files host.old) result }
    ensures left { LeftByLoads ⟦<H as Host>⟧ (fails_unread result) host.old host.new }
{
    match kind {
        FromNet::Compile => make_compile(alloc, host, asked),
        FromNet::Image => make_image(alloc, host, asked),
        FromNet::Draw => make_draw(alloc, host, asked),
    }
}
