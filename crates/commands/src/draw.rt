// The command `draw`: a network and the graphs of its machines as pictures.
ghost use Rattle.std.specs.Prelude.{IfOk};
ghost use Rattle.transition_table.specs.Transitions.{AreDeterministic};
ghost use Rattle.commands.specs.NetProducts.{draw_product, parts_meaning};
ghost use Rattle.commands.specs.inner.Parts.{IsOfParts};
ghost use Rattle.input_files.specs.Loads.{LeftByLoads, fails_unread};
ghost use Rattle.commands.specs.Made.{IsMade};

use graph_drawing::push_drawing;
use input_files::{Detail, load_net};
use machine_compiler::{Graphs, compile_graphs};
use output_files::Product;
use polis_base::{Bytes, Host, NoMemory};
use polis_words::{Failure, NetStem};
use std::alloc::Global;
use transition_table::Network;

// Compiles each machine, and makes the text of the pictures.
fn product_of(alloc: Global, asked: &NetStem<'_>, net: &Network) -> Result<Product, NoMemory>
    requires { AreDeterministic net.now }
    ensures { IfOk result (λ product. IsOfParts (draw_product asked.now.stem) net.now product) }
{
    let Graphs { graphs, lengths } = compile_graphs(alloc, net)?;
    let mut text = Bytes::new(alloc);
    push_drawing(net, &graphs, &mut text)?;
    let product = Product::saving_one(alloc, asked.stem(), ".dot", text, lengths)?;
    Ok(product)
}

/// What drawing a network makes of the file.
pub fn make_draw<'a, H: Host>(
    alloc: Global,
    host: &mut H,
    asked: &'a NetStem<'_>,
) -> Result<Product, Failure<'a>>
    ensures made { IsMade (parts_meaning (draw_product asked.now.stem) asked.now) (H.files host.old) result }
    ensures left { LeftByLoads ⟦<H as Host>⟧ (fails_unread result) host.old host.new }
{
    let net = match load_net(alloc, host, asked.net(), Detail::Cause) {
        Ok(net) => net,
        Err(failure) => return Err(failure),
    };
    match product_of(alloc, asked, &net) {
        Ok(product) => Ok(product),
        Err(NoMemory) => Err(Failure::NoMemory),
    }
}
