// The command `compile`: the machines of a network as code, and their listing.
ghost use Rattle.std.specs.Prelude.{IfOk};
ghost use Rattle.transition_table.specs.Transitions.{AreDeterministic};
ghost use Rattle.commands.specs.NetProducts.{compile_product, parts_meaning};
ghost use Rattle.commands.specs.inner.Parts.{IsOfParts};
ghost use Rattle.input_files.specs.Loads.{LeftByLoads, fails_unread};
ghost use Rattle.commands.specs.Made.{IsMade};

use input_files::{Detail, load_net};
use machine_compiler::{Texts, compile_texts};
use output_files::Product;
use polis_base::{Host, NoMemory};
use polis_words::{Failure, NetStem};
use std::alloc::Global;
use transition_table::Network;

// Compiles each machine, and makes the texts of what was compiled.
fn product_of(alloc: Global, asked: &NetStem<'_>, net: &Network) -> Result<Product, NoMemory>
    requires { AreDeterministic net.now }
    ensures { IfOk result (λ product. IsOfParts (compile_product asked.now.stem) net.now product) }
{
    let Texts { listing, lengths } = compile_texts(alloc, net)?;
    let product = Product::saving_one(alloc, asked.stem(), ".lst", listing, lengths)?;
    Ok(product)
}

/// What a compilation makes of the file.
pub fn make_compile<'a, H: Host>(
    alloc: Global,
    host: &mut H,
    asked: &'a NetStem<'_>,
) -> Result<Product, Failure<'a>>
    ensures made { IsMade (parts_meaning (compile_product asked.now.stem) asked.now) (H.files host.old) result }
    ensures left { LeftByLoads ⟦<H as Host>⟧ (fails_unread result) host.old host.new }
{
    let net = match load_net(alloc, host, asked.net(), Detail::Cause) {
        Ok(net) => net,
        Err(failure) => return Err(failure),
    };
    match product_of(alloc, asked, &net) {
        Ok(product) => Ok(product),
        Err(NoMemory) => Err(Failure::NoMemory),
    }
}
