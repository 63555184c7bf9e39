// The command `image`: the code of a network's machines as the bytes of an image.
ghost use Rattle.std.specs.Prelude.{◌≡◌, IfOk, IfErr};
ghost use Rattle.transition_table.specs.Transitions.{AreDeterministic};
ghost use Rattle.net_rules.specs.Whole.{HasMachines};
ghost use Rattle.commands.specs.Image.{image_meaning, image_product};
ghost use Rattle.input_files.specs.Faults.{IfCause};
ghost use Rattle.commands.specs.inner.Image.{IsImageProduct, IsLongImage, IsNetImage};
ghost use Rattle.input_files.specs.Loads.{LeftByLoads, fails_unread};
ghost use Rattle.commands.specs.Made.{IsMade};

use input_files::{Detail, FileFault, load_net};
use machine_compiler::compile_codes;
use output_files::Product;
use polis_base::{Bytes, Host, NoMemory};
use polis_words::{Cause, Failure, NetStem, print_image};
use std::alloc::Global;
use task_image::{EncodeError, Image, encode};
use transition_table::Network;

// The image of a network's machines, each compiled.
fn image_of_net(alloc: Global, net: &Network) -> Result<Image, NoMemory>
    requires deterministic { AreDeterministic net.now }
    requires whole { HasMachines net.now }
    ensures { IfOk result (IsNetImage net.now) }
{
    let codes = compile_codes(alloc, net)?;
    let image = Image::of(alloc, net, codes)?;
    Ok(image)
}

// The product that saves the bytes of an image.
fn product_of(alloc: Global, asked: &NetStem<'_>, bytes: Bytes) -> Result<Product, NoMemory>
    ensures { IfOk result (λ product. product ≡ image_product asked.now.stem bytes) }
{
    let shown = print_image(alloc, bytes.as_slice().len() as u64)?;
    let product = Product::saving_one(alloc, asked.stem(), ".img", bytes, shown)?;
    Ok(product)
}

// The product of the image of a network, or why there is none.
fn product_of_net(alloc: Global, asked: &NetStem<'_>, net: &Network) -> Result<Product, FileFault>
    requires deterministic { AreDeterministic net.now }
    requires whole { HasMachines net.now }
    ensures made { IfOk result (IsImageProduct asked.now net.now) }
    ensures failed { IfErr result (λ fault. IfCause fault (IsLongImage net.now)) }
{
    let image = match image_of_net(alloc, net) {
        Ok(image) => image,
        Err(NoMemory) => return Err(FileFault::NoMemory),
    };
    let bytes = match encode(alloc, &image) {
        Ok(bytes) => bytes,
        Err(EncodeError::TooLong) => return Err(FileFault::Cause(Cause::ImageLong)),
        Err(EncodeError::NoMemory) => return Err(FileFault::NoMemory),
    };
    match product_of(alloc, asked, bytes) {
        Ok(product) => Ok(product),
        Err(NoMemory) => Err(FileFault::NoMemory),
    }
}

/// What storing a network's code makes of the file.
pub fn make_image<'a, H: Host>(
    alloc: Global,
    host: &mut H,
    asked: &'a NetStem<'_>,
) -> Result<Product, Failure<'a>>
    ensures made { IsMade (image_meaning asked.now) (H.files host.old) result }
    ensures left { LeftByLoads ⟦<H as Host>⟧ (fails_unread result) host.old host.new }
{
    let name = asked.net();
    let net = match load_net(alloc, host, name, Detail::Cause) {
        Ok(net) => net,
        Err(failure) => return Err(failure),
    };
    match product_of_net(alloc, asked, &net) {
        Ok(product) => Ok(product),
        Err(FileFault::Cause(cause)) => Err(Failure::of(alloc, name, cause)),
        Err(FileFault::NoMemory) => Err(Failure::NoMemory),
    }
}
