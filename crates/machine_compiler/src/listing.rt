// The listing of a network.
ghost use Rattle.std.specs.Prelude.{◌≡◌, ◌<◌, ◌++◌, length, IfOk, OnOk};
ghost use Rattle.transition_table.specs.Transitions.{OfMachine};
ghost use Rattle.task_code.specs.Listings.{ListingText, part_text};
ghost use Rattle.machine_compiler.specs.Parts.{part_of_compiled, parts_of};

use crate::compiled::{Compiled, CompiledList};
use polis_base::{Bytes, NoMemory};
use std::alloc::Global;
use task_code::push_listing;
use transition_table::Network;

/// The first line of a listing.
pub(crate) const LISTING_HEAD: &[u8] = b"polis listing 1\n";

/// The last line of a listing.
pub(crate) const LISTING_END: &[u8] = b"end\n";

// Adds the part of a compiled machine to a listing.
pub(crate) fn push_part(
    alloc: Global,
    net: &Network,
    m: u32,
    part: &Compiled,
    listing: &mut Bytes,
) -> Result<(), NoMemory>
    requires { m < length net.now.machines }
    ensures { OnOk result (OfMachine net.now m (λ machine. listing.new
        ≡ listing.old ++ part_text net.now machine (part_of_compiled part.now))) }
{
    let sizes = (part.sifted.first_count, part.sifted.count);
    let order = &part.sifted.order;
    push_listing(
        alloc,
        net,
        m,
        sizes,
        order,
        &part.graph,
        &part.code,
        listing,
    )
}

/// The listing of a network: a first line, the part of each compiled machine, and the line `end`.
pub fn print_listing(
    alloc: Global,
    net: &Network,
    compiled: &CompiledList,
) -> Result<Bytes, NoMemory>
    ensures { IfOk result (λ text. text ≡ ListingText net.now (parts_of compiled.now)) }
{
    let mut text = Bytes::new(alloc);
    text.push(LISTING_HEAD)?;
    let count = net.machines.len().min(compiled.len());
    for k in 0..count {
        push_part(alloc, net, k as u32, compiled.get(k), &mut text)?;
    }
    text.push(LISTING_END)?;
    Ok(text)
}
