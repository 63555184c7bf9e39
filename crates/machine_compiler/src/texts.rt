// The texts of a network's compiled machines.
ghost use Rattle.std.specs.Prelude.{◌≡◌, ◌++◌, IfOk, OnOk, Some, slice_get};
ghost use Rattle.polis_base.specs.Lines.{line};
ghost use Rattle.transition_table.specs.Transitions.{AreDeterministic, IsDeterministic};
ghost use Rattle.task_code.specs.Listings.{part_text};
ghost use Rattle.machine_compiler.specs.Lines.{lengths};
ghost use Rattle.machine_compiler.specs.Parts.{part_of_compiled};
ghost use Rattle.machine_compiler.specs.Texts.{AreTexts};
ghost use Rattle.machine_compiler.specs.inner.Written.{IsWritten};

use crate::compiled::Compiled;
use crate::compiling::compile_machine;
use crate::lines::push_lengths_line;
use crate::listing::{LISTING_END, LISTING_HEAD, push_part};
use polis_base::{Bytes, NoMemory};
use std::alloc::Global;
use transition_table::{Machine, Network};

/// What is written of a network's compiled machines.
#[derive(Drop)]
pub struct Texts {
    /// The listing.
    pub listing: Bytes,
    /// A line for each machine: how many vertices and how many instructions it has.
    pub lengths: Bytes,
}

// Adds what is written of a compiled machine to the listing and to the lines of lengths.
fn write_part(
    alloc: Global,
    net: &Network,
    k: u32,
    machine: &Machine,
    part: &Compiled,
    listing: &mut Bytes,
    lines: &mut Bytes,
) -> Result<(), NoMemory>
    requires { slice_get net.now.machines k ≡ Some machine.now }
    ensures listing { OnOk result (listing.new
        ≡ listing.old ++ part_text net.now machine.now (part_of_compiled part.now)) }
    ensures lines { OnOk result (lines.new
        ≡ lines.old ++ line (lengths machine.now (part_of_compiled part.now))) }
{
    push_part(alloc, net, k, part, listing)?;
    push_lengths_line(machine, part, lines)?;
    Ok(())
}

// Compiles a machine, and adds what is written of it.
fn write_machine(
    alloc: Global,
    net: &Network,
    k: u32,
    machine: &Machine,
    listing: &mut Bytes,
    lines: &mut Bytes,
) -> Result<(), NoMemory>
    requires machine { slice_get net.now.machines k ≡ Some machine.now }
    requires deterministic { IsDeterministic machine.now }
    ensures { OnOk result
        (IsWritten net.now machine.now listing.old listing.new lines.old lines.new) }
{
    let part = compile_machine(alloc, machine)?;
    write_part(alloc, net, k, machine, &part, listing, lines)?;
    Ok(())
}

/// The texts of a network's compiled machines. Each machine is compiled and written before the
/// next, and nothing is kept of it but what is written.
pub fn compile_texts(alloc: Global, net: &Network) -> Result<Texts, NoMemory>
    requires { AreDeterministic net.now }
    ensures { IfOk result (AreTexts net.now) }
{
    let mut listing = Bytes::new(alloc);
    listing.push(LISTING_HEAD)?;
    let mut lengths = Bytes::new(alloc);
    for k in 0..net.machines.len() {
        let machine = net.machines.get(k);
        write_machine(alloc, net, k as u32, machine, &mut listing, &mut lengths)?;
    }
    listing.push(LISTING_END)?;
    Ok(Texts { listing, lengths })
}
