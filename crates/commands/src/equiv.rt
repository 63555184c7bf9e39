// The command `equiv`: whether two networks have the same tables.
ghost use Rattle.std.specs.Prelude.{IfOk, IfErr, Some};
ghost use Rattle.transition_table.specs.Transitions.{AreDeterministic};
ghost use Rattle.machine_equiv.specs.Comparing.{IsNetComparison};
ghost use Rattle.commands.specs.Equiv.{IsEquivFault, IsDifferText, equiv_meaning};
ghost use Rattle.input_files.specs.Faults.{IfCause};
ghost use Rattle.commands.specs.inner.Equiv.{IsEquivFailure, IsSameProduct};
ghost use Rattle.input_files.specs.Loads.{LeftByLoads, fails_unread};
ghost use Rattle.commands.specs.Made.{IsMade};

use input_files::{Detail, FileFault, load_net};
use machine_equiv::{Differing, compare_nets, same_shape};
use output_files::Product;
use polis_base::{Bytes, Host, NoMemory};
use polis_words::{Cause, Equiv, Failure, print_machine_snapshot, print_same};
use std::alloc::Global;
use transition_table::Network;

// The first machine whose tables differ, with the least snapshot on which they do.
fn print_differing(
    alloc: Global,
    net: &Network,
    other: &Network,
    found: &Differing,
) -> Result<Bytes, NoMemory>
    requires { IsNetComparison net.now other.now (Some found.now) }
    ensures { IfOk result (λ text. IsDifferText net.now other.now text) }
{
    let machine = net.machines.get(u64::from(found.machine));
    match print_machine_snapshot(alloc, net, machine, &found.snapshot) {
        Ok(text) => Ok(text),
        Err(NoMemory) => Err(NoMemory),
    }
}

// What networks that are the same show, or why they aren't.
fn compared(alloc: Global, net: &Network, other: &Network) -> Result<Product, FileFault>
    requires deterministic { AreDeterministic net.now }
    requires others { AreDeterministic other.now }
    ensures made { IfOk result (IsSameProduct net.now other.now) }
    ensures failed { IfErr result (λ fault. IfCause fault (IsEquivFault net.now other.now)) }
{
    if !same_shape(net, other) {
        return Err(FileFault::Cause(Cause::OtherShape));
    }
    match compare_nets(alloc, net, other) {
        Ok(None) => {}
        Ok(Some(found)) => return match print_differing(alloc, net, other, &found) {
            Ok(text) => Err(FileFault::Cause(Cause::Differ { text })),
            Err(NoMemory) => Err(FileFault::NoMemory),
        },
        Err(NoMemory) => return Err(FileFault::NoMemory),
    }
    match print_same(alloc, net.machines.len()) {
        Ok(shown) => Ok(Product::showing(alloc, shown)),
        Err(NoMemory) => Err(FileFault::NoMemory),
    }
}

// The same of networks that were loaded, the second one from the file of this name.
fn compare_loaded<'a>(
    alloc: Global,
    name: &'a str,
    net: &Network,
    other: &Network,
) -> Result<Product, Failure<'a>>
    requires deterministic { AreDeterministic net.now }
    requires others { AreDeterministic other.now }
    ensures made { IfOk result (IsSameProduct net.now other.now) }
    ensures failed { IfErr result (IsEquivFailure name.now net.now other.now) }
{
    match compared(alloc, net, other) {
        Ok(product) => Ok(product),
        Err(FileFault::Cause(cause)) => Err(Failure::of(alloc, name, cause)),
        Err(FileFault::NoMemory) => Err(Failure::NoMemory),
    }
}

/// What a comparison makes of the files.
pub fn make_equiv<'a, H: Host>(
    alloc: Global,
    host: &mut H,
    asked: &'a Equiv<'_>,
) -> Result<Product, Failure<'a>>
    ensures made { IsMade (equiv_meaning asked.now) (H.files host.old) result }
    ensures left { LeftByLoads ⟦<H as Host>⟧ (fails_unread result) host.old host.new }
{
    let net = match load_net(alloc, host, asked.net(), Detail::Cause) {
        Ok(net) => net,
        Err(failure) => return Err(failure),
    };
    let name = asked.other();
    match load_net(alloc, host, name, Detail::Cause) {
        Ok(other) => compare_loaded(alloc, name, &net, &other),
        Err(failure) => Err(failure),
    }
}
