// Compiling the machines of a network by several workers.
ghost use Rattle.std.specs.Prelude.{◌<◌, length, IfOk};
ghost use Rattle.std.specs.List.{All};
ghost use Rattle.transition_table.specs.declared.network.Network.{Network};
ghost use Rattle.transition_table.specs.Transitions.{AreDeterministic};
ghost use Rattle.machine_compiler.specs.Parts.{AreRightParts, parts_of};
ghost use Rattle.machine_compiler.specs.inner.Shares.{AreRightEach, HasPlaces, IsRightAt, StandsAt};

use crate::compiled::{Compiled, CompiledList};
use crate::compiling::compile_machine;
use polis_base::{List, NoMemory};
use std::alloc::Global;
use std::sync::{Mutex, Wait};
use std::thread;
use std::thread::Threads;
use transition_table::Network;

/// A compiled machine, and its number.
#[derive(Drop)]
pub(crate) struct CompiledAt {
    pub(crate) number: u64,
    pub(crate) compiled: Compiled,
}

// The number of the machine that is next. It is then the turn of the one after it.
fn take_next<T: Wait>(rt: &T, next: &Mutex<u64>) -> u64 {
    let mut next = next.lock(rt);
    let number = *next;
    *next = number.saturating_add(1);
    number
}

// Compiles whichever machine is next, until none is left.
fn compile_share<T: Wait>(
    rt: &T,
    alloc: Global,
    net: &Network,
    next: &Mutex<u64>,
) -> Result<Vec<CompiledAt>, NoMemory>
    requires { AreDeterministic net.now }
    ensures { IfOk result (λ share. AreRightEach net.now share.items) }
{
    let mut share = Vec::new(alloc);
    for _ in 0..net.machines.len() {
        let number = take_next(rt, next);
        if number >= net.machines.len() {
            return Ok(share);
        }
        let compiled = compile_machine(alloc, net.machines.get(number))?;
        share.push(CompiledAt { number, compiled })?;
    }
    Ok(share)
}

// A place for each machine, with nothing there.
fn empty_places(alloc: Global, net: &Network) -> Result<List<Option<Compiled>>, NoMemory>
    ensures { IfOk result (λ places. HasPlaces net.now places) }
{
    let mut places = List::with_room(alloc, net.machines.len())?;
    for _ in 0..net.machines.len() {
        places.push(None)?;
    }
    Ok(places)
}

// Puts the machines of a share into their places.
fn place_share(share: Vec<CompiledAt>, places: &mut List<Option<Compiled>>)
    ensures { (net : Network)
        → AreRightEach net share.items
        → HasPlaces net places.old
        → HasPlaces net places.new }
{
    for one in share {
        let CompiledAt { number, compiled } = one;
        if number < places.len() {
            places.set(number, Some(compiled));
        }
    }
}

// The machines of all shares in their places.
fn place_all(
    alloc: Global,
    net: &Network,
    shares: Vec<Result<Vec<CompiledAt>, NoMemory>>,
) -> Result<List<Option<Compiled>>, NoMemory>
    requires { All (λ share. IfOk share (λ made. AreRightEach net.now made.items)) shares.items }
    ensures { IfOk result (λ places. HasPlaces net.now places) }
{
    let mut places = empty_places(alloc, net)?;
    for share in shares {
        place_share(share?, &mut places);
    }
    Ok(places)
}

// What stands at the place of a machine, or where nothing stands there what is compiled here.
fn or_compiled(
    alloc: Global,
    net: &Network,
    k: u64,
    place: Option<Compiled>,
) -> Result<Compiled, NoMemory>
    requires machine { k < length net.now.machines }
    requires deterministic { AreDeterministic net.now }
    requires right { StandsAt net.now k place }
    ensures { IfOk result (λ compiled. IsRightAt net.now k compiled) }
{
    match place {
        Some(compiled) => Ok(compiled),
        None => {
            let compiled = compile_machine(alloc, net.machines.get(k))?;
            Ok(compiled)
        }
    }
}

// The machines in order.
fn in_order(
    alloc: Global,
    net: &Network,
    places: List<Option<Compiled>>,
) -> Result<CompiledList, NoMemory>
    requires deterministic { AreDeterministic net.now }
    requires places { HasPlaces net.now places }
    ensures { IfOk result (λ compiled. AreRightParts net.now (parts_of compiled)) }
{
    let mut compiled = CompiledList::new(alloc);
    let mut k = 0;
    for place in places.into_vec() {
        let part = or_compiled(alloc, net, k, place)?;
        compiled.push(part)?;
        k += 1;
    }
    Ok(compiled)
}

/// All machines of a network, compiled in the order of their numbers by so many workers, each in a
/// thread of its own where one can be made. A worker compiles whichever machine is next.
pub fn compile_network_by<T: Threads + Wait + Sync>(
    rt: &T,
    alloc: Global,
    net: &Network,
    workers: u32,
) -> Result<CompiledList, NoMemory>
    requires { AreDeterministic net.now }
    ensures { IfOk result (λ compiled. AreRightParts net.now (parts_of compiled)) }
{
    let next = Mutex::new(0);
    let shares = thread::map_indices(
        rt,
        alloc,
        workers as usize,
        &|_: usize| -> Result<Vec<CompiledAt>, NoMemory>
            requires { AreDeterministic net.now }
            ensures { IfOk result (λ share. AreRightEach net.entry.now share.items) }
        { compile_share(rt, alloc, net, &next) },
    )?;
    let places = place_all(alloc, net, shares)?;
    in_order(alloc, net, places)
}
