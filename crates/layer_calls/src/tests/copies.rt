// Copies that no command makes.
ghost use Rattle.transition_table.specs.Transitions.{AreDeterministic, IsDeterministic};
ghost use Rattle.net_reader.specs.Layout.{IsOfSentence};

use crate::inputs::network_of;
use char_function::supports;
use machine_compiler::compile_machine;
use machine_equiv::{Compared, compare};
use net_reader::{RawNet, print_network, read_network};
use polis_base::{Bytes, Duplicate, NoMemory};
use sample_networks::lamp::deterministic_machine;
use sample_networks::texts::{JOIN, LAMP, TWO};
use scheduler_gen::{Plan, plan};
use std::alloc::Global;
use std::test::Fail;
use transition_table::{EventDecl, Machine};

// The text of a copy of a network.
fn printed_copy(alloc: Global, net: &RawNet) -> Result<Bytes, NoMemory>
    requires { IsOfSentence net.now }
{
    let copy = net.copy()?;
    print_network(alloc, &copy)
}

fn prints_copy(alloc: Global, text: &str) -> Result<bool, NoMemory> {
    match read_network(alloc, text.as_bytes()) {
        Ok(net) => {
            let printed = printed_copy(alloc, &net)?;
            Ok(printed.as_slice() == text.as_bytes())
        }
        Err(_) => Err(NoMemory),
    }
}

// Whether a machine's table says what that of its copy does.
fn has_same_table(alloc: Global, m: &Machine) -> Result<bool, NoMemory>
    requires { IsDeterministic m.now }
{
    let copy = m.copy()?;
    match compare(alloc, m, &copy)? {
        Compared::Same => Ok(true),
        Compared::Shape | Compared::Differ { .. } => Ok(false),
    }
}

// How many supports the copy of a machine's has.
fn count_supports(alloc: Global, m: &Machine) -> Result<u64, NoMemory>
    requires { IsDeterministic m.now }
{
    let supports = supports(alloc, m)?;
    let copy = supports.copy()?;
    Ok(copy.len())
}

// How many vertices the copy of a machine's graph has.
fn count_vertices(alloc: Global, m: &Machine) -> Result<u64, NoMemory>
    requires { IsDeterministic m.now }
{
    let compiled = compile_machine(alloc, m)?;
    let copy = compiled.graph.copy()?;
    Ok(copy.len())
}

// What is seen of copies that are made of the lamp's machine.
fn copies_lamp(alloc: Global) -> Result<(bool, u64, u64), NoMemory> {
    let m = deterministic_machine(alloc)?;
    let has_same_table = has_same_table(alloc, &m)?;
    let supports = count_supports(alloc, &m)?;
    let vertices = count_vertices(alloc, &m)?;
    Ok((has_same_table, supports, vertices))
}

// Whether an event's copy is sent to the environment under this name, and to no machine.
fn is_sent(event: &EventDecl, name: &[u8]) -> Result<bool, NoMemory> {
    let copy = event.copy()?;
    Ok(copy.to_env && copy.name.bytes() == name && copy.receivers.len() == 0)
}

fn sends_result(alloc: Global) -> Result<bool, NoMemory> {
    let net = network_of(alloc, JOIN)?;
    if net.events.len() != 3 {
        return Ok(false);
    }
    is_sent(net.events.get(2), b"c")
}

// Whether the machine 1 comes first in a copy of the plan of two machines, and 0 then.
fn comes_last_first(plan: &Plan) -> Result<bool, NoMemory> {
    let copy = plan.copy()?;
    Ok(copy.len() == 2 && *copy.get(0) == 1 && *copy.get(1) == 0)
}

fn plans_two(alloc: Global) -> Result<bool, NoMemory> {
    let net = network_of(alloc, TWO)?;
    let plan = plan(alloc, &net)?;
    comes_last_first(&plan)
}

#[test]
fn copies_are_as_what_they_copy(rt: HostRuntime) -> Result<(), Fail> {
    assert!(rt; prints_copy(rt.alloc(), LAMP)?);
    assert!(rt; copies_lamp(rt.alloc())? == (true, 3, 7));
    assert!(rt; sends_result(rt.alloc())?);
    assert!(rt; plans_two(rt.alloc())?);
    Ok(())
}
