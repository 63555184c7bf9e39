// Calls on a machine that no command makes: a comparison of two, the lists of codes of its
// variables, and the sifting of its order.
ghost use Rattle.std.specs.Prelude.{IfOk, IsTrue};
ghost use Rattle.domains.specs.Tables.{fits};
ghost use Rattle.transition_table.specs.Transitions.{AreDeterministic, IsDeterministic};

use crate::inputs::network_of;
use crate::tests::{expect, push_codes};
use decision_diagram::Order;
use domains::{Codes, VarTable, first_codes, next_codes};
use machine_compiler::compile_machine;
use machine_equiv::{Compared, compare};
use order_sift::{Sifted, sift};
use polis_base::{Bytes, NoMemory};
use sample_networks::texts::{BELT, JOIN, LAMP, VALUE};
use std::alloc::Global;
use std::process::Abort;
use std::test::Fail;
use transition_table::{Machine, Network};

// The machine of VALUE with another value in its row.
const AT_SIX: &str = "network val version 1
domain d = 0 .. 7
event v : d from env
event hit to env
machine m priority 0 {
  input v
  output hit
  when v = 6 do emit hit
}
";

// A network whose machine is compared with that of VALUE, and what is answered, with the codes of
// the least snapshot on which they differ: the value 5 has the code 6.
const COMPARED: &[(&str, &str)] = &[(VALUE, "same"), (AT_SIX, "differ 6"), (JOIN, "shape")];

// A machine of a network, where it is there.
fn machine_of(net: &Network, k: u64) -> Result<&Machine, NoMemory>
    requires { AreDeterministic net.now }
    ensures { IfOk result (λ m. IsDeterministic m.now) }
{
    if k < net.machines.len() {
        Ok(net.machines.get(k))
    } else {
        Err(NoMemory)
    }
}

fn text_of(alloc: Global, compared: &Compared) -> Result<Bytes, NoMemory> {
    let mut text = Bytes::new(alloc);
    match compared {
        Compared::Same => text.push(b"same")?,
        Compared::Shape => text.push(b"shape")?,
        Compared::Differ { snapshot } => {
            text.push(b"differ")?;
            push_codes(&snapshot.codes, &mut text)?;
        }
    }
    Ok(text)
}

// Whether the comparison of two networks' first machines is this.
fn is_compared(alloc: Global, a: &Network, b: &Network, wanted: &str) -> Result<bool, NoMemory>
    requires one { AreDeterministic a.now }
    requires other { AreDeterministic b.now }
{
    let a = machine_of(a, 0)?;
    let b = machine_of(b, 0)?;
    let compared = compare(alloc, a, b)?;
    let text = text_of(alloc, &compared)?;
    Ok(text.as_slice() == wanted.as_bytes())
}

fn compares(alloc: Global, other: &str, wanted: &str) -> Result<bool, NoMemory> {
    let a = network_of(alloc, VALUE)?;
    let b = network_of(alloc, other)?;
    is_compared(alloc, &a, &b, wanted)
}

fn try_comparisons<T: Abort>(rt: &T, alloc: Global) -> Result<(), NoMemory> {
    for (other, wanted) in COMPARED {
        let is_right = compares(alloc, other, wanted)?;
        expect(rt, wanted, is_right);
    }
    Ok(())
}

#[test]
fn machines_are_compared(rt: HostRuntime) -> Result<(), Fail> {
    try_comparisons(&rt, rt.alloc())?;
    Ok(())
}

// Goes on to the next list of codes, and answers whether there is one.
fn goes_on(codes: &mut Codes, vars: &VarTable) -> bool
    requires { IsTrue (fits vars.now codes.old) }
    ensures { IsTrue (fits vars.now codes.new) }
{
    next_codes(codes, vars)
}

// How many lists of codes there are from these on.
fn count_from(vars: &VarTable, codes: &mut Codes) -> u64
    requires { IsTrue (fits vars.now codes.old) }
{
    for count in 1..60_000 {
        if !goes_on(codes, vars) {
            return count;
        }
    }
    0
}

// How many lists of codes the variables of a machine have.
fn count_lists(alloc: Global, net: &Network, k: u64) -> Result<u64, NoMemory>
    requires { AreDeterministic net.now }
{
    let m = machine_of(net, k)?;
    let mut codes = first_codes(alloc, &m.vars)?;
    Ok(count_from(&m.vars, &mut codes))
}

// The same of the seat belt and of its timer.
fn counts_of_belt(alloc: Global) -> Result<(u64, u64), NoMemory> {
    let net = network_of(alloc, BELT)?;
    let belt = count_lists(alloc, &net, 0)?;
    let timer = count_lists(alloc, &net, 1)?;
    Ok((belt, timer))
}

#[test]
fn lists_of_codes_follow_each_other(rt: HostRuntime) -> Result<(), Fail> {
    assert!(rt; counts_of_belt(rt.alloc())? == (96, 44));
    Ok(())
}

fn is_order(order: &Order, wanted: &[u32]) -> bool {
    if order.len() != wanted.len() as u64 {
        return false;
    }
    for (i, var) in wanted.iter().enumerate() {
        if i as u64 >= order.len() || order.get(i as u64) != var {
            return false;
        }
    }
    true
}

// Whether this is the order, and the diagram has this size under it and under the first order.
fn is_sifted(sifted: &Sifted, (order, count): (&[u32], u64)) -> bool {
    sifted.first_count == count && sifted.count == count && is_order(&sifted.order, order)
}

fn sifts(alloc: Global, m: &Machine, wanted: (&[u32], u64)) -> Result<bool, NoMemory>
    requires { IsDeterministic m.now }
{
    let sifted = sift(alloc, m)?;
    Ok(is_sifted(&sifted, wanted))
}

fn compiles(alloc: Global, m: &Machine, wanted: (&[u32], u64)) -> Result<bool, NoMemory>
    requires { IsDeterministic m.now }
{
    let compiled = compile_machine(alloc, m)?;
    Ok(is_sifted(&compiled.sifted, wanted))
}

// Whether the first machine of a network is sifted so, by itself and as it is compiled.
fn is_first_sifted(alloc: Global, text: &str, wanted: (&[u32], u64)) -> Result<bool, NoMemory> {
    let net = network_of(alloc, text)?;
    let m = machine_of(&net, 0)?;
    let sifts = sifts(alloc, m, wanted)?;
    let compiles = compiles(alloc, m, wanted)?;
    Ok(sifts && compiles)
}

// The variables and results of the lamp and of the join stand in the first order.
const LAMP_ORDER: (&[u32], u64) = (&[0, 1, 2, 3, 4], 8);

const JOIN_ORDER: (&[u32], u64) = (&[0, 1, 2, 3], 6);

#[test]
fn a_compiled_machine_has_the_sifted_order(rt: HostRuntime) -> Result<(), Fail> {
    assert!(rt; is_first_sifted(rt.alloc(), LAMP, LAMP_ORDER)?);
    assert!(rt; is_first_sifted(rt.alloc(), JOIN, JOIN_ORDER)?);
    Ok(())
}
