// The declarations of a ring of machines.
ghost use Rattle.std.specs.Prelude.{◌≡◌, ◌<◌, ◌≤◌, ◌+◌, ◌*◌, ◌%◌, ◌++◌, [], ◌∷◌, IfOk, OnOk, flat_map};
ghost use Rattle.polis_base.specs.Lists.{upto};
ghost use Rattle.polis_base.specs.Draws.{after, draw};
ghost use Rattle.net_gen.specs.Networks.{events_of, event, domain, machine, machines, ring};

use crate::rows::{num, rows, value};
use crate::words;
use net_reader::{
    RawDomain, RawDomainList, RawEnv, RawEvent, RawEventList, RawMachine, RawMachineList, RawNet,
    RawShape, RawState, RawStateList, Word, WordList,
};
use polis_base::{Draws, NoMemory};
use std::alloc::Global;

fn event(name: Word, domain: Option<Word>, env: RawEnv) -> RawEvent
    ensures { result ≡ event name domain env }
{
    RawEvent { name, domain, env }
}

fn push_events(i: u64, events: &mut RawEventList) -> Result<(), NoMemory>
    requires { i < 48 }
    ensures { OnOk result (events.new ≡ events.old ++ events_of i) }
{
    events.push(event(words::tick(i), None, RawEnv::FromEnv))?;
    events.push(event(words::valued(i), Some(words::domain()), RawEnv::Between))?;
    events.push(event(words::output(i), None, RawEnv::ToEnv))?;
    Ok(())
}

// Three events for each machine.
fn events(alloc: Global, count: u64) -> Result<RawEventList, NoMemory>
    requires { count ≤ 48 }
    ensures { IfOk result (λ list. list ≡ flat_map events_of (upto count)) }
{
    let mut events = RawEventList::new(alloc);
    for i in 0..count {
        push_events(i, &mut events)?;
    }
    Ok(events)
}

// Machine i, whose values go to machine j.
fn machine(alloc: Global, i: u64, j: u64, draws: &mut Draws) -> Result<RawMachine, NoMemory>
    requires i_small { i < 48 }
    requires j_small { j < 48 }
    ensures machine { IfOk result (λ made. made ≡ machine i j draws.old.x) }
    ensures moves { OnOk result (draws.new.x ≡ after draws.old.x 25) }
{
    let priority = num(draws.draw(4) as u32);
    let inputs = WordList::from_slice(alloc, &[words::tick(i), words::valued(i)])?;
    let outputs = WordList::from_slice(alloc, &[words::valued(j), words::output(i)])?;
    let state = RawState {
        name: words::state(),
        domain: words::domain(),
        init: value(0),
    };
    let states = RawStateList::from_slice(alloc, &[state])?;
    let rows = rows(alloc, i, j, draws)?;
    Ok(RawMachine {
        name: words::machine(i),
        priority,
        inputs,
        outputs,
        states,
        rows,
    })
}

fn machines(alloc: Global, count: u64, draws: &mut Draws) -> Result<RawMachineList, NoMemory>
    requires some { 0 < count }
    requires few { count ≤ 48 }
    ensures machines { IfOk result (λ list. list ≡ machines count draws.old.x) }
    ensures moves { OnOk result (draws.new.x ≡ after draws.old.x (25 * count)) }
{
    let mut machines = RawMachineList::new(alloc);
    for i in 0..count {
        machines.push(machine(alloc, i, (i + 1) % count, draws)?)?;
    }
    Ok(machines)
}

fn domains(alloc: Global) -> Result<RawDomainList, NoMemory>
    ensures { IfOk result (λ list. list ≡ domain ∷ []) }
{
    let mut domains = RawDomainList::new(alloc);
    domains.push(RawDomain {
        name: words::domain(),
        shape: RawShape::Range {
            first: num(0),
            last: num(7),
        },
    })?;
    Ok(domains)
}

// So many machines in a ring.
pub(crate) fn ring(alloc: Global, count: u64, draws: &mut Draws) -> Result<RawNet, NoMemory>
    requires some { 0 < count }
    requires few { count ≤ 48 }
    ensures ring { IfOk result (λ net. net ≡ ring count draws.old.x) }
    ensures moves { OnOk result (draws.new.x ≡ after draws.old.x (25 * count)) }
{
    Ok(RawNet {
        name: words::demo(),
        version: num(1),
        domains: domains(alloc)?,
        events: events(alloc, count)?,
        machines: machines(alloc, count, draws)?,
    })
}
