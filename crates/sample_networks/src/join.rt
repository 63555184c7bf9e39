// Two events of the environment together give a third to it.
ghost use Rattle.std.specs.Prelude.{◌≡◌, IfOk};
ghost use Rattle.transition_table.specs.samples.Join.{join_machine as the_machine, join as the_network};
ghost use Rattle.transition_table.specs.Transitions.{AreDeterministic};

use crate::build::{ENV, gives, machine, on, pure_event, row};
use polis_base::{Name, NoMemory};
use std::alloc::Global;
use transition_table::{
    DomainList, EventList, Machine, MachineList, Network, Party, RowList, StateList, laws,
    laws_of_data,
};

// Fires where both inputs are present.
fn join_machine(alloc: Global) -> Result<Machine, NoMemory>
    ensures { IfOk result (λ m. m ≡ the_machine) }
{
    let mut rows = RowList::new(alloc);
    rows.push(row(alloc, &[on(0, 2), on(1, 2)], &[gives(1, 1)])?)?;
    let made = machine(
        alloc,
        b"m",
        0,
        (&[0, 1], &[2]),
        StateList::new(alloc),
        (&[2, 2], &[2, 2]),
        rows,
    )?;
    laws_of_data();
    Ok(made)
}

// The network of that machine.
fn network(alloc: Global) -> Result<Network, NoMemory>
    ensures { IfOk result (λ net. net ≡ the_network) }
{
    let mut events = EventList::new(alloc);
    events.push(pure_event(alloc, b"a", ENV, false, &[0])?)?;
    events.push(pure_event(alloc, b"b", ENV, false, &[0])?)?;
    events.push(pure_event(alloc, b"c", Party::Machine(0), true, &[])?)?;
    let mut machines = MachineList::new(alloc);
    machines.push(join_machine(alloc)?)?;
    let net = Network {
        name: Name::of_token(b"join"),
        domains: DomainList::new(alloc),
        events,
        machines,
    };
    laws_of_data();
    Ok(net)
}

/// The network of the join.
pub fn deterministic_network(alloc: Global) -> Result<Network, NoMemory>
    ensures is { IfOk result (λ net. net ≡ the_network) }
    ensures deterministic { IfOk result (λ net. AreDeterministic net) }
{
    laws();
    let net = network(alloc)?;
    Ok(net)
}
