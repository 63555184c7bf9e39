// The machines of a network.
ghost use Rattle.std.specs.Prelude.{◌≡◌, ◌≤◌, length, map, IfOk};
ghost use Rattle.polis_base.specs.declared.limits.TheConstants.{DOMAINS_MAX, EVENTS_MAX};
ghost use Rattle.std.specs.List.{AllZip};
ghost use Rattle.net_reader.specs.declared.raw.Word.{Word as Declared};
ghost use Rattle.net_names.specs.Scopes.{event_words, var_sizes};
ghost use Rattle.net_rules.specs.Networks.{state_of, IsRowOf, IsMachineOf};
ghost use Rattle.net_names.specs.Numbers.{number};
ghost use Rattle.net_rules.specs.inner.Sound.{Each, IsSound, IsSoundMachine};

use crate::row_list::{rows_of, value_number};
use crate::sizes::{Sizes, sizes_of};
use domains::VarTable;
use net_names::{MachineNames, Scope, vars_of};
use net_reader::{RawMachine, RawMachineList, RawState, Word};
use polis_base::{NoMemory, Numbers};
use std::alloc::Global;
use transition_table::{Machine, MachineList, RowList, StateDecl, StateList};

// The numbers of events.
fn event_numbers(alloc: Global, scope: &Scope, words: &[Word]) -> Result<Numbers, NoMemory>
    requires { length scope.now.raw.now.events ≤ EVENTS_MAX }
    ensures { IfOk result (λ numbers. numbers
        ≡ map (λ (w : Declared). number (event_words scope.now.raw.now) w.name) words.now) }
{
    let mut numbers = Numbers::new(alloc);
    for word in words {
        numbers.push(scope.event_number(word.name))?;
    }
    Ok(numbers)
}

// A state variable.
fn state_of(scope: &Scope, state: &RawState) -> StateDecl
    requires sound { IsSound scope.now.raw.now }
    requires domains { length scope.now.raw.now.domains ≤ DOMAINS_MAX }
    ensures { result ≡ state_of scope.now.raw.now state.now }
{
    StateDecl {
        name: state.name.name,
        domain: scope.number_of(state.domain.name),
        init: value_number(scope, &Some(state.domain), &state.init) as u8,
    }
}

fn states_of(alloc: Global, scope: &Scope, states: &[RawState]) -> Result<StateList, NoMemory>
    requires sound { IsSound scope.now.raw.now }
    requires domains { length scope.now.raw.now.domains ≤ DOMAINS_MAX }
    ensures { IfOk result (λ made. made ≡ map (state_of scope.now.raw.now) states.now) }
{
    let mut made = StateList::new(alloc);
    for state in states {
        made.push(state_of(scope, state))?;
    }
    Ok(made)
}

// The numbers of the events that a machine reads and emits.
#[derive(Drop)]
struct Ports {
    inputs: Numbers,
    outputs: Numbers,
}

fn ports_of(alloc: Global, scope: &Scope, machine: &RawMachine) -> Result<Ports, NoMemory>
    requires { length scope.now.raw.now.events ≤ EVENTS_MAX }
    ensures inputs { IfOk result (λ ports. ports.inputs
        ≡ map (λ (w : Declared). number (event_words scope.now.raw.now) w.name)
        machine.now.inputs) }
    ensures outputs { IfOk result (λ ports. ports.outputs
        ≡ map (λ (w : Declared). number (event_words scope.now.raw.now) w.name)
        machine.now.outputs) }
{
    let inputs = event_numbers(alloc, scope, machine.inputs.as_slice())?;
    let outputs = event_numbers(alloc, scope, machine.outputs.as_slice())?;
    Ok(Ports { inputs, outputs })
}

// The rows of a machine whose variables have these sizes.
fn machine_rows<'s, 'a>(
    alloc: Global,
    names: &MachineNames<'s, 'a>,
    vars: &VarTable,
) -> Result<RowList, NoMemory>
    requires sound { IsSound names.now.scope.now.raw.now }
    requires vars { vars.now ≡ var_sizes names.now.scope.now.raw.now names.now.machine.now }
    requires kept { IsSoundMachine names.now.scope.now.raw.now names.now.machine.now }
    ensures { IfOk result (λ made. AllZip
        (IsRowOf names.now.scope.now.raw.now names.now.machine.now)
        names.now.machine.now.rows made) }
{
    let known = vars_of(alloc, names)?;
    let rows = rows_of(alloc, names, &known, vars, names.machine.rows.as_slice())?;
    Ok(rows)
}

// A machine that keeps the rules.
fn machine_of(alloc: Global, names: &MachineNames) -> Result<Machine, NoMemory>
    requires sound { IsSound names.now.scope.now.raw.now }
    requires machine { IsSoundMachine names.now.scope.now.raw.now names.now.machine.now }
    ensures { IfOk result
        (λ made. IsMachineOf names.now.scope.now.raw.now names.now.machine.now made) }
{
    let machine = names.machine;
    let Ports { inputs, outputs } = ports_of(alloc, names.scope, machine)?;
    let states = states_of(alloc, names.scope, machine.states.as_slice())?;
    let Sizes { vars, results } = sizes_of(alloc, names.scope, machine)?;
    let rows = machine_rows(alloc, names, &vars)?;
    Ok(Machine {
        name: machine.name.name,
        priority: machine.priority.number as u8,
        inputs,
        outputs,
        states,
        vars,
        results,
        rows,
    })
}

// A machine of declarations that keep the rules.
fn machine_named(alloc: Global, scope: &Scope, machine: &RawMachine) -> Result<Machine, NoMemory>
    requires sound { IsSound scope.now.raw.now }
    requires machine { IsSoundMachine scope.now.raw.now machine.now }
    ensures { IfOk result (λ made. IsMachineOf scope.now.raw.now machine.now made) }
{
    let names = MachineNames::new(alloc, scope, machine)?;
    let made = machine_of(alloc, &names)?;
    Ok(made)
}

// The machines of declarations that keep the rules.
pub(crate) fn machines_of(
    alloc: Global,
    scope: &Scope,
    machines: &[RawMachine],
) -> Result<MachineList, NoMemory>
    requires sound { IsSound scope.now.raw.now }
    requires machines { Each (IsSoundMachine scope.now.raw.now) machines.now }
    ensures { IfOk result (λ made. AllZip (IsMachineOf scope.now.raw.now) machines.now made) }
{
    let mut made = MachineList::new(alloc);
    for machine in machines {
        let next = machine_named(alloc, scope, machine)?;
        made.push(next)?;
    }
    Ok(made)
}

// The same of machines that are given up: the declarations of each go once its tables stand.
pub(crate) fn machines_from(
    alloc: Global,
    scope: &Scope,
    machines: RawMachineList,
) -> Result<MachineList, NoMemory>
    requires sound { IsSound scope.now.raw.now }
    requires machines { Each (IsSoundMachine scope.now.raw.now) machines }
    ensures { IfOk result (λ made. AllZip (IsMachineOf scope.now.raw.now) machines made) }
{
    let mut made = MachineList::new(alloc);
    for machine in machines.into_vec() {
        let next = machine_named(alloc, scope, &machine)?;
        made.push(next)?;
    }
    Ok(made)
}
