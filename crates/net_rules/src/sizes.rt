// How many codes variables and results have.
ghost use Rattle.std.specs.Prelude.{◌≡◌, ◌≤◌, ◌+◌, ◌∷◌, ◌++◌, true, map, IfOk, OnOk};
ghost use Rattle.net_reader.specs.declared.raw.RawState.{RawState as Declared};
ghost use Rattle.net_names.specs.Numbers.{is_name_of};
ghost use Rattle.net_names.specs.Scopes.{domain_words, event_codes, state_codes, var_sizes};
ghost use Rattle.net_rules.specs.inner.Sound.{Each, IsSound, IsSoundMachine};

use domains::VarTable;
use net_names::{Scope, count_at, event_codes};
use net_reader::{RawMachine, RawState, Word};
use polis_base::NoMemory;
use std::alloc::Global;

// How many codes an event has.
fn event_size(scope: &Scope, word: &Word) -> u8
    requires { IsSound scope.now.raw.now }
    ensures codes { result ≡ event_codes scope.now.raw.now word.now }
    ensures some { 1 ≤ result }
    ensures few { result ≤ 33 }
{
    event_codes(scope, word) as u8
}

// How many codes a state variable has.
fn state_size(scope: &Scope, state: &RawState) -> u8
    requires sound { IsSound scope.now.raw.now }
    requires declared { is_name_of (domain_words scope.now.raw.now) state.now.domain.name ≡ true }
    ensures codes { result ≡ state_codes scope.now.raw.now state.now }
    ensures some { 1 ≤ result }
    ensures few { result ≤ 32 }
{
    count_at(scope, Some(state.domain)) as u8
}

// Appends the sizes of events.
fn event_sizes(scope: &Scope, words: &[Word], into: &mut VarTable) -> Result<(), NoMemory>
    requires { IsSound scope.now.raw.now }
    ensures { OnOk result (into.new ≡ into.old ++ map (event_codes scope.now.raw.now) words.now) }
{
    for word in words {
        into.push(event_size(scope, word))?;
    }
    Ok(())
}

// Appends the sizes of state variables.
fn state_sizes(scope: &Scope, states: &[RawState], into: &mut VarTable) -> Result<(), NoMemory>
    requires sound { IsSound scope.now.raw.now }
    requires declared { Each (λ (s : Declared). is_name_of (domain_words scope.now.raw.now)
        s.domain.name ≡ true)
        states.now }
    ensures { OnOk result (into.new ≡ into.old ++ map (state_codes scope.now.raw.now) states.now) }
{
    for state in states {
        into.push(state_size(scope, state))?;
    }
    Ok(())
}

// Appends the sizes of what sets state variables: one more each.
fn setter_sizes(scope: &Scope, states: &[RawState], into: &mut VarTable) -> Result<(), NoMemory>
    requires sound { IsSound scope.now.raw.now }
    requires declared { Each (λ (s : Declared). is_name_of (domain_words scope.now.raw.now)
        s.domain.name ≡ true)
        states.now }
    ensures { OnOk result (into.new ≡ into.old
        ++ map (λ s. 1 + state_codes scope.now.raw.now s) states.now) }
{
    for state in states {
        into.push(1 + state_size(scope, state))?;
    }
    Ok(())
}

// The sizes of a machine's variables.
fn var_sizes(alloc: Global, scope: &Scope, machine: &RawMachine) -> Result<VarTable, NoMemory>
    requires sound { IsSound scope.now.raw.now }
    requires declared { Each (λ (s : Declared). is_name_of (domain_words scope.now.raw.now)
        s.domain.name ≡ true)
        machine.now.states }
    ensures { IfOk result (λ vars. vars ≡ var_sizes scope.now.raw.now machine.now) }
{
    let mut vars = VarTable::new(alloc);
    event_sizes(scope, machine.inputs.as_slice(), &mut vars)?;
    state_sizes(scope, machine.states.as_slice(), &mut vars)?;
    Ok(vars)
}

// The sizes of a machine's results.
fn results_of(alloc: Global, scope: &Scope, machine: &RawMachine) -> Result<VarTable, NoMemory>
    requires sound { IsSound scope.now.raw.now }
    requires declared { Each (λ (s : Declared). is_name_of (domain_words scope.now.raw.now)
        s.domain.name ≡ true)
        machine.now.states }
    ensures { IfOk result (λ results. results
        ≡ 2 ∷ map (λ s. 1 + state_codes scope.now.raw.now s) machine.now.states
        ++ map (event_codes scope.now.raw.now) machine.now.outputs) }
{
    let mut results = VarTable::new(alloc);
    results.push(2)?;
    setter_sizes(scope, machine.states.as_slice(), &mut results)?;
    event_sizes(scope, machine.outputs.as_slice(), &mut results)?;
    Ok(results)
}

// The sizes of a machine's variables, and those of its results.
#[derive(Drop)]
pub(crate) struct Sizes {
    pub(crate) vars: VarTable,
    pub(crate) results: VarTable,
}

pub(crate) fn sizes_of(
    alloc: Global,
    scope: &Scope,
    machine: &RawMachine,
) -> Result<Sizes, NoMemory>
    requires sound { IsSound scope.now.raw.now }
    requires declared { Each (λ (s : Declared). is_name_of (domain_words scope.now.raw.now)
        s.domain.name ≡ true)
        machine.now.states }
    ensures vars { IfOk result (λ sizes. sizes.vars ≡ var_sizes scope.now.raw.now machine.now) }
    ensures results { IfOk result (λ sizes. sizes.results
        ≡ 2 ∷ map (λ s. 1 + state_codes scope.now.raw.now s) machine.now.states
        ++ map (event_codes scope.now.raw.now) machine.now.outputs) }
{
    let vars = var_sizes(alloc, scope, machine)?;
    let results = results_of(alloc, scope, machine)?;
    Ok(Sizes { vars, results })
}
