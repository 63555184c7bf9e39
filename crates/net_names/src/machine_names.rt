// What the names of a machine stand for.
ghost use Rattle.std.specs.Prelude.{◌≡◌, ◌∷◌, ◌++◌, ℕ, List, option_copied, IfOk};
ghost use Rattle.net_names.specs.Numbers.{names_of, number_in, is_name_of, number};
ghost use Rattle.net_names.specs.Tables.{number_at, has};
ghost use Rattle.net_names.specs.Scopes.{state_words, state_domain, var_domain, event_domain, shape_at, shape_of};

use crate::names::{state_words, var_words};
use crate::scope::Scope;
use crate::table::{Table, number_all};
use net_reader::{RawMachine, RawShape, Word};
use polis_base::{Name, NoMemory};
use std::alloc::Global;

/// A machine of the declarations, with the numbers of its names.
#[derive(Drop)]
pub struct MachineNames<'s, 'a> {
    /// The names of the declarations that it is one of.
    pub scope: &'s Scope<'a>,
    /// The machine.
    pub machine: &'a RawMachine,
    inputs: Table,
    outputs: Table,
    states: Table,
    variables: Table,
    pub ghost input_names: { has inputs ≡ is_name_of machine.now.inputs },
    pub ghost output_names: { has outputs ≡ is_name_of machine.now.outputs },
    pub ghost state_names: { has states ≡ is_name_of (state_words machine.now) },
    pub ghost output_numbers: { (name : List ℕ) → number_at outputs name ≡ number_in (names_of machine.now.outputs) name },
    pub ghost state_numbers: { (name : List ℕ) → number_at states name ≡ number_in (names_of (state_words machine.now)) name },
    pub ghost variable_names: { has variables ≡ is_name_of (machine.now.inputs ++ state_words machine.now) },
    pub ghost variable_numbers: { (name : List ℕ) → number_at variables name ≡ number_in (names_of (machine.now.inputs ++ state_words machine.now)) name },
}

// The number of each state variable by its name.
fn number_states(alloc: Global, machine: &RawMachine) -> Result<Table, NoMemory>
    ensures numbers { IfOk result (λ table. (name : List ℕ)
        → number_at table name ≡ number_in (names_of (state_words machine.now)) name) }
    ensures names { IfOk result (λ table. has table ≡ is_name_of (state_words machine.now)) }
{
    let words = state_words(alloc, machine)?;
    let table = number_all(alloc, &words)?;
    Ok(table)
}

// The number of each variable by its name: the inputs, then the state variables.
fn number_variables(alloc: Global, machine: &RawMachine) -> Result<Table, NoMemory>
    ensures numbers { IfOk result (λ table. (name : List ℕ)
        → number_at table name
        ≡ number_in (names_of (machine.now.inputs ++ state_words machine.now)) name) }
    ensures names { IfOk result (λ table. has table
        ≡ is_name_of (machine.now.inputs ++ state_words machine.now)) }
{
    let words = var_words(alloc, machine)?;
    let table = number_all(alloc, &words)?;
    Ok(table)
}

impl<'s, 'a> MachineNames<'s, 'a> {
    /// The names of a machine of these declarations.
    pub fn new(
        alloc: Global,
        scope: &'s Scope<'a>,
        machine: &'a RawMachine,
    ) -> Result<MachineNames<'s, 'a>, NoMemory>
        ensures scope { IfOk result (λ names. names.scope.now ≡ scope.now) }
        ensures machine { IfOk result (λ names. names.machine.now ≡ machine.now) }
    {
        let inputs = number_all(alloc, &machine.inputs)?;
        let outputs = number_all(alloc, &machine.outputs)?;
        let states = number_states(alloc, machine)?;
        let variables = number_variables(alloc, machine)?;
        Ok(MachineNames {
            scope,
            machine,
            inputs,
            outputs,
            states,
            variables,
        })
    }

    /// Whether the name is that of an input.
    pub fn is_input(&self, name: Name) -> bool
        ensures { result ≡ is_name_of self.now.machine.now.inputs name }
    {
        self.inputs.has(name)
    }

    /// Whether the name is that of a state variable.
    pub fn is_state(&self, name: Name) -> bool
        ensures { result ≡ is_name_of (state_words self.now.machine.now) name }
    {
        self.states.has(name)
    }

    /// Whether the name is that of an input or of a state variable.
    pub fn is_variable(&self, name: Name) -> bool
        ensures { result
            ≡ is_name_of (self.now.machine.now.inputs ++ state_words self.now.machine.now) name }
    {
        self.variables.has(name)
    }

    /// The names of the outputs.
    pub fn outputs(&self) -> &Table
        ensures { has result.now ≡ is_name_of self.now.machine.now.outputs }
    {
        &self.outputs
    }

    /// The names of the state variables.
    pub fn states(&self) -> &Table
        ensures { has result.now ≡ is_name_of (state_words self.now.machine.now) }
    {
        &self.states
    }

    /// The name of a state variable's domain.
    pub fn state_domain(&self, name: Name) -> Option<Word>
        ensures { result ≡ state_domain self.now.machine.now name }
    {
        match self.states.number(name) {
            Some(number) => Some(self.machine.states.get(number).domain),
            None => None,
        }
    }

    /// The name of the domain of a state variable, or else of an event.
    pub fn variable_domain(&self, name: Name) -> Option<Word>
        ensures { result ≡ var_domain self.now.scope.now.raw.now self.now.machine.now name }
    {
        if self.is_state(name) {
            self.state_domain(name)
        } else {
            self.scope.event_domain(name)
        }
    }

    /// The values of the domain of this name, if one is named.
    pub fn shape_at(&self, domain: Option<Word>) -> Option<&'a RawShape>
        ensures { option_copied result ≡ shape_at self.now.scope.now.raw.now domain }
    {
        match domain {
            Some(word) => self.scope.shape_of(word.name),
            None => None,
        }
    }

    /// The number of a variable by its name, if it is one. The variable of this number and the next
    /// two are tried first.
    pub fn variable_from(&self, first: u64, name: &Name) -> Option<u64>
        ensures { result
            ≡ number_in (names_of (self.now.machine.now.inputs
            ++ state_words self.now.machine.now)) name.now }
    {
        self.variables.number_from(first, name)
    }

    /// The number of a variable by its name, 0 where it is none.
    pub fn variable_number(&self, name: Name) -> u64
        ensures { result
            ≡ number (self.now.machine.now.inputs ++ state_words self.now.machine.now) name }
    {
        match self.variables.number(name) {
            Some(number) => number,
            None => 0,
        }
    }

    /// The number of a variable by its name, 0 where it is none. The variable of this number and
    /// the next two are tried first.
    pub fn variable_number_from(&self, first: u64, name: &Name) -> u64
        ensures { result
            ≡ number (self.now.machine.now.inputs ++ state_words self.now.machine.now) name.now }
    {
        match self.variables.number_from(first, name) {
            Some(number) => number,
            None => 0,
        }
    }

    /// The number of a state variable by its name, 0 where it is none.
    pub fn state_number(&self, name: Name) -> u64
        ensures { result ≡ number (state_words self.now.machine.now) name }
    {
        match self.states.number(name) {
            Some(number) => number,
            None => 0,
        }
    }

    /// The number of an output by its name, 0 where it is none.
    pub fn output_number(&self, name: Name) -> u64
        ensures { result ≡ number self.now.machine.now.outputs name }
    {
        match self.outputs.number(name) {
            Some(number) => number,
            None => 0,
        }
    }
}
