// Rules on the inputs, outputs and state variables of machines.
ghost use Rattle.std.specs.Prelude.{◌≡◌, ◌∷◌, [], ◌++◌, map, filter, not, IfOk};
ghost use Rattle.net_names.specs.Places.{least_place};
ghost use Rattle.net_names.specs.Scopes.{is_from_env, is_to_env, all_inputs, all_outputs};
ghost use Rattle.rule_judge.specs.Rules.{rule_8, rule_9, rule_11, rule_12, rule_13, is_small, events_where};

use crate::checks::{Check, check_all};
use crate::words::{missing, repeated, repeats};
use net_names::{
    Gather, append, gather_all, is_from_env, is_to_env, number_all, state_words, unless,
};
use net_reader::{RawEvent, RawMachine, RawNet, Word};
use polis_base::limits::{INPUTS_MAX, OUTPUTS_MAX, ROWS_MAX, STATES_MAX};
use polis_base::{List, NoMemory};
use std::alloc::Global;

// The inputs of a machine, then its outputs.
fn port_words(alloc: Global, machine: &RawMachine) -> Result<List<Word>, NoMemory>
    ensures { IfOk result (λ words. words ≡ machine.now.inputs ++ machine.now.outputs) }
{
    let mut words = List::new(alloc);
    append(&machine.inputs, &mut words)?;
    append(&machine.outputs, &mut words)?;
    Ok(words)
}

#[derive(Drop)]
struct Once {
    alloc: Global,
}

impl Check<RawMachine> for Once {
    ghost use Rattle.std.specs.Prelude.{◌++◌};
    ghost use Rattle.net_names.specs.Numbers.{repeated, no_name, is_name_of};
    ghost use Rattle.net_names.specs.Scopes.{state_words};

    ghost places = { λ _ m. repeated no_name m.inputs ++ repeated no_name m.outputs ++ repeated (is_name_of (m.inputs ++ m.outputs)) (state_words m) };

    fn check(&self, machine: &RawMachine, found: Option<u64>) -> Result<Option<u64>, NoMemory> {
        let taken = port_words(self.alloc, machine)?;
        let states = state_words(self.alloc, machine)?;
        let found = repeats(self.alloc, &machine.inputs, found)?;
        let found = repeats(self.alloc, &machine.outputs, found)?;
        repeated(self.alloc, &taken, &states, found)
    }
}

pub(crate) fn rule_8(alloc: Global, raw: &RawNet) -> Result<Option<u64>, NoMemory>
    ensures { IfOk result (λ place. place ≡ least_place (rule_8 raw.now)) }
{
    check_all(&Once { alloc }, &raw.machines, None)
}

// Whether the lists of a machine are within the limits.
fn is_small(machine: &RawMachine) -> bool
    ensures { result ≡ is_small machine.now }
{
    machine.inputs.len() <= INPUTS_MAX
        && machine.outputs.len() <= OUTPUTS_MAX
        && machine.states.len() <= STATES_MAX
        && machine.rows.len() <= ROWS_MAX
}

struct Small;

impl Check<RawMachine> for Small {
    ghost use Rattle.net_names.specs.Places.{unless};
    ghost use Rattle.rule_judge.specs.Rules.{is_small};

    ghost places = { λ _ m. unless (is_small m) m.name.at };

    fn check(&self, machine: &RawMachine, found: Option<u64>) -> Result<Option<u64>, NoMemory> {
        Ok(unless(is_small(machine), machine.name.at, found))
    }
}

pub(crate) fn rule_9(raw: &RawNet) -> Result<Option<u64>, NoMemory>
    ensures { IfOk result (λ place. place ≡ least_place (rule_9 raw.now)) }
{
    check_all(&Small, &raw.machines, None)
}

struct Inputs;

impl Gather<RawMachine> for Inputs {
    ghost words = { λ _ m. m.inputs };

    fn gather(&self, machine: &RawMachine, into: &mut List<Word>) -> Result<(), NoMemory> {
        append(&machine.inputs, into)
    }
}

struct Outputs;

impl Gather<RawMachine> for Outputs {
    ghost words = { λ _ m. m.outputs };

    fn gather(&self, machine: &RawMachine, into: &mut List<Word>) -> Result<(), NoMemory> {
        append(&machine.outputs, into)
    }
}

fn all_inputs(alloc: Global, raw: &RawNet) -> Result<List<Word>, NoMemory>
    ensures { IfOk result (λ words. words ≡ all_inputs raw.now) }
{
    gather_all(alloc, &Inputs, &raw.machines)
}

fn all_outputs(alloc: Global, raw: &RawNet) -> Result<List<Word>, NoMemory>
    ensures { IfOk result (λ words. words ≡ all_outputs raw.now) }
{
    gather_all(alloc, &Outputs, &raw.machines)
}

struct FromEnv;

impl Gather<RawEvent> for FromEnv {
    ghost use Rattle.std.specs.Prelude.{cond};
    ghost use Rattle.net_names.specs.Scopes.{is_from_env};

    ghost words = { λ _ e. cond (is_from_env e.env) (e.name ∷ []) [] };

    fn gather(&self, event: &RawEvent, into: &mut List<Word>) -> Result<(), NoMemory> {
        if is_from_env(event.env) {
            into.push(event.name)
        } else {
            Ok(())
        }
    }
}

struct NotFromEnv;

impl Gather<RawEvent> for NotFromEnv {
    ghost use Rattle.std.specs.Prelude.{cond, not};
    ghost use Rattle.net_names.specs.Scopes.{is_from_env};

    ghost words = { λ _ e. cond (not (is_from_env e.env)) (e.name ∷ []) [] };

    fn gather(&self, event: &RawEvent, into: &mut List<Word>) -> Result<(), NoMemory> {
        if is_from_env(event.env) {
            Ok(())
        } else {
            into.push(event.name)
        }
    }
}

struct NotToEnv;

impl Gather<RawEvent> for NotToEnv {
    ghost use Rattle.std.specs.Prelude.{cond, not};
    ghost use Rattle.net_names.specs.Scopes.{is_to_env};

    ghost words = { λ _ e. cond (not (is_to_env e.env)) (e.name ∷ []) [] };

    fn gather(&self, event: &RawEvent, into: &mut List<Word>) -> Result<(), NoMemory> {
        if is_to_env(event.env) {
            Ok(())
        } else {
            into.push(event.name)
        }
    }
}

fn from_env(alloc: Global, raw: &RawNet) -> Result<List<Word>, NoMemory>
    ensures { IfOk result (λ words. words ≡ events_where (λ env. is_from_env env) raw.now) }
{
    gather_all(alloc, &FromEnv, &raw.events)
}

fn not_from_env(alloc: Global, raw: &RawNet) -> Result<List<Word>, NoMemory>
    ensures { IfOk result (λ words. words ≡ events_where (λ env. not (is_from_env env)) raw.now) }
{
    gather_all(alloc, &NotFromEnv, &raw.events)
}

fn not_to_env(alloc: Global, raw: &RawNet) -> Result<List<Word>, NoMemory>
    ensures { IfOk result (λ words. words ≡ events_where (λ env. not (is_to_env env)) raw.now) }
{
    gather_all(alloc, &NotToEnv, &raw.events)
}

pub(crate) fn rule_11(alloc: Global, raw: &RawNet) -> Result<Option<u64>, NoMemory>
    ensures { IfOk result (λ place. place ≡ least_place (rule_11 raw.now)) }
{
    let taken = from_env(alloc, raw)?;
    let words = all_outputs(alloc, raw)?;
    repeated(alloc, &taken, &words, None)
}

pub(crate) fn rule_12(alloc: Global, raw: &RawNet) -> Result<Option<u64>, NoMemory>
    ensures { IfOk result (λ place. place ≡ least_place (rule_12 raw.now)) }
{
    let sent = all_outputs(alloc, raw)?;
    let sent = number_all(alloc, &sent)?;
    let words = not_from_env(alloc, raw)?;
    Ok(missing(&sent, &words, None))
}

pub(crate) fn rule_13(alloc: Global, raw: &RawNet) -> Result<Option<u64>, NoMemory>
    ensures { IfOk result (λ place. place ≡ least_place (rule_13 raw.now)) }
{
    let read = all_inputs(alloc, raw)?;
    let read = number_all(alloc, &read)?;
    let words = not_to_env(alloc, raw)?;
    Ok(missing(&read, &words, None))
}
