// The names that declarations give.
ghost use Rattle.std.specs.Prelude.{◌≡◌, ◌++◌, ◌∷◌, [], IfOk};
ghost use Rattle.net_names.specs.Scopes.{domain_words, event_words, machine_words, state_words, cond_word};

use crate::gather::{Gather, append, gather_all};
use net_reader::{RawCond, RawDomain, RawEvent, RawMachine, RawNet, RawState, Word};
use polis_base::{List, Name, NoMemory};
use std::alloc::Global;

struct DomainName;

impl Gather<RawDomain> for DomainName {
    ghost words = { λ _ d. d.name ∷ [] };

    fn gather(&self, domain: &RawDomain, into: &mut List<Word>) -> Result<(), NoMemory> {
        into.push(domain.name)
    }
}

struct EventName;

impl Gather<RawEvent> for EventName {
    ghost words = { λ _ e. e.name ∷ [] };

    fn gather(&self, event: &RawEvent, into: &mut List<Word>) -> Result<(), NoMemory> {
        into.push(event.name)
    }
}

struct MachineName;

impl Gather<RawMachine> for MachineName {
    ghost words = { λ _ m. m.name ∷ [] };

    fn gather(&self, machine: &RawMachine, into: &mut List<Word>) -> Result<(), NoMemory> {
        into.push(machine.name)
    }
}

struct StateName;

impl Gather<RawState> for StateName {
    ghost words = { λ _ s. s.name ∷ [] };

    fn gather(&self, state: &RawState, into: &mut List<Word>) -> Result<(), NoMemory> {
        into.push(state.name)
    }
}

/// The names of the domains, in order.
pub fn domain_words(alloc: Global, raw: &RawNet) -> Result<List<Word>, NoMemory>
    ensures { IfOk result (λ words. words ≡ domain_words raw.now) }
{
    gather_all(alloc, &DomainName, &raw.domains)
}

/// The names of the events, in order.
pub fn event_words(alloc: Global, raw: &RawNet) -> Result<List<Word>, NoMemory>
    ensures { IfOk result (λ words. words ≡ event_words raw.now) }
{
    gather_all(alloc, &EventName, &raw.events)
}

/// The names of the machines, in order.
pub fn machine_words(alloc: Global, raw: &RawNet) -> Result<List<Word>, NoMemory>
    ensures { IfOk result (λ words. words ≡ machine_words raw.now) }
{
    gather_all(alloc, &MachineName, &raw.machines)
}

/// The names of a machine's state variables, in order.
pub fn state_words(alloc: Global, machine: &RawMachine) -> Result<List<Word>, NoMemory>
    ensures { IfOk result (λ words. words ≡ state_words machine.now) }
{
    gather_all(alloc, &StateName, &machine.states)
}

/// The names of a machine's variables: its inputs, then its state variables.
pub fn var_words(alloc: Global, machine: &RawMachine) -> Result<List<Word>, NoMemory>
    ensures { IfOk result (λ words. words ≡ machine.now.inputs ++ state_words machine.now) }
{
    let states = state_words(alloc, machine)?;
    let mut words = List::new(alloc);
    append(&machine.inputs, &mut words)?;
    append(&states, &mut words)?;
    Ok(words)
}

/// The name that a condition is about.
pub fn cond_word(cond: &RawCond) -> Word
    ensures { result ≡ cond_word cond.now }
{
    match cond {
        RawCond::Present(name) | RawCond::Absent(name) => *name,
        RawCond::Is { name, .. } | RawCond::OneOf { name, .. } => *name,
    }
}

/// The name that a condition is about, where it stands.
pub fn cond_name(cond: &RawCond) -> &Name
    ensures { result.now ≡ (cond_word cond.now).name }
{
    match cond {
        RawCond::Present(word) => &word.name,
        RawCond::Absent(word) => &word.name,
        RawCond::Is { name: word, .. } => &word.name,
        RawCond::OneOf { name: word, .. } => &word.name,
    }
}
