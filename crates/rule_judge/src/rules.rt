// The rules, one function for each: the least place where it is broken.
ghost use Rattle.std.specs.Prelude.{◌≡◌, ◌==◌, ◌||◌, ◌∷◌, [], nat_le, option_to_list, map, IfOk};
ghost use Rattle.polis_base.specs.declared.limits.TheConstants.{DOMAIN_SIZE_MAX, PRIORITY_MAX};
ghost use Rattle.net_reader.specs.declared.raw.Word.{Word};
ghost use Rattle.net_names.specs.Places.{unless, least_place};
ghost use Rattle.rule_judge.specs.Rules.{rule_1, rule_2, rule_3, rule_4, rule_5, rule_6, rule_7, rule_10, used_domains};

use crate::checks::{Check, check_all};
use crate::words::{beyond, missing, repeats};
use net_names::{
    Gather, Table, count_of, domain_words, event_words, gather_into, machine_words, number_all,
    unless,
};
use net_reader::{RawDomain, RawEvent, RawMachine, RawNet, RawShape, RawState, Word};
use polis_base::limits::{DOMAIN_SIZE_MAX, DOMAINS_MAX, EVENTS_MAX, MACHINES_MAX, PRIORITY_MAX};
use polis_base::{List, NoMemory};
use std::alloc::Global;

// Whether a version is one of the two.
fn is_known(version: u32) -> bool
    ensures { result ≡ (version == 1 || version == 2) }
{
    version == 1 || version == 2
}

pub(crate) fn rule_1(raw: &RawNet) -> Option<u64>
    ensures { result ≡ least_place (rule_1 raw.now) }
{
    unless(is_known(raw.version.number), raw.version.at, None)
}

// The places of the first declarations beyond the limits.
pub(crate) fn rule_2(alloc: Global, raw: &RawNet) -> Result<Option<u64>, NoMemory>
    ensures { IfOk result (λ place. place ≡ least_place (rule_2 raw.now)) }
{
    let domains = domain_words(alloc, raw)?;
    let events = event_words(alloc, raw)?;
    let machines = machine_words(alloc, raw)?;
    let found = beyond(&domains, DOMAINS_MAX, None);
    let found = beyond(&events, EVENTS_MAX, found);
    Ok(beyond(&machines, MACHINES_MAX, found))
}

pub(crate) fn rule_3(alloc: Global, raw: &RawNet) -> Result<Option<u64>, NoMemory>
    ensures { IfOk result (λ place. place ≡ least_place (rule_3 raw.now)) }
{
    let domains = domain_words(alloc, raw)?;
    let events = event_words(alloc, raw)?;
    let machines = machine_words(alloc, raw)?;
    let found = repeats(alloc, &domains, None)?;
    let found = repeats(alloc, &events, found)?;
    repeats(alloc, &machines, found)
}

#[derive(Drop)]
struct Order {
    alloc: Global,
}

impl Check<RawDomain> for Order {
    ghost use Rattle.rule_judge.specs.Rules.{disorder};

    ghost places = { λ _ d. disorder d.shape };

    fn check(&self, domain: &RawDomain, found: Option<u64>) -> Result<Option<u64>, NoMemory> {
        match &domain.shape {
            RawShape::Names(words) => repeats(self.alloc, words, found),
            RawShape::Range { first, last } => {
                Ok(unless(first.number <= last.number, last.at, found))
            }
        }
    }
}

pub(crate) fn rule_4(alloc: Global, raw: &RawNet) -> Result<Option<u64>, NoMemory>
    ensures { IfOk result (λ place. place ≡ least_place (rule_4 raw.now)) }
{
    check_all(&Order { alloc }, &raw.domains, None)
}

struct Few;

impl Check<RawDomain> for Few {
    ghost use Rattle.std.specs.Prelude.{nat_le};
    ghost use Rattle.net_names.specs.Places.{unless};
    ghost use Rattle.net_names.specs.Values.{count_of};

    ghost places = { λ _ d. unless (nat_le (count_of d.shape) DOMAIN_SIZE_MAX) d.name.at };

    fn check(&self, domain: &RawDomain, found: Option<u64>) -> Result<Option<u64>, NoMemory> {
        Ok(unless(
            count_of(&domain.shape) <= DOMAIN_SIZE_MAX,
            domain.name.at,
            found,
        ))
    }
}

pub(crate) fn rule_5(raw: &RawNet) -> Result<Option<u64>, NoMemory>
    ensures { IfOk result (λ place. place ≡ least_place (rule_5 raw.now)) }
{
    check_all(&Few, &raw.domains, None)
}

struct EventDomain;

impl Gather<RawEvent> for EventDomain {
    ghost use Rattle.std.specs.Prelude.{option_to_list};

    ghost words = { λ _ e. option_to_list e.domain };

    fn gather(&self, event: &RawEvent, into: &mut List<Word>) -> Result<(), NoMemory> {
        match event.domain {
            Some(word) => into.push(word),
            None => Ok(()),
        }
    }
}

struct StateDomain;

impl Gather<RawState> for StateDomain {
    ghost words = { λ _ s. s.domain ∷ [] };

    fn gather(&self, state: &RawState, into: &mut List<Word>) -> Result<(), NoMemory> {
        into.push(state.domain)
    }
}

struct StateDomains;

impl Gather<RawMachine> for StateDomains {
    ghost use Rattle.std.specs.Prelude.{flat_map};
    ghost use Rattle.net_reader.specs.declared.raw.RawState.{RawState};

    ghost words = { λ _ m. flat_map (λ (s : RawState). s.domain ∷ []) m.states };

    fn gather(&self, machine: &RawMachine, into: &mut List<Word>) -> Result<(), NoMemory> {
        gather_into(&StateDomain, &machine.states, into)
    }
}

fn used_domains(alloc: Global, raw: &RawNet) -> Result<List<Word>, NoMemory>
    ensures { IfOk result (λ words. words ≡ used_domains raw.now) }
{
    let mut words = List::new(alloc);
    gather_into(&EventDomain, &raw.events, &mut words)?;
    gather_into(&StateDomains, &raw.machines, &mut words)?;
    Ok(words)
}

pub(crate) fn rule_6(alloc: Global, raw: &RawNet) -> Result<Option<u64>, NoMemory>
    ensures { IfOk result (λ place. place ≡ least_place (rule_6 raw.now)) }
{
    let domains = domain_words(alloc, raw)?;
    let declared = number_all(alloc, &domains)?;
    let words = used_domains(alloc, raw)?;
    Ok(missing(&declared, &words, None))
}

// The names of events.
#[derive(Drop)]
struct Ports {
    events: Table,
}

impl Check<RawMachine> for Ports {
    ghost use Rattle.std.specs.Prelude.{◌++◌};
    ghost use Rattle.net_names.specs.Numbers.{missing};
    ghost use Rattle.net_names.specs.Tables.{has};

    ghost places = { λ p m. missing (has p.events) (m.inputs ++ m.outputs) };

    fn check(&self, machine: &RawMachine, found: Option<u64>) -> Result<Option<u64>, NoMemory> {
        let found = missing(&self.events, &machine.inputs, found);
        Ok(missing(&self.events, &machine.outputs, found))
    }
}

pub(crate) fn rule_7(alloc: Global, raw: &RawNet) -> Result<Option<u64>, NoMemory>
    ensures { IfOk result (λ place. place ≡ least_place (rule_7 raw.now)) }
{
    let words = event_words(alloc, raw)?;
    let events = number_all(alloc, &words)?;
    check_all(&Ports { events }, &raw.machines, None)
}

struct Priority;

impl Check<RawMachine> for Priority {
    ghost use Rattle.std.specs.Prelude.{nat_le};
    ghost use Rattle.net_names.specs.Places.{unless};

    ghost places = { λ _ m. unless (nat_le m.priority.number PRIORITY_MAX) m.priority.at };

    fn check(&self, machine: &RawMachine, found: Option<u64>) -> Result<Option<u64>, NoMemory> {
        Ok(unless(
            (machine.priority.number as u64) <= PRIORITY_MAX,
            machine.priority.at,
            found,
        ))
    }
}

pub(crate) fn rule_10(raw: &RawNet) -> Result<Option<u64>, NoMemory>
    ensures { IfOk result (λ place. place ≡ least_place (rule_10 raw.now)) }
{
    check_all(&Priority, &raw.machines, None)
}
