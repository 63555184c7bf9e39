// What the names of a network stand for.
ghost use Rattle.std.specs.Prelude.{◌≡◌, ◌<◌, ◌≤◌, ℕ, List, length, slice_get, Some, None, option_copied, IfOk, IfSome};
ghost use Rattle.polis_base.specs.declared.limits.TheConstants.{DOMAINS_MAX, EVENTS_MAX};
ghost use Rattle.std.specs.Option.{option_map};
ghost use Rattle.net_reader.specs.declared.raw.Word.{Word as RawWord};
ghost use Rattle.net_names.specs.Numbers.{number, names_of, number_in};
ghost use Rattle.net_names.specs.Tables.{number_at};
ghost use Rattle.net_names.specs.Scopes.{domain_words, event_words, shape_of, event_domain};

use crate::names::{domain_words, event_words};
use crate::table::{Table, number_all};
use net_reader::{RawNet, RawShape, Word};
use polis_base::{Name, NoMemory};
use std::alloc::Global;

/// The declarations, with the numbers of the domains and of the events.
#[derive(Drop)]
pub struct Scope<'a> {
    /// The declarations.
    pub raw: &'a RawNet,
    domains: Table,
    events: Table,
    pub ghost domain_numbers: { (name : List ℕ) → number_at domains name ≡ number_in (names_of (domain_words raw.now)) name },
    pub ghost event_numbers: { (name : List ℕ) → number_at events name ≡ number_in (names_of (event_words raw.now)) name },
}

// The number of each domain by its name.
fn number_domains(alloc: Global, raw: &RawNet) -> Result<Table, NoMemory>
    ensures { IfOk result (λ table. (name : List ℕ)
        → number_at table name ≡ number_in (names_of (domain_words raw.now)) name) }
{
    let words = domain_words(alloc, raw)?;
    let table = number_all(alloc, &words)?;
    Ok(table)
}

// The number of each event by its name.
fn number_events(alloc: Global, raw: &RawNet) -> Result<Table, NoMemory>
    ensures { IfOk result (λ table. (name : List ℕ)
        → number_at table name ≡ number_in (names_of (event_words raw.now)) name) }
{
    let words = event_words(alloc, raw)?;
    let table = number_all(alloc, &words)?;
    Ok(table)
}

impl<'a> Scope<'a> {
    /// The names of these declarations.
    pub fn new(alloc: Global, raw: &'a RawNet) -> Result<Scope<'a>, NoMemory>
        ensures { IfOk result (λ scope. scope.raw.now ≡ raw.now) }
    {
        let domains = number_domains(alloc, raw)?;
        let events = number_events(alloc, raw)?;
        Ok(Scope {
            raw,
            domains,
            events,
        })
    }

    /// The values of the domain of this name.
    pub fn shape_of(&self, name: Name) -> Option<&'a RawShape>
        ensures { option_copied result ≡ shape_of self.now.raw.now name }
    {
        match self.domains.number(name) {
            Some(number) => Some(&self.raw.domains.get(number).shape),
            None => None,
        }
    }

    /// The name of an event's domain, where it has one.
    pub fn event_domain(&self, name: Name) -> Option<Word>
        ensures { result ≡ event_domain self.now.raw.now name }
    {
        match self.events.number(name) {
            Some(number) => self.raw.events.get(number).domain,
            None => None,
        }
    }

    /// The number of a domain by its name, 0 where it isn't declared.
    pub fn number_of(&self, name: Name) -> u32
        requires { length self.now.raw.now.domains ≤ DOMAINS_MAX }
        ensures { result ≡ number (domain_words self.now.raw.now) name }
    {
        match self.domains.number(name) {
            Some(number) => number as u32,
            None => 0,
        }
    }

    /// The number of an event by its name, 0 where it isn't declared.
    pub fn event_number(&self, name: Name) -> u32
        requires { length self.now.raw.now.events ≤ EVENTS_MAX }
        ensures { result ≡ number (event_words self.now.raw.now) name }
    {
        match self.events.number(name) {
            Some(number) => number as u32,
            None => 0,
        }
    }

    /// The number of a domain by its name, if one is named.
    pub fn domain_number(&self, domain: Option<Word>) -> Option<u32>
        requires { length self.now.raw.now.domains ≤ DOMAINS_MAX }
        ensures { result
            ≡ option_map (λ (w : RawWord). number (domain_words self.now.raw.now) w.name) domain }
    {
        match domain {
            Some(word) => Some(self.number_of(word.name)),
            None => None,
        }
    }
}
