// The network of declarations.
ghost use Rattle.std.specs.Prelude.{◌≡◌, [], map, None, IfOk, IfErr, OnOk};
ghost use Rattle.transition_table.specs.declared.network.Network.{Network as Made};
ghost use Rattle.rule_judge.specs.Judged.{broken};
ghost use Rattle.net_rules.specs.NetOf.{IsNetOf};
ghost use Rattle.net_rules.specs.Networks.{IsNetworkOf, event_of};
ghost use Rattle.net_reader.specs.Layout.{IsOfSentence};
ghost use Rattle.net_rules.specs.inner.Sound.{IsSound, with_machines};
ghost use Rattle.net_rules.specs.Resolved.{IsFaultOf};

use crate::domain_list::domains_of;
use crate::events::events_of;
use crate::machine_list::{machines_from, machines_of};
use net_names::{Scope, names_of_machines};
use net_reader::{RawMachineList, RawNet};
use polis_base::{List, NoMemory};
use rule_judge::{judge_declarations, judge_machines};
use std::alloc::Global;
use thiserror::Error;
use transition_table::{EventList, Network};

/// Why declarations give no network.
#[derive(Clone, Copy, Debug, Error)]
pub enum ResolveFault {
    /// The first rule that is broken, and the least place where it is.
    #[error("Rule")]
    Rule {
        /// The number of the rule.
        rule: u8,
        /// The byte place that is shown.
        place: u64,
    },
    /// Memory ran out.
    #[error("NoMemory")]
    NoMemory,
}

impl From<NoMemory> for ResolveFault {
    ghost use Rattle.net_rules.specs.declared.resolving.ResolveFault.{ResolveFault};

    ghost from_gives = { λ _ fault. fault ≡ ResolveFault.NoMemory };

    fn from(_: NoMemory) -> ResolveFault {
        ResolveFault::NoMemory
    }
}

// The events of declarations that keep the rules, or the first rule that they break.
fn judged_events(alloc: Global, raw: &RawNet) -> Result<EventList, ResolveFault>
    requires { IsOfSentence raw.now }
    ensures kept { OnOk result (broken raw.now ≡ None) }
    ensures events { IfOk result (λ events. events ≡ map (event_of raw.now) raw.now.events) }
    ensures fault { IfErr result (λ fault. IsFaultOf raw.now fault) }
{
    if let Some(broken) = judge_declarations(alloc, raw)? {
        return Err(ResolveFault::Rule {
            rule: broken.rule,
            place: broken.place,
        });
    }
    let scope = Scope::new(alloc, raw)?;
    let machines = names_of_machines(alloc, &scope)?;
    if let Some(broken) = judge_machines(alloc, &scope, &machines)? {
        return Err(ResolveFault::Rule {
            rule: broken.rule,
            place: broken.place,
        });
    }
    let events = events_of(alloc, &scope)?;
    Ok(events)
}

// The network of declarations that keep the rules, from its events.
fn network_of(alloc: Global, raw: &RawNet, events: EventList) -> Result<Network, NoMemory>
    requires sound { IsSound raw.now }
    requires events { events ≡ map (event_of raw.now) raw.now.events }
    ensures { IfOk result (λ net. IsNetworkOf raw.now net) }
{
    let scope = Scope::new(alloc, raw)?;
    let domains = domains_of(alloc, raw.domains.as_slice())?;
    let machines = machines_of(alloc, &scope, raw.machines.as_slice())?;
    Ok(Network {
        name: raw.name.name,
        domains,
        events,
        machines,
    })
}

// The same of declarations that are given up, which stand in two parts: `raw` has no machines.
fn network_from(
    alloc: Global,
    raw: RawNet,
    machines: RawMachineList,
    events: EventList,
) -> Result<Network, NoMemory>
    requires bare { raw.machines ≡ [] }
    requires sound { IsSound (with_machines raw machines) }
    requires events { events ≡ map (event_of (with_machines raw machines)) raw.events }
    ensures { IfOk result (λ net. IsNetworkOf (with_machines raw machines) net) }
{
    let scope = Scope::new(alloc, &raw)?;
    let domains = domains_of(alloc, raw.domains.as_slice())?;
    let machines = machines_from(alloc, &scope, machines)?;
    Ok(Network {
        name: raw.name.name,
        domains,
        events,
        machines,
    })
}

/// The network that declarations give, or the first rule that they break.
pub fn resolve(alloc: Global, raw: &RawNet) -> Result<Network, ResolveFault>
    requires { IsOfSentence raw.now }
    ensures net { IfOk result (λ net. IsNetOf raw.now net) }
    ensures only { IfOk result (λ net. (other : Made) → IsNetOf raw.now other → other ≡ net) }
    ensures fault { IfErr result (λ fault. IsFaultOf raw.now fault) }
{
    let events = judged_events(alloc, raw)?;
    let net = network_of(alloc, raw, events)?;
    Ok(net)
}

/// The same of declarations that are given up: those of a machine go once its tables stand.
pub fn resolve_whole(alloc: Global, raw: RawNet) -> Result<Network, ResolveFault>
    requires { IsOfSentence raw }
    ensures net { IfOk result (λ net. IsNetOf raw net) }
    ensures only { IfOk result (λ net. (other : Made) → IsNetOf raw other → other ≡ net) }
    ensures fault { IfErr result (λ fault. IsFaultOf raw fault) }
{
    let events = judged_events(alloc, &raw)?;
    let RawNet {
        name,
        version,
        domains,
        events: declared,
        machines,
    } = raw;
    let bare = RawNet {
        name,
        version,
        domains,
        events: declared,
        machines: List::new(alloc),
    };
    let net = network_from(alloc, bare, machines, events)?;
    Ok(net)
}
