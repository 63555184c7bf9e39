// Which domains are used.
ghost use Rattle.std.specs.Prelude.{◌≡◌, ◌∷◌, ◌++◌, [], cond, not, IfOk, OnErr, OnOk};
ghost use Rattle.std.specs.List.{list_any};
ghost use Rattle.table_use.specs.DomainUse.{event_has, is_domain_used, machine_has, state_has, unused_domain_line, unused_domains};

use polis_base::{Bytes, NoMemory, Numbers};
use std::alloc::Global;
use transition_table::{EventDecl, Machine, Network};

// Whether an event has the domain.
fn event_has(d: u32, event: &EventDecl) -> bool
    ensures { result ≡ event_has d event.now }
{
    match event.domain {
        Some(k) => k == d,
        None => false,
    }
}

// Whether a state variable of a machine has the domain.
fn machine_has(d: u32, machine: &Machine) -> bool
    ensures { result ≡ machine_has d machine.now }
{
    machine
        .states
        .as_slice()
        .iter()
        .any(|variable| variable.domain == d)
}

fn some_event_has(d: u32, net: &Network) -> bool
    ensures { result ≡ list_any (event_has d) net.now.events }
{
    net.events
        .as_slice()
        .iter()
        .any(|event| event_has(d, event))
}

fn some_machine_has(d: u32, net: &Network) -> bool
    ensures { result ≡ list_any (machine_has d) net.now.machines }
{
    net.machines
        .as_slice()
        .iter()
        .any(|machine| machine_has(d, machine))
}

// Whether some event or state variable has the domain.
fn is_domain_used(net: &Network, d: u32) -> bool
    ensures { result ≡ is_domain_used net.now d }
{
    some_event_has(d, net) || some_machine_has(d, net)
}

// Puts a domain at the end, where none has it.
fn add_unused(net: &Network, d: u32, unused: &mut Numbers) -> Result<(), NoMemory>
    ensures { OnOk result (unused.new
        ≡ unused.old ++ cond (not (is_domain_used net.now d)) (d ∷ []) []) }
{
    if !is_domain_used(net, d) {
        unused.push(d)?;
    }
    Ok(())
}

/// The numbers of the domains that no event and no state variable has.
pub fn unused_domains(alloc: Global, net: &Network) -> Result<Numbers, NoMemory>
    ensures { IfOk result (λ domains. domains ≡ unused_domains net.now) }
{
    let mut unused = Numbers::new(alloc);
    for d in 0..net.domains.len() as u32 {
        add_unused(net, d, &mut unused)?;
    }
    Ok(unused)
}

// Appends `domain D unused`.
fn push_line(name: &[u8], into: &mut Bytes) -> Result<(), NoMemory>
    ensures { OnOk result (into.new ≡ into.old ++ unused_domain_line name.now) }
{
    into.push(b"domain ")?;
    into.push(name)?;
    into.push(b" unused\n")
}

/// Appends the line of a domain of this name that none has. A network has no names of its domains,
/// the declarations that it is made of do.
pub fn push_unused_domain(name: &[u8], into: &mut Bytes) -> Result<(), NoMemory>
    ensures ok { OnOk result (into.new ≡ into.old ++ unused_domain_line name.now) }
    ensures err { OnErr result (into.new ≡ into.old) }
{
    let mut text = into.beside();
    push_line(name, &mut text)?;
    into.push(text.as_slice())
}
