// What the types of a network keep of its names.
ghost use Rattle.std.specs.Prelude.{IsTrue};
ghost use Rattle.std.specs.List.{list_all};
ghost use Rattle.polis_base.specs.Names.{is_name};
ghost use Rattle.journal_text.specs.Holding.{values_hold, machine_holds, names_hold, has_name_token, state_has_name};

use domains::{Domain, NameList};
use transition_table::{EventDecl, Machine, Network, StateDecl};

// Each name is a name token.
fn keep_tokens(names: &NameList)
    ensures { IsTrue (list_all is_name names.now) }
{
    for i in 0..names.len() {
        let _token = names.get(i).bytes();
    }
}

// The values are distinct name tokens, or numbers of 32 bits.
fn keep_values(domain: &Domain)
    ensures { IsTrue (values_hold domain.now) }
{
    let _size = domain.size();
    match domain {
        Domain::Names(names) => keep_tokens(names),
        Domain::Range(span) => {
            let _last = span.last;
        }
    }
}

fn keep_domains(domains: &[Domain])
    ensures { IsTrue (list_all values_hold domains.now) }
{
    for domain in domains {
        keep_values(domain);
    }
}

fn keep_events(events: &[EventDecl])
    ensures { IsTrue (list_all has_name_token events.now) }
{
    for event in events {
        let _token = event.name.bytes();
    }
}

fn keep_states(states: &[StateDecl])
    ensures { IsTrue (list_all state_has_name states.now) }
{
    for variable in states {
        let _token = variable.name.bytes();
    }
}

fn keep_machines(machines: &[Machine])
    ensures { IsTrue (list_all machine_holds machines.now) }
{
    for machine in machines {
        let _token = machine.name.bytes();
        keep_states(machine.states.as_slice());
    }
}

/// Walks the names of a network. Its types keep that each is a name token, and that the words of a
/// domain are distinct; so what is printed of the network reads back.
pub(crate) fn keep_names(net: &Network)
    ensures { IsTrue (names_hold net.now) }
{
    keep_events(net.events.as_slice());
    keep_machines(net.machines.as_slice());
    keep_domains(net.domains.as_slice());
}
