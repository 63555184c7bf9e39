// The shape of networks.
ghost use Rattle.std.specs.Prelude.{◌≡◌, ◌↔◌, ◌<◌, length, IsTrue};
ghost use Rattle.transition_table.specs.NetworkFacts.{has_domain};
ghost use Rattle.machine_equiv.specs.inner.Agreeing.{AreSameStates, HaveDomains, IsSameEvent, IsSameMachine, IsSameState};
ghost use Rattle.machine_equiv.specs.Shapes.{SameEvents, SameMachines, SameShape};

use polis_base::Numbers;
use transition_table::{
    EventDecl, Machine, Network, Party, StateDecl, StateList, same_event_words, same_words_in,
};

/// Whether two lists of numbers are the same.
pub(crate) fn same_numbers(a: &Numbers, b: &Numbers) -> bool
    ensures { IsTrue result ↔ (a.now ≡ b.now) }
{
    a.as_slice() == b.as_slice()
}

fn same_party(a: Party, b: Party) -> bool
    ensures { IsTrue result ↔ (a ≡ b) }
{
    a == b
}

// Whether two events agree.
fn same_event(a: &Network, x: &EventDecl, b: &Network, y: &EventDecl) -> bool
    requires first { IsTrue (has_domain a.now.domains x.now) }
    requires second { IsTrue (has_domain b.now.domains y.now) }
    ensures { IsTrue result ↔ IsSameEvent a.now b.now x.now y.now }
{
    x.name.same(&y.name)
        && same_event_words(a, x, b, y)
        && same_party(x.sender, y.sender)
        && x.to_env == y.to_env
        && same_numbers(&x.receivers, &y.receivers)
}

// Whether the events of two networks agree.
fn same_events(a: &Network, b: &Network) -> bool
    ensures { IsTrue result ↔ SameEvents a.now b.now }
{
    if a.events.len() != b.events.len() {
        return false;
    }
    for e in 0..a.events.len() {
        if !same_event(a, a.events.get(e), b, b.events.get(e)) {
            return false;
        }
    }
    true
}

// Whether two state variables agree.
fn same_state(a: &Network, x: &StateDecl, b: &Network, y: &StateDecl) -> bool
    requires first { x.now.domain < length a.now.domains }
    requires second { y.now.domain < length b.now.domains }
    ensures { IsTrue result ↔ IsSameState a.now b.now x.now y.now }
{
    x.name.same(&y.name) && same_words_in(a, x.domain, b, y.domain) && x.init == y.init
}

// Whether the state variables of two machines agree.
fn same_states(a: &Network, xs: &StateList, b: &Network, ys: &StateList) -> bool
    requires first { HaveDomains a.now xs.now }
    requires second { HaveDomains b.now ys.now }
    ensures { IsTrue result ↔ AreSameStates a.now b.now xs.now ys.now }
{
    if xs.len() != ys.len() {
        return false;
    }
    for k in 0..xs.len() {
        if !same_state(a, xs.get(k), b, ys.get(k)) {
            return false;
        }
    }
    true
}

// Whether two machines agree, but for their priorities and rows.
fn same_machine(a: &Network, x: &Machine, b: &Network, y: &Machine) -> bool
    requires first { HaveDomains a.now x.now.states }
    requires second { HaveDomains b.now y.now.states }
    ensures { IsTrue result ↔ IsSameMachine a.now b.now x.now y.now }
{
    x.name.same(&y.name)
        && same_numbers(&x.inputs, &y.inputs)
        && same_numbers(&x.outputs, &y.outputs)
        && same_states(a, &x.states, b, &y.states)
}

// Whether the machines of two networks agree, but for their priorities and rows.
fn same_machines(a: &Network, b: &Network) -> bool
    ensures { IsTrue result ↔ SameMachines a.now b.now }
{
    if a.machines.len() != b.machines.len() {
        return false;
    }
    for k in 0..a.machines.len() {
        if !same_machine(a, a.machines.get(k), b, b.machines.get(k)) {
            return false;
        }
    }
    true
}

/// Whether two networks agree in their events and machines, but for priorities and rows. It takes
/// no memory.
pub fn same_shape(a: &Network, b: &Network) -> bool
    ensures { IsTrue result ↔ SameShape a.now b.now }
{
    same_events(a, b) && same_machines(a, b)
}
