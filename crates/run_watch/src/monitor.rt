// Which networks are monitors of another.
ghost use Rattle.std.specs.Prelude.{◌≡◌, ◌↔◌, IsTrue};
ghost use Rattle.transition_table.specs.declared.decl.Party.TheVariants.{Env};
ghost use Rattle.transition_table.specs.NetworkFacts.{has_domain};
ghost use Rattle.journals.specs.Journals.{same_party};
ghost use Rattle.run_watch.specs.Monitors.{HasOutput, IsHeardAs, IsMonitor};

use transition_table::{EventDecl, Network, Party, same_event_words};

pub(crate) fn is_env(party: Party) -> bool
    ensures { result ≡ same_party party Env }
{
    match party {
        Party::Env => true,
        Party::Machine(_) => false,
    }
}

// Whether the monitor may have an event of the network as this event of its environment.
fn is_heard_as(net: &Network, output: &EventDecl, monitor: &Network, event: &EventDecl) -> bool
    requires output { IsTrue (has_domain net.now.domains output.now) }
    requires event { IsTrue (has_domain monitor.now.domains event.now) }
    ensures { IsTrue result ↔ IsHeardAs net.now output.now monitor.now event.now }
{
    output.name.same(&event.name) && output.to_env && same_event_words(net, output, monitor, event)
}

// Whether the network has an output that the monitor may have as this event.
fn has_output(net: &Network, monitor: &Network, event: &EventDecl) -> bool
    requires { IsTrue (has_domain monitor.now.domains event.now) }
    ensures { IsTrue result ↔ HasOutput net.now monitor.now event.now }
{
    for e in 0..net.events.len() {
        let output = net.events.get(e);
        if is_heard_as(net, output, monitor, event) {
            return true;
        }
    }
    false
}

// Whether the event is one of a machine, or an output of the network.
fn is_told(net: &Network, monitor: &Network, event: &EventDecl) -> bool
    requires { IsTrue (has_domain monitor.now.domains event.now) }
    ensures { IsTrue result ↔ (event.now.sender ≡ Env → HasOutput net.now monitor.now event.now) }
{
    if is_env(event.sender) {
        return has_output(net, monitor, event);
    }
    true
}

/// Whether a network may watch another: each event that its environment sends is, by its name, an
/// event of the other to the environment, and both are pure or have domains of the same words. It
/// takes no memory.
pub fn is_monitor(net: &Network, monitor: &Network) -> bool
    ensures { IsTrue result ↔ IsMonitor net.now monitor.now }
{
    for w in 0..monitor.events.len() {
        let event = monitor.events.get(w);
        if !is_told(net, monitor, event) {
            return false;
        }
    }
    true
}
