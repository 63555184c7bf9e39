// What a monitor hears of a journal.
ghost use Rattle.std.specs.Prelude.{◌≡◌, ◌++◌, [], ◌∷◌, length, filter_map, find, map, IfOk, OnOk};
ghost use Rattle.polis_base.specs.Lists.{upto};
ghost use Rattle.journals.specs.Journals.{IsJournal};
ghost use Rattle.run_watch.specs.Hearings.{IsHearing};
ghost use Rattle.run_watch.specs.Monitors.{heard, heard_by, hears, hears_at, settled, watched};
ghost use Rattle.run_watch.specs.inner.Hearings.{looked_up};

use crate::emission::{Emission, placed_outputs};
use crate::monitor::is_env;
use journals::{Journal, Trace, TraceItem};
use polis_base::{List, Name, NoMemory};
use scheduler_gen::{Plan, plan};
use std::alloc::Global;
use transition_table::{EventDecl, Network};

/// What a monitor looks up of itself and of a network, for whoever has many journals of it.
#[derive(Drop)]
pub struct Hearing {
    /// The order in which the monitor's machines are tried.
    pub plan: Plan,
    /// For each event of the network the event of the monitor that it is heard as, if there is one.
    pub events: List<Option<u32>>,
}

// Whether the environment sends the event and it has this name.
fn has_name(event: &EventDecl, name: &Name) -> bool
    ensures { result ≡ hears name.now event.now }
{
    is_env(event.sender) && event.name.same(name)
}

// The event of the monitor that an event of this name is heard as.
fn event_of(monitor: &Network, name: &Name) -> Option<u32>
    ensures { result ≡ find (hears_at monitor.now name.now) (upto (length monitor.now.events)) }
{
    for w in 0..monitor.events.len() as u32 {
        let event = monitor.events.get(w as u64);
        if has_name(event, name) {
            return Some(w);
        }
    }
    None
}

// For each event of the network the event of the monitor that it is heard as.
fn events_of(alloc: Global, net: &Network, monitor: &Network) -> Result<List<Option<u32>>, NoMemory>
    ensures { IfOk result
        (λ events. events ≡ map (watched net.now monitor.now) (upto (length net.now.events))) }
{
    let mut events = List::new(alloc);
    for e in 0..net.events.len() {
        let event = net.events.get(e);
        let heard_as = event_of(monitor, &event.name);
        events.push(heard_as)?;
    }
    Ok(events)
}

/// Looks up what a monitor hears of a network.
pub fn hearing_of(alloc: Global, net: &Network, monitor: &Network) -> Result<Hearing, NoMemory>
    ensures { IfOk result (IsHearing net.now monitor.now) }
{
    let plan = plan(alloc, monitor)?;
    let events = events_of(alloc, net, monitor)?;
    Ok(Hearing { plan, events })
}

// The event under a number.
fn look_up(events: &List<Option<u32>>, e: u32) -> Option<u32>
    ensures { result ≡ looked_up events.now e }
{
    if e as u64 >= events.len() {
        return None;
    }
    *events.get(e as u64)
}

// Adds what is heard of an output.
fn push_heard(
    events: &List<Option<u32>>,
    output: &Emission,
    into: &mut List<Emission>,
) -> Result<(), NoMemory>
    ensures { OnOk result (into.new
        ≡ into.old ++ filter_map (heard_by (looked_up events.now)) (output.now ∷ [])) }
{
    if let Some(event) = look_up(events, output.event) {
        into.push(Emission {
            place: output.place,
            event,
            code: output.code,
        })?;
    }
    Ok(())
}

// What is heard of these outputs.
fn heard_of(
    alloc: Global,
    events: &List<Option<u32>>,
    outputs: &List<Emission>,
) -> Result<List<Emission>, NoMemory>
    ensures { IfOk result (λ all. all
        ≡ filter_map (heard_by (looked_up events.now)) outputs.now) }
{
    let mut heard = List::new(alloc);
    for k in 0..outputs.len() {
        let output = outputs.get(k);
        push_heard(events, output, &mut heard)?;
    }
    Ok(heard)
}

/// What the monitor for which this was looked up hears of a journal.
pub(crate) fn heard_in(
    alloc: Global,
    net: &Network,
    hearing: &Hearing,
    journal: &Journal,
) -> Result<List<Emission>, NoMemory>
    requires { IsJournal net.now journal.now }
    ensures { IfOk result (λ all. (monitor : Network)
        → IsHearing net.now monitor hearing.now → all ≡ heard net.now monitor journal.now) }
{
    let outputs = placed_outputs(alloc, net, journal)?;
    let heard = heard_of(alloc, &hearing.events, &outputs)?;
    Ok(heard)
}

/// The trace on which the monitor hears these.
pub(crate) fn trace_of(alloc: Global, heard: &List<Emission>) -> Result<Trace, NoMemory>
    ensures { IfOk result (λ trace. trace ≡ settled heard.now) }
{
    let mut trace = Trace::new(alloc);
    for k in 0..heard.len() {
        let told = heard.get(k);
        trace.push(TraceItem::Event {
            event: told.event,
            code: told.code,
        })?;
        trace.push(TraceItem::Settle)?;
    }
    Ok(trace)
}
