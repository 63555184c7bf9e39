// What a journal gives to the environment, with the places of the entries that emit it.
ghost use Rattle.std.specs.Prelude.{◌≡◌, ◌<◌, ◌++◌, [], ◌∷◌, length, IfOk, OnOk};
ghost use Rattle.journals.specs.Journals.{FitsNetwork, IsJournal, emitted, outputs_of};
ghost use Rattle.run_watch.specs.Emissions.{placed_in, placed_outputs};
ghost use Rattle.run_watch.specs.inner.Emissions.{going_out};

use domains::Codes;
use journals::{Entry, Journal};
use polis_base::{List, NoMemory};
use std::alloc::Global;
use transition_table::Network;

/// An emission of an entry of a journal.
#[derive(Clone, Copy)]
pub struct Emission {
    /// The place of the entry.
    pub place: u64,
    /// The number of the event.
    pub event: u32,
    /// The code of the event.
    pub code: u8,
}

// Adds the emission of an event where its code is above 0 and it goes to the environment.
fn push_output(
    net: &Network,
    event: u32,
    code: u8,
    place: u64,
    into: &mut List<Emission>,
) -> Result<(), NoMemory>
    requires { event < length net.now.events }
    ensures { OnOk result (into.new
        ≡ into.old ++ going_out net.now place (emitted (event ∷ []) (code ∷ []))) }
{
    if code == 0 {
        return Ok(());
    }
    if !net.events.get(event as u64).to_env {
        return Ok(());
    }
    into.push(Emission { place, event, code })?;
    Ok(())
}

// Adds the outputs of a firing with these codes.
fn push_outputs(
    net: &Network,
    m: u32,
    codes: &Codes,
    place: u64,
    into: &mut List<Emission>,
) -> Result<(), NoMemory>
    requires machine { m < length net.now.machines }
    requires width { length codes.now ≡ length (outputs_of net.now m) }
    ensures { OnOk result (into.new
        ≡ into.old ++ going_out net.now place (emitted (outputs_of net.now m) codes.now)) }
{
    let machine = net.machines.get(m as u64);
    for k in 0..machine.outputs.len() {
        let event = *machine.outputs.get(k);
        let code = *codes.get(k);
        push_output(net, event, code, place, into)?;
    }
    Ok(())
}

// Adds the outputs of the entry at a place.
fn push_placed(
    net: &Network,
    place: u64,
    entry: &Entry,
    into: &mut List<Emission>,
) -> Result<(), NoMemory>
    requires { FitsNetwork net.now entry.now }
    ensures { OnOk result (into.new ≡ into.old ++ placed_in net.now (place, entry.now)) }
{
    if let Entry::Rea {
        machine,
        outcome,
        ..
    } = entry
    {
        if outcome.fires {
            push_outputs(net, *machine, &outcome.outs, place, into)?;
        }
    }
    Ok(())
}

/// The outputs of a journal, each with the place of the entry that emits it.
pub fn placed_outputs(alloc: Global, net: &Network, j: &Journal) -> Result<List<Emission>, NoMemory>
    requires { IsJournal net.now j.now }
    ensures { IfOk result (λ placed. placed ≡ placed_outputs net.now j.now) }
{
    let mut placed = List::new(alloc);
    for place in 0..j.len() {
        let entry = j.get(place);
        push_placed(net, place, entry, &mut placed)?;
    }
    Ok(placed)
}
