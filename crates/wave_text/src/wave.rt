// A run as a wave.
ghost use Rattle.std.specs.Prelude.{◌≡◌, ◌<◌, ◌+◌, ◌++◌, ◌^◌, filter, flat_map, length, map, OnOk, OnErr, IfOk};
ghost use Rattle.polis_base.specs.Lists.{upto};
ghost use Rattle.journals.specs.Journals.{IsJournal};
ghost use Rattle.wave_text.specs.inner.Changing.{AreNumberings, IsNumbering};
ghost use Rattle.wave_text.specs.Signals.{first_number, has_values, out_events, signals};
ghost use Rattle.wave_text.specs.declared.signal.Signal.TheVariants.{Emission, Value};
ghost use Rattle.wave_text.specs.Waves.{moment_text, wave_text};

use crate::change::{Numbering, out_signals_of, take_entry};
use crate::head::{push_head, signal_count};
use crate::lines::{push_moment, push_start};
use crate::signal::{
    SignalList, all_signals, out_events, push_emissions, push_values, with_values,
};
use domains::Codes;
use journals::{Journal, first_moments};
use polis_base::{Bytes, List, NoMemory, Numbers};
use std::alloc::Global;
use transition_table::Network;

// Where the signals of a machine stand, the first of which has this number. The emissions are
// numbered from n on, and then come the values.
fn numbering_at(
    alloc: Global,
    net: &Network,
    m: u64,
    first: u64,
    n: u64,
    events: &Numbers,
    valued: &Numbers,
) -> Result<Numbering, NoMemory>
    requires machine { m < length net.now.machines }
    requires first { first ≡ first_number net.now m }
    requires next { n ≡ first_number net.now (length net.now.machines) }
    requires events { events.now ≡ out_events net.now }
    requires valued { valued.now ≡ filter (has_values net.now) (out_events net.now) }
    requires room { length (signals net.now) < 2 ^ 64 }
    ensures { IfOk result (λ numbering. IsNumbering net.now m numbering) }
{
    let machine = net.machines.get(m);
    let emissions = out_signals_of(alloc, machine, n, events.as_slice())?;
    let values = out_signals_of(alloc, machine, n + events.len(), valued.as_slice())?;
    Ok(Numbering {
        first,
        emissions,
        values,
    })
}

// Where the signals of each machine stand.
fn all_numberings(
    alloc: Global,
    net: &Network,
    n: u64,
    events: &Numbers,
    valued: &Numbers,
) -> Result<Vec<Numbering>, NoMemory>
    requires next { n ≡ first_number net.now (length net.now.machines) }
    requires events { events.now ≡ out_events net.now }
    requires valued { valued.now ≡ filter (has_values net.now) (out_events net.now) }
    requires room { length (signals net.now) < 2 ^ 64 }
    ensures { IfOk result (λ numberings. AreNumberings net.now numberings.items) }
{
    let mut numberings = Vec::new(alloc);
    let mut first = 0;
    for m in 0..net.machines.len() {
        let numbering = numbering_at(alloc, net, m, first, n, events, valued)?;
        numberings.push(numbering)?;
        first += signal_count(net.machines.get(m));
    }
    Ok(numberings)
}

// Appends the moments after each entry.
fn push_moments(
    alloc: Global,
    net: &Network,
    numberings: &[Numbering],
    list: &SignalList,
    j: &Journal,
    into: &mut Bytes,
) -> Result<(), NoMemory>
    requires journal { IsJournal net.now j.now }
    requires signals { list.now ≡ signals net.now }
    requires room { length (signals net.now) < 2 ^ 64 }
    requires numberings { AreNumberings net.now numberings.now }
    ensures { OnOk result (into.new ≡ into.old
        ++ flat_map (moment_text net.now j.now) (upto (length j.now))) }
{
    let mut moments = first_moments(alloc, net)?.into_vec();
    let mut values = Codes::filled(alloc, net.events.len(), 0)?;
    let mut before = Bytes::new(alloc);
    let mut changes = Vec::new(alloc);
    for p in 0..j.len() {
        let entry = j.get(p);
        let m = entry.machine() as usize;
        take_entry(
            net.machines.get(m as u64),
            &numberings[m],
            entry,
            &mut moments[m],
            &mut before,
            &mut values,
            &mut changes,
        )?;
        push_moment(net, list, p + 1, p + 1 == j.len(), &changes, into)?;
    }
    Ok(())
}

// The signals of these events: their emissions.
fn emission_list(alloc: Global, events: &Numbers) -> Result<SignalList, NoMemory>
    ensures { IfOk result (λ list. list ≡ map Emission events.now) }
{
    let mut list = List::new(alloc);
    push_emissions(events.as_slice(), &mut list)?;
    Ok(list)
}

// The signals of these events: their values.
fn value_list(alloc: Global, events: &Numbers) -> Result<SignalList, NoMemory>
    ensures { IfOk result (λ list. list ≡ map Value events.now) }
{
    let mut list = List::new(alloc);
    push_values(events.as_slice(), &mut list)?;
    Ok(list)
}

// A list has fewer signals than there are numbers.
fn counted(list: &SignalList)
    ensures { length list.now < 2 ^ 64 }
{
    let _count = list.len();
}

// Appends the head, the codes at the start and the moments.
fn push_dump(alloc: Global, net: &Network, j: &Journal, into: &mut Bytes) -> Result<(), NoMemory>
    requires { IsJournal net.now j.now }
    ensures { OnOk result (into.new ≡ into.old ++ wave_text net.now j.now) }
{
    let events = out_events(alloc, net)?;
    let valued = with_values(alloc, net, events.as_slice())?;
    let list = all_signals(alloc, net, events.as_slice(), valued.as_slice())?;
    counted(&list);
    let emissions = emission_list(alloc, &events)?;
    let values = value_list(alloc, &valued)?;
    let n = push_head(alloc, net, &emissions, &values, into)?;
    push_start(net, &list, into)?;
    let numberings = all_numberings(alloc, net, n, &events, &valued)?;
    push_moments(alloc, net, &numberings, &list, j, into)?;
    Ok(())
}

/// Appends the wave of a journal: a value change dump with each buffer, each state variable, each
/// loss and each emission to the environment along the entries.
pub fn push_wave(
    alloc: Global,
    net: &Network,
    j: &Journal,
    into: &mut Bytes,
) -> Result<(), NoMemory>
    requires { IsJournal net.now j.now }
    ensures ok { OnOk result (into.new ≡ into.old ++ wave_text net.now j.now) }
    ensures err { OnErr result (into.new ≡ into.old) }
{
    let mut text = into.beside();
    push_dump(alloc, net, j, &mut text)?;
    into.push(text.as_slice())
}
