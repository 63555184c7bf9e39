// The deliveries that a firing gives.
ghost use Rattle.std.specs.Prelude.{◌≡◌, ◌<◌, ◌++◌, length, flat_map, IfOk, OnOk};
ghost use Rattle.transition_table.specs.declared.decl.Party.TheVariants.{Machine as Sender};
ghost use Rattle.journals.specs.Journals.{FitsNetwork, outputs_of, emitted};
ghost use Rattle.journals.specs.Schedules.{deliveries_of, firing_deliveries};

use crate::entry::{Entry, Owed};
use domains::Codes;
use polis_base::{List, NoMemory};
use std::alloc::Global;
use transition_table::{Network, Party};

/// Adds a delivery to each receiver of an event.
pub fn add_deliveries(
    net: &Network,
    from: Party,
    event: u32,
    code: u8,
    owed: &mut List<Owed>,
) -> Result<(), NoMemory>
    requires { event < length net.now.events }
    ensures { OnOk result (owed.new ≡ owed.old ++ deliveries_of net.now from (event, code)) }
{
    for to in net.events.get(event as u64).receivers.as_slice() {
        owed.push(Owed {
            from,
            to: *to,
            event,
            code,
        })?;
    }
    Ok(())
}

// Adds the deliveries of what a machine emits.
fn add_emissions(net: &Network, m: u32, outs: &Codes, owed: &mut List<Owed>) -> Result<(), NoMemory>
    requires machine { m < length net.now.machines }
    requires width { length outs.now ≡ length (outputs_of net.now m) }
    ensures { OnOk result (owed.new ≡ owed.old
        ++ flat_map (deliveries_of net.now (Sender m)) (emitted (outputs_of net.now m) outs.now)) }
{
    let machine = net.machines.get(m as u64);
    for k in 0..machine.outputs.len() {
        let code = *outs.get(k);
        if code > 0 {
            add_deliveries(net, Party::Machine(m), *machine.outputs.get(k), code, owed)?;
        }
    }
    Ok(())
}

/// The deliveries that an entry gives: those of a firing's emissions, by output and then by
/// receiver.
pub fn deliveries(alloc: Global, net: &Network, entry: &Entry) -> Result<List<Owed>, NoMemory>
    requires { FitsNetwork net.now entry.now }
    ensures { IfOk result (λ owed. owed ≡ firing_deliveries net.now entry.now) }
{
    let mut owed = List::new(alloc);
    if let Entry::Rea {
        machine,
        outcome,
        ..
    } = entry
    {
        if outcome.fires {
            add_emissions(net, *machine, &outcome.outs, &mut owed)?;
        }
    }
    Ok(owed)
}
