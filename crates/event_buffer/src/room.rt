// Room for the deliveries of one firing, which is made before it is known which ones there are.
ghost use Rattle.std.specs.Prelude.{◌≡◌, ◌<◌, ◌≤◌, ◌+◌, ◌++◌, map, flat_map, take, length, cond, [], IfOk};
ghost use Rattle.transition_table.specs.declared.decl.Party.TheVariants.{Machine as Sender};
ghost use Rattle.transition_table.specs.Transitions.{OfMachine, HasWidths};
ghost use Rattle.journals.specs.Journals.{outputs_of, emitted};
ghost use Rattle.journals.specs.Schedules.{receivers_of, deliveries_of};
ghost use Rattle.event_buffer.specs.Arrivals.{arrival_of};

use crate::arrival::Arrival;
use domains::Codes;
use polis_base::{List, NoMemory};
use std::alloc::Global;
use transition_table::{Network, Outcome, Party};

// Adds an item for each receiver of an event.
fn add_room(net: &Network, event: u32, room: &mut List<Arrival>) -> Result<(), NoMemory>
    requires { event < length net.now.events }
    ensures { IfOk result (λ _. length room.new
        ≡ length room.old + length (receivers_of net.now event)) }
{
    for to in net.events.get(event as u64).receivers.as_slice() {
        room.push(Arrival {
            from: Party::Env,
            to: *to,
            event,
            code: 1,
            stamp: 0,
        })?;
    }
    Ok(())
}

// As many items as a machine can have deliveries in one firing.
pub(crate) fn make_room(alloc: Global, net: &Network, m: u32) -> Result<List<Arrival>, NoMemory>
    requires { m < length net.now.machines }
    ensures { IfOk result (λ room. length room
        ≡ length (flat_map (receivers_of net.now) (outputs_of net.now m))) }
{
    let mut room = List::new(alloc);
    let machine = net.machines.get(m as u64);
    for k in 0..machine.outputs.len() {
        add_room(net, *machine.outputs.get(k), &mut room)?;
    }
    Ok(room)
}

// Writes the deliveries of one event after the first `count`, and answers how many there are now.
fn write_event(
    net: &Network,
    m: u32,
    event: u32,
    code: u8,
    stamp: u64,
    count: u64,
    room: &mut List<Arrival>,
) -> u64
    requires event { event < length net.now.events }
    requires room { count + length (receivers_of net.now event) ≤ length room.old }
    ensures count { result ≡ count + length (receivers_of net.now event) }
    ensures written { take result room.new ≡ take count room.old
        ++ map (arrival_of stamp) (deliveries_of net.now (Sender m) (event, code)) }
    ensures same { length room.new ≡ length room.old }
{
    let _size = room.len();
    let receivers = &net.events.get(event as u64).receivers;
    for k in 0..receivers.len() {
        room.set(
            count + k,
            Arrival {
                from: Party::Machine(m),
                to: *receivers.get(k),
                event,
                code,
                stamp,
            },
        );
    }
    count + receivers.len()
}

// Writes the deliveries of what a machine emits over the first items, and answers how many there
// are. It takes no memory.
fn write_emissions(net: &Network, m: u32, outs: &Codes, stamp: u64, room: &mut List<Arrival>) -> u64
    requires machine { m < length net.now.machines }
    requires width { length outs.now ≡ length (outputs_of net.now m) }
    requires room { length (flat_map (receivers_of net.now) (outputs_of net.now m))
        ≤ length room.old }
    ensures written { take result room.new ≡ map (arrival_of stamp)
        (flat_map (deliveries_of net.now (Sender m)) (emitted (outputs_of net.now m) outs.now)) }
    ensures inside { result ≤ length room.new }
{
    let machine = net.machines.get(m as u64);
    let mut count = 0;
    for k in 0..machine.outputs.len() {
        let code = *outs.get(k);
        if code > 0 {
            count = write_event(net, m, *machine.outputs.get(k), code, stamp, count, room);
        }
    }
    count
}

// The same of an outcome, which emits nothing where it doesn't fire.
pub(crate) fn write_firing(
    net: &Network,
    m: u32,
    stamp: u64,
    outcome: &Outcome,
    room: &mut List<Arrival>,
) -> u64
    requires machine { m < length net.now.machines }
    requires widths { OfMachine net.now m (λ machine. HasWidths machine outcome.now) }
    requires room { length (flat_map (receivers_of net.now) (outputs_of net.now m))
        ≤ length room.old }
    ensures written { take result room.new ≡ map (arrival_of stamp)
        (flat_map (deliveries_of net.now (Sender m))
        (cond outcome.now.fires (emitted (outputs_of net.now m) outcome.now.outs) [])) }
    ensures inside { result ≤ length room.new }
{
    if outcome.fires {
        write_emissions(net, m, &outcome.outs, stamp, room)
    } else {
        0
    }
}
