// The deliveries of a journal that came on a present input.
ghost use Rattle.std.specs.Prelude.{◌≡◌, ◌≤◌, ◌==◌, length, position, IfOk};
ghost use Rattle.journals.specs.Journals.{IsJournal};
ghost use Rattle.net_core.specs.inner.Losses.{Overwrites};
ghost use Rattle.journals.specs.Outputs.{lost as lost_in};

use journals::{Entry, Journal, first_moments, move_on, moving_laws};
use polis_base::NoMemory;
use std::alloc::Global;
use transition_table::{Machine, Network, Snapshot};

// The place of an event among the inputs.
fn place_of(inputs: &[u32], event: u32) -> Option<usize>
    ensures { result ≡ position (λ input. input == event) inputs.now }
{
    inputs.iter().position(|input| *input == event)
}

// Whether the entry delivers to an input that is present in this snapshot of its machine.
fn overwrites(machine: &Machine, entry: &Entry, before: &Snapshot) -> bool
    requires { length machine.now.inputs ≤ length before.now.codes }
    ensures { Overwrites machine.now before.now entry.now result }
{
    match entry {
        Entry::Dep { event, .. } => {
            match place_of(machine.inputs.as_slice(), *event) {
                Some(place) => *before.codes.get(place as u64) != 0,
                None => false,
            }
        }
        Entry::Rea { .. } => false,
    }
}

/// How many deliveries of the journal came on an input that was present, so that the earlier one
/// was lost.
pub fn lost(alloc: Global, net: &Network, j: &Journal) -> Result<u64, NoMemory>
    requires { IsJournal net.now j.now }
    ensures { IfOk result (λ count. count ≡ lost_in net.now j.now) }
{
    moving_laws();
    let mut moments = first_moments(alloc, net)?.into_vec();
    let mut count = 0;
    for i in 0..j.len() {
        let entry = j.get(i);
        let m = entry.machine() as usize;
        let machine = net.machines.get(m as u64);
        if overwrites(machine, entry, &moments[m]) {
            count += 1;
        }
        move_on(machine, entry, &mut moments[m]);
    }
    Ok(count)
}
