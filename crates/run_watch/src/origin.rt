// Which entry of the watched journal the monitor was told of last.
ghost use Rattle.std.specs.Prelude.{◌≡◌, ◌≤◌, ℕ, [], ◌∷◌, length, slice_get, take};
ghost use Rattle.transition_table.specs.declared.decl.Party.TheVariants.{Env};
ghost use Rattle.journals.specs.Journals.{delivered, reads};
ghost use Rattle.run_watch.specs.Watches.{ToldAt, last_receiver, receiver, sources};

use crate::emission::Emission;
use journals::{Entry, Journal};
use polis_base::List;
use transition_table::{Network, Party};

// The machine to which the environment delivers, if the entry is such a delivery.
fn receiver(entry: &Entry) -> Option<u32>
    ensures { result ≡ receiver entry.now }
{
    match entry {
        Entry::Dep { from, to, .. } => {
            let from = *from;
            match from {
                Party::Env => Some(*to),
                Party::Machine(_) => None,
            }
        }
        Entry::Rea { .. } => None,
    }
}

// The machine to which the environment delivers last among the entries before a place.
fn last_receiver(watch: &Journal, end: u64) -> Option<u32>
    requires { end ≤ length watch.now }
    ensures { result ≡ last_receiver (take end watch.now) }
{
    let mut last = None;
    for p in 0..end {
        let entry = watch.get(p);
        last = receiver(entry).or(last);
    }
    last
}

// 1 where the environment delivers to a machine, and else 0.
fn one_if_to(entry: &Entry, m: u32) -> u64
    ensures count { result ≡ length (delivered Env m (entry.now ∷ [])) }
    ensures few { result ≤ 1 }
{
    match entry {
        Entry::Dep { from, to, .. } => {
            let from = *from;
            match from {
                Party::Env => u64::from(*to == m),
                Party::Machine(_) => 0,
            }
        }
        Entry::Rea { .. } => 0,
    }
}

// How many deliveries of the environment to a machine stand before a place.
fn count_to(watch: &Journal, end: u64, m: u32) -> u64
    requires { end ≤ length watch.now }
    ensures { result ≡ length (delivered Env m (take end watch.now)) }
{
    let mut count = 0;
    for p in 0..end {
        let entry = watch.get(p);
        count += one_if_to(entry, m);
    }
    count
}

// Whether a machine reads an event.
fn reads(net: &Network, m: u32, event: u32) -> bool
    ensures { result ≡ reads net.now m event }
{
    if m as u64 >= net.machines.len() {
        return false;
    }
    net.machines
        .get(m as u64)
        .inputs
        .as_slice()
        .contains(&event)
}

// The place of what a machine of the monitor hears after so many others.
fn source(monitor: &Network, heard: &List<Emission>, m: u32, number: u64) -> Option<u64>
    ensures { result ≡ slice_get (sources monitor.now heard.now m) number }
{
    let mut left = number;
    for k in 0..heard.len() {
        let told = heard.get(k);
        if reads(monitor, m, told.event) {
            if left == 0 {
                return Some(told.place);
            }
            left -= 1;
        }
    }
    None
}

/// The place of the entry that the last delivery of the environment before a place of the watch
/// stands for. There is such a delivery.
pub(crate) fn origin(monitor: &Network, heard: &List<Emission>, watch: &Journal, end: u64) -> u64
    requires end { end ≤ length watch.now }
    requires told { (place : ℕ) × ToldAt monitor.now heard.now (take end watch.now) place }
    ensures { ToldAt monitor.now heard.now (take end watch.now) result }
{
    match last_receiver(watch, end) {
        Some(m) => {
            let number = count_to(watch, end, m) - 1;
            match source(monitor, heard, m, number) {
                Some(place) => place,
                None => unreachable!(),
            }
        }
        None => unreachable!(),
    }
}
