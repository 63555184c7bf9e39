// The snapshot of each machine after a journal, and what one entry more makes of it.
ghost use Rattle.std.specs.Prelude.{◌≡◌, ◌<◌, ◌+◌, ◌++◌, [], map, replicate, length, IfOk};
ghost use Rattle.journals.specs.Moved.{moments_of, SuitsMachine, code_after, codes_after};

use crate::entry::Entry;
use domains::Codes;
use polis_base::{List, NoMemory};
use std::alloc::Global;
use transition_table::{Machine, Network, Snapshot};

/// A snapshot for each machine.
pub type Moments = List<Snapshot>;

/// The places are empty, and each state variable has its first value.
pub fn first_moment(alloc: Global, machine: &Machine) -> Result<Snapshot, NoMemory>
    ensures { IfOk result (λ s. s.codes
        ≡ replicate (length machine.now.inputs) 0
        ++ map (λ variable. variable.init) machine.now.states) }
{
    let mut codes = Codes::new(alloc);
    for _ in 0..machine.inputs.len() {
        codes.push(0)?;
    }
    for variable in machine.states.as_slice() {
        codes.push(variable.init)?;
    }
    Ok(Snapshot { codes })
}

/// The snapshots after the empty journal.
pub fn first_moments(alloc: Global, net: &Network) -> Result<Moments, NoMemory>
    ensures { IfOk result (λ moments. moments ≡ moments_of net.now []) }
{
    let mut moments = List::new(alloc);
    for m in 0..net.machines.len() {
        moments.push(first_moment(alloc, net.machines.get(m))?)?;
    }
    Ok(moments)
}

// The code of the machine's k-th variable after the entry.
fn next_code(machine: &Machine, entry: &Entry, k: u64, before: u8) -> u8
    requires variable { k < length machine.now.inputs + length machine.now.states }
    requires entry { SuitsMachine machine.now entry.now }
    ensures { result ≡ code_after machine.now entry.now k before }
{
    let inputs = machine.inputs.len();
    match entry {
        Entry::Dep { event, code, .. } => {
            if k < inputs && *event == *machine.inputs.get(k) {
                *code
            } else {
                before
            }
        }
        Entry::Rea { outcome, .. } => {
            if !outcome.fires {
                return before;
            }
            if k < inputs {
                return 0;
            }
            match *outcome.next.get(k - inputs) {
                0 => before,
                code => code - 1,
            }
        }
    }
}

/// The snapshot of the entry's machine after the entry.
pub fn next_moment(
    alloc: Global,
    machine: &Machine,
    entry: &Entry,
    before: &Snapshot,
) -> Result<Snapshot, NoMemory>
    requires width { length before.now.codes
        ≡ length machine.now.inputs + length machine.now.states }
    requires entry { SuitsMachine machine.now entry.now }
    ensures { IfOk result (λ s. s.codes ≡ codes_after machine.now entry.now before.now.codes) }
{
    let mut codes = Codes::new(alloc);
    for k in 0..before.codes.len() {
        codes.push(next_code(machine, entry, k, *before.codes.get(k)))?;
    }
    Ok(Snapshot { codes })
}

/// Makes a snapshot of the entry's machine the one after the entry. It takes no memory.
pub fn move_on(machine: &Machine, entry: &Entry, s: &mut Snapshot)
    requires width { length s.old.codes ≡ length machine.now.inputs + length machine.now.states }
    requires entry { SuitsMachine machine.now entry.now }
    ensures { s.new.codes ≡ codes_after machine.now entry.now s.old.codes }
{
    for k in 0..s.codes.len() {
        let code = next_code(machine, entry, k, *s.codes.get(k));
        s.codes.set(k, code);
    }
}
