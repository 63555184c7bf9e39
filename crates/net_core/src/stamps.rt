// The least stamps of a journal, and the first stamp that doesn't rise.
ghost use Rattle.std.specs.Prelude.{◌≡◌, ◌↔◌, ◌<◌, ◌≤◌, length, IfOk, IsTrue};
ghost use Rattle.polis_base.specs.declared.limits.TheConstants.{ENTRIES_MAX};
ghost use Rattle.journals.specs.Legality.{Legal};
ghost use Rattle.journals.specs.Logs.{max_stamp};
ghost use Rattle.journals.specs.Stamps.{Rising, least, IsFirstNotRising};

use crate::clocks::first_clocks;
use journals::{Journal, Stamps, Trace, laws, sending_laws, stamp_laws};
use polis_base::NoMemory;
use polis_base::limits::MAX_STAMP;
use std::alloc::Global;
use transition_table::Network;

/// The least stamps of a legal journal, one for each entry. They rise, and no others that rise are
/// smaller at any place.
pub fn least_stamps(
    alloc: Global,
    net: &Network,
    trace: &Trace,
    j: &Journal,
) -> Result<Stamps, NoMemory>
    requires legal { Legal net.now trace.now j.now }
    requires few { length j.now ≤ ENTRIES_MAX }
    ensures least { IfOk result (λ s. s ≡ least net.now j.now) }
    ensures rising { IfOk result (λ s. Rising net.now j.now s) }
{
    laws();
    sending_laws();
    stamp_laws();
    let mut clocks = first_clocks(alloc, net)?;
    let mut stamps = Stamps::new(alloc);
    for i in 0..j.len() {
        let entry = j.get(i);
        let stamp = clocks.below(net, entry) + 1;
        clocks.take(net, entry, stamp)?;
        stamps.push(stamp)?;
    }
    Ok(stamps)
}

// A stamp above the one number.
fn is_above(below: u64, stamp: u64) -> bool
    ensures { IsTrue result ↔ ((below < stamp) × (stamp ≤ max_stamp)) }
{
    below < stamp && stamp <= MAX_STAMP
}

/// The least place up to which the stamps of a legal journal don't rise, if there is one.
pub fn first_not_rising(
    alloc: Global,
    net: &Network,
    trace: &Trace,
    j: &Journal,
    s: &Stamps,
) -> Result<Option<u64>, NoMemory>
    requires legal { Legal net.now trace.now j.now }
    requires many { length s.now ≡ length j.now }
    ensures { IfOk result (λ first. IsFirstNotRising net.now j.now s.now first) }
{
    laws();
    sending_laws();
    stamp_laws();
    let mut clocks = first_clocks(alloc, net)?;
    for i in 0..j.len() {
        let entry = j.get(i);
        let stamp = *s.get(i);
        let below = clocks.below(net, entry);
        if !is_above(below, stamp) {
            return Ok(Some(i));
        }
        clocks.take(net, entry, stamp)?;
    }
    Ok(None)
}
