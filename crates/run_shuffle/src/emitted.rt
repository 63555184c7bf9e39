// The receivers of what a machine emits, as a set.
ghost use Rattle.std.specs.Prelude.{◌≡◌, ◌<◌, ◌≤◌, ◌||◌, ◌==◌, ℕ, [], cond, length};
ghost use Rattle.std.specs.Int.{bit_at};
ghost use Rattle.std.specs.List.{list_any};
ghost use Rattle.transition_table.specs.NetworkFacts.{has};
ghost use Rattle.journals.specs.Journals.{emitted, outputs_of};
ghost use Rattle.journals.specs.Schedules.{receivers_of};

use domains::Codes;
use polis_base::SmallSet;
use transition_table::{Network, Outcome};

// The set and each receiver of an event.
fn with_receivers(net: &Network, event: u32, set: SmallSet) -> SmallSet
    requires { event < length net.now.events }
    ensures machines { (m : ℕ) → m < length net.now.machines
        → (bit_at result m == 1) ≡ (bit_at set m == 1 || has (receivers_of net.now event) m) }
    ensures others { (m : ℕ) → length net.now.machines ≤ m → bit_at result m ≡ bit_at set m }
{
    let receivers = &net.events.get(event as u64).receivers;
    let mut all = set;
    for i in 0..receivers.len() {
        all = all.with(*receivers.get(i));
    }
    all
}

// The set and each receiver of what a machine emits with these codes of its outputs.
fn with_emitted(net: &Network, machine: u32, codes: &Codes, set: SmallSet) -> SmallSet
    requires machine { machine < length net.now.machines }
    requires width { length codes.now ≡ length (outputs_of net.now machine) }
    ensures machines { (m : ℕ) → m < length net.now.machines
        → (bit_at result m == 1) ≡ (bit_at set m == 1
        || list_any (λ p. has (receivers_of net.now p.0) m)
        (emitted (outputs_of net.now machine) codes.now)) }
    ensures others { (m : ℕ) → length net.now.machines ≤ m → bit_at result m ≡ bit_at set m }
{
    let outputs = &net.machines.get(machine as u64).outputs;
    let mut all = set;
    for k in 0..outputs.len() {
        if *codes.get(k) > 0 {
            all = with_receivers(net, *outputs.get(k), all);
        }
    }
    all
}

// The set and each receiver of what a machine's reaction emits.
pub(crate) fn with_outcome(
    net: &Network,
    machine: u32,
    outcome: &Outcome,
    set: SmallSet,
) -> SmallSet
    requires machine { machine < length net.now.machines }
    requires width { length outcome.now.outs ≡ length (outputs_of net.now machine) }
    ensures machines { (m : ℕ) → m < length net.now.machines
        → (bit_at result m == 1) ≡ (bit_at set m == 1
        || list_any (λ p. has (receivers_of net.now p.0) m)
        (cond outcome.now.fires (emitted (outputs_of net.now machine) outcome.now.outs) [])) }
    ensures others { (m : ℕ) → length net.now.machines ≤ m → bit_at result m ≡ bit_at set m }
{
    if outcome.fires {
        return with_emitted(net, machine, &outcome.outs, set);
    }
    set
}
