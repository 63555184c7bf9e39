// The number of snapshots of a machine.
ghost use Rattle.std.specs.Prelude.{◌≡◌, ◌≤◌, ◌*◌, min, map, IfOk};
ghost use Rattle.polis_base.specs.declared.limits.TheConstants.{SNAPSHOTS_MAX};
ghost use Rattle.domains.specs.Tables.{product};
ghost use Rattle.net_reader.specs.declared.raw.RawState.{RawState as State};
ghost use Rattle.net_names.specs.Places.{least_place};
ghost use Rattle.net_names.specs.Scopes.{event_codes, state_codes, var_sizes};
ghost use Rattle.rule_judge.specs.Rules.{rule_20};

use crate::checks::{Check, check_all};
use net_names::{Scope, count_at, event_codes, times_up_to, unless};
use net_reader::{RawMachine, RawState, Word};
use polis_base::NoMemory;
use polis_base::limits::SNAPSHOTS_MAX;

// A product times the codes of each input.
fn times_inputs(scope: &Scope, inputs: &[Word], count: u64) -> u64
    requires { count ≤ 65537 }
    ensures { result
        ≡ min 65537 (count * product (map (event_codes scope.now.raw.now) inputs.now)) }
{
    let mut count = count;
    for input in inputs {
        count = times_up_to(count, event_codes(scope, input));
    }
    count
}

// A product times the codes of each state variable.
fn times_states(scope: &Scope, states: &[RawState], count: u64) -> u64
    requires { count ≤ 65537 }
    ensures { result
        ≡ min 65537 (count * product (map (state_codes scope.now.raw.now) states.now)) }
{
    let mut count = count;
    for state in states {
        count = times_up_to(count, count_at(scope, Some(state.domain)));
    }
    count
}

// The number of snapshots of a machine, up to 65,537.
fn snapshot_count(scope: &Scope, machine: &RawMachine) -> u64
    ensures { result ≡ min 65537 (product (var_sizes scope.now.raw.now machine.now)) }
{
    let count = times_inputs(scope, machine.inputs.as_slice(), 1);
    times_states(scope, machine.states.as_slice(), count)
}

#[derive(Drop)]
struct Snapshots<'s, 'a> {
    scope: &'s Scope<'a>,
}

impl<'s, 'a> Check<RawMachine> for Snapshots<'s, 'a> {
    ghost use Rattle.std.specs.Prelude.{nat_le};
    ghost use Rattle.domains.specs.Tables.{product};
    ghost use Rattle.net_names.specs.Places.{unless};
    ghost use Rattle.net_names.specs.Scopes.{var_sizes};

    ghost places = { λ s m. unless (nat_le (product (var_sizes s.scope.now.raw.now m)) SNAPSHOTS_MAX) m.name.at };

    fn check(&self, machine: &RawMachine, found: Option<u64>) -> Result<Option<u64>, NoMemory> {
        Ok(unless(
            snapshot_count(self.scope, machine) <= SNAPSHOTS_MAX,
            machine.name.at,
            found,
        ))
    }
}

pub(crate) fn rule_20(scope: &Scope) -> Result<Option<u64>, NoMemory>
    ensures { IfOk result (λ place. place ≡ least_place (rule_20 scope.now.raw.now)) }
{
    check_all(&Snapshots { scope }, &scope.raw.machines, None)
}
