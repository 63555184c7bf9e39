// The rule on the values of state variables at the start.
ghost use Rattle.std.specs.Prelude.{◌≡◌, IfOk};
ghost use Rattle.net_names.specs.Places.{least_place};
ghost use Rattle.rule_judge.specs.Rules.{rule_14};

use crate::checks::{Check, check_all};
use net_names::{Scope, no_value};
use net_reader::{RawMachine, RawState};
use polis_base::NoMemory;

#[derive(Drop)]
struct Initials<'s, 'a> {
    scope: &'s Scope<'a>,
}

impl<'s, 'a> Check<RawState> for Initials<'s, 'a> {
    ghost use Rattle.net_names.specs.Values.{no_value};
    ghost use Rattle.net_names.specs.Scopes.{shape_of};

    ghost places = { λ i s. no_value (shape_of i.scope.now.raw.now s.domain.name) s.init };

    fn check(&self, state: &RawState, found: Option<u64>) -> Result<Option<u64>, NoMemory> {
        Ok(no_value(self.scope.shape_of(state.domain.name), &state.init, found))
    }
}

#[derive(Drop)]
struct InStates<C> {
    check: C,
}

impl<C: Check<RawState>> Check<RawMachine> for InStates<C> {
    ghost use Rattle.std.specs.Prelude.{flat_map};

    ghost places = { λ x m. flat_map (C.places x.check) m.states };

    fn check(&self, machine: &RawMachine, found: Option<u64>) -> Result<Option<u64>, NoMemory> {
        check_all(&self.check, &machine.states, found)
    }
}

pub(crate) fn rule_14(scope: &Scope) -> Result<Option<u64>, NoMemory>
    ensures { IfOk result (λ place. place ≡ least_place (rule_14 scope.now.raw.now)) }
{
    let check = InStates {
        check: Initials { scope },
    };
    check_all(&check, &scope.raw.machines, None)
}
