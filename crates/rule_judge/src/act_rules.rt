// Rules that look at each action of each row by itself.
ghost use Rattle.std.specs.Prelude.{◌≡◌, flat_map};
ghost use Rattle.net_reader.specs.declared.raw.RawRow.{RawRow as Row};
ghost use Rattle.net_reader.specs.declared.raw.RawMachine.{RawMachine as Machine};
ghost use Rattle.net_names.specs.Places.{sooner, least_place};
ghost use Rattle.net_names.specs.Machines.{AreMachineNames};
ghost use Rattle.net_names.specs.declared.machine_names.MachineNames.{MachineNames as Names};

use net_names::MachineNames;
use net_reader::{RawAct, RawNet, RawRow};
use polis_base::List;

// A rule on actions.
pub(crate) trait ActRule {
    ghost use Rattle.std.specs.Prelude.{List, ℕ};
    ghost use Rattle.net_reader.specs.declared.raw.RawAct.{RawAct};
    ghost use Rattle.net_reader.specs.declared.raw.RawRow.{RawRow};
    ghost use Rattle.net_reader.specs.declared.raw.RawMachine.{RawMachine};
    ghost use Rattle.net_reader.specs.declared.raw.RawNet.{RawNet};

    // The places where an action of a row breaks it.
    ghost places: { RawNet → RawMachine → RawRow → RawAct → List ℕ };

    // The least of these and of what was found.
    fn check(
        &self,
        names: &MachineNames,
        row: &RawRow,
        act: &RawAct,
        found: Option<u64>,
    ) -> Option<u64>
        ensures { result
            ≡ sooner found (least_place
            (places names.now.scope.now.raw.now names.now.machine.now row.now act.now)) };
}

// The least place in these actions of a row, and of what was found.
fn in_acts<C: ActRule>(
    rule: &C,
    names: &MachineNames,
    row: &RawRow,
    acts: &[RawAct],
    found: Option<u64>,
) -> Option<u64>
    ensures { result
        ≡ sooner found (least_place
        (flat_map (C.places names.now.scope.now.raw.now names.now.machine.now row.now) acts.now)) }
{
    let mut found = found;
    for act in acts {
        found = rule.check(names, row, act, found);
    }
    found
}

// The least place in the actions of a row, and of what was found.
fn in_row<C: ActRule>(
    rule: &C,
    names: &MachineNames,
    row: &RawRow,
    found: Option<u64>,
) -> Option<u64>
    ensures { result
        ≡ sooner found (least_place
        (flat_map (C.places names.now.scope.now.raw.now names.now.machine.now row.now)
        row.now.acts)) }
{
    in_acts(rule, names, row, row.acts.as_slice(), found)
}

// The least place in these rows of a machine, and of what was found.
fn in_rows<C: ActRule>(
    rule: &C,
    names: &MachineNames,
    rows: &[RawRow],
    found: Option<u64>,
) -> Option<u64>
    ensures { result
        ≡ sooner found (least_place
        (flat_map (λ (row : Row). flat_map
        (C.places names.now.scope.now.raw.now names.now.machine.now row) row.acts) rows.now)) }
{
    let mut found = found;
    for row in rows {
        found = in_row(rule, names, row, found);
    }
    found
}

// The least place in the rows of a machine, and of what was found.
fn in_machine<C: ActRule>(rule: &C, names: &MachineNames, found: Option<u64>) -> Option<u64>
    ensures { result
        ≡ sooner found (least_place
        (flat_map (λ (row : Row). flat_map
        (C.places names.now.scope.now.raw.now names.now.machine.now row) row.acts)
        names.now.machine.now.rows)) }
{
    in_rows(rule, names, names.machine.rows.as_slice(), found)
}

// The least place in the rows of these machines, and of what was found.
fn in_machines<C: ActRule>(rule: &C, machines: &[MachineNames], found: Option<u64>) -> Option<u64>
    ensures { result
        ≡ sooner found (least_place
        (flat_map (λ (n : Names). flat_map
        (λ (row : Row). flat_map (C.places n.scope.now.raw.now n.machine.now row) row.acts)
        n.machine.now.rows) machines.now)) }
{
    let mut found = found;
    for names in machines {
        found = in_machine(rule, names, found);
    }
    found
}

// The least place where an action of the declarations breaks the rule.
pub(crate) fn broken_by_acts<C: ActRule>(
    rule: &C,
    raw: &RawNet,
    machines: &List<MachineNames>,
) -> Option<u64>
    requires { AreMachineNames raw.now raw.now.machines machines.now }
    ensures { result
        ≡ least_place (flat_map
        (λ (m : Machine). flat_map (λ (row : Row). flat_map (C.places raw.now m row) row.acts)
        m.rows) raw.now.machines) }
{
    in_machines(rule, machines.as_slice(), None)
}
