// The rules on conditions, in one walk.
ghost use Rattle.std.specs.Prelude.{◌≡◌, [], flat_map, option_copied, IsTrue, IfOk};
ghost use Rattle.net_reader.specs.declared.raw.RawRow.{RawRow as Row};
ghost use Rattle.net_names.specs.Places.{sooner, least_place};
ghost use Rattle.net_names.specs.Numbers.{names_of, number_in};
ghost use Rattle.net_names.specs.Values.{no_value};
ghost use Rattle.net_names.specs.Scopes.{cond_word, var_words};
ghost use Rattle.net_names.specs.Machines.{AreMachineNames};
ghost use Rattle.net_names.specs.Vars.{IsVar, AreVars};
ghost use Rattle.net_names.specs.declared.machine_names.MachineNames.{MachineNames as Names};
ghost use Rattle.rule_judge.specs.Rules.{unknown, unsuited, wrong_values, rule_15, rule_16, rule_17};

use net_names::{
    MachineNames, Var, cond_name, cond_word, no_value, unless, var_numbered, var_of, vars_of,
};
use net_reader::{RawCond, RawNet, RawRow, RawShape, RawValue};
use polis_base::{List, NoMemory};
use std::alloc::Global;

// The least places that were found where a name in a condition is none of the machine's variables,
// doesn't suit its condition, or has a value that is none of its domain.
#[derive(Clone, Copy)]
pub(crate) struct CondFaults {
    pub(crate) unknown: Option<u64>,
    pub(crate) unsuited: Option<u64>,
    pub(crate) valueless: Option<u64>,
}

// The least of what was found and of the places of the values that are none of the domain.
fn no_values(shape: Option<&RawShape>, values: &[RawValue], found: Option<u64>) -> Option<u64>
    ensures { result
        ≡ sooner found (least_place (flat_map (no_value (option_copied shape.entry)) values.now)) }
{
    let mut found = found;
    for value in values {
        found = no_value(shape, value, found);
    }
    found
}

// One more condition, whose name stands for this variable.
fn judge_cond<'s, 'a>(
    names: &MachineNames<'s, 'a>,
    var: &Var<'a>,
    cond: &RawCond,
    found: CondFaults,
) -> CondFaults
    requires { IsVar names.now.scope.now.raw.now names.now.machine.now (cond_word cond.now).name
        var.now }
    ensures unknown { result.unknown ≡ sooner found.unknown (least_place (unknown names.now.machine.now
        cond.now)) }
    ensures unsuited { result.unsuited
        ≡ sooner found.unsuited
        (least_place (unsuited names.now.scope.now.raw.now names.now.machine.now cond.now)) }
    ensures valueless { result.valueless
        ≡ sooner found.valueless
        (least_place (wrong_values names.now.scope.now.raw.now names.now.machine.now cond.now)) }
{
    match cond {
        RawCond::Present(word) => CondFaults {
            unknown: unless(var.is_known, word.at, found.unknown),
            unsuited: unless(var.is_input, word.at, found.unsuited),
            valueless: found.valueless,
        },
        RawCond::Absent(word) => CondFaults {
            unknown: unless(var.is_known, word.at, found.unknown),
            unsuited: unless(var.is_input, word.at, found.unsuited),
            valueless: found.valueless,
        },
        RawCond::Is { name, value } => CondFaults {
            unknown: unless(var.is_known, name.at, found.unknown),
            unsuited: unless(var.has_domain, name.at, found.unsuited),
            valueless: no_value(var.shape, value, found.valueless),
        },
        RawCond::OneOf { name, values } => CondFaults {
            unknown: unless(var.is_known, name.at, found.unknown),
            unsuited: unless(var.has_domain, name.at, found.unsuited),
            valueless: no_values(var.shape, values.as_slice(), found.valueless),
        },
    }
}

// Whether a condition asks for the presence or the absence of an input, as breaks no rule. It is
// tested before the places are looked at, since most conditions are of this kind.
fn keeps<'s, 'a>(names: &MachineNames<'s, 'a>, var: &Var<'a>, cond: &RawCond) -> bool
    requires { IsVar names.now.scope.now.raw.now names.now.machine.now (cond_word cond.now).name
        var.now }
    ensures unknown { IsTrue result → unknown names.now.machine.now cond.now ≡ [] }
    ensures unsuited { IsTrue result
        → unsuited names.now.scope.now.raw.now names.now.machine.now cond.now ≡ [] }
    ensures valueless { IsTrue result
        → wrong_values names.now.scope.now.raw.now names.now.machine.now cond.now ≡ [] }
{
    match cond {
        RawCond::Present(_) => var.is_known && var.is_input,
        RawCond::Absent(_) => var.is_known && var.is_input,
        RawCond::Is { .. } => false,
        RawCond::OneOf { .. } => false,
    }
}

// Whether a condition whose name has this number is of that kind.
fn is_kept<'s, 'a>(
    names: &MachineNames<'s, 'a>,
    vars: &List<Var<'a>>,
    cond: &RawCond,
    number: Option<u64>,
) -> bool
    requires vars { AreVars names.now.scope.now.raw.now names.now.machine.now
        (var_words names.now.machine.now) vars.now }
    requires number { number
        ≡ number_in (names_of (var_words names.now.machine.now)) (cond_word cond.now).name }
    ensures unknown { IsTrue result → unknown names.now.machine.now cond.now ≡ [] }
    ensures unsuited { IsTrue result
        → unsuited names.now.scope.now.raw.now names.now.machine.now cond.now ≡ [] }
    ensures valueless { IsTrue result
        → wrong_values names.now.scope.now.raw.now names.now.machine.now cond.now ≡ [] }
{
    match number {
        Some(number) => {
            let var = var_numbered(names, vars, cond_word(cond).name, number);
            keeps(names, var, cond)
        }
        None => false,
    }
}

// One more condition, whose name has this number.
fn in_cond<'s, 'a>(
    names: &MachineNames<'s, 'a>,
    vars: &List<Var<'a>>,
    cond: &RawCond,
    number: Option<u64>,
    found: CondFaults,
) -> CondFaults
    requires vars { AreVars names.now.scope.now.raw.now names.now.machine.now
        (var_words names.now.machine.now) vars.now }
    requires number { number
        ≡ number_in (names_of (var_words names.now.machine.now)) (cond_word cond.now).name }
    ensures unknown { result.unknown ≡ sooner found.unknown (least_place (unknown names.now.machine.now
        cond.now)) }
    ensures unsuited { result.unsuited
        ≡ sooner found.unsuited
        (least_place (unsuited names.now.scope.now.raw.now names.now.machine.now cond.now)) }
    ensures valueless { result.valueless
        ≡ sooner found.valueless
        (least_place (wrong_values names.now.scope.now.raw.now names.now.machine.now cond.now)) }
{
    let word = cond_word(cond);
    match number {
        Some(number) => {
            let var = var_numbered(names, vars, word.name, number);
            judge_cond(names, var, cond, found)
        }
        None => {
            let var = var_of(names, word.name);
            judge_cond(names, &var, cond, found)
        }
    }
}

// The number that the next condition's name is likely to have.
fn after(number: Option<u64>) -> u64 {
    match number {
        Some(number) => number.saturating_add(1),
        None => 0,
    }
}

// More conditions of a row.
fn in_conds<'s, 'a>(
    names: &MachineNames<'s, 'a>,
    vars: &List<Var<'a>>,
    conds: &[RawCond],
    found: CondFaults,
) -> CondFaults
    requires { AreVars names.now.scope.now.raw.now names.now.machine.now
        (var_words names.now.machine.now) vars.now }
    ensures unknown { result.unknown ≡ sooner found.unknown
        (least_place (flat_map (unknown names.now.machine.now) conds.now)) }
    ensures unsuited { result.unsuited
        ≡ sooner found.unsuited
        (least_place (flat_map (unsuited names.now.scope.now.raw.now names.now.machine.now) conds.now)) }
    ensures valueless { result.valueless
        ≡ sooner found.valueless
        (least_place (flat_map (wrong_values names.now.scope.now.raw.now names.now.machine.now)
        conds.now)) }
{
    let mut found = found;
    let mut first = 0;
    for cond in conds {
        let number = names.variable_from(first, cond_name(cond));
        first = after(number);
        if !is_kept(names, vars, cond, number) {
            found = in_cond(names, vars, cond, number, found);
        }
    }
    found
}

// The conditions of one more row.
fn in_row<'s, 'a>(
    names: &MachineNames<'s, 'a>,
    vars: &List<Var<'a>>,
    row: &RawRow,
    found: CondFaults,
) -> CondFaults
    requires { AreVars names.now.scope.now.raw.now names.now.machine.now
        (var_words names.now.machine.now) vars.now }
    ensures unknown { result.unknown ≡ sooner found.unknown
        (least_place (flat_map (unknown names.now.machine.now) row.now.conds)) }
    ensures unsuited { result.unsuited
        ≡ sooner found.unsuited
        (least_place (flat_map (unsuited names.now.scope.now.raw.now names.now.machine.now)
        row.now.conds)) }
    ensures valueless { result.valueless
        ≡ sooner found.valueless
        (least_place (flat_map (wrong_values names.now.scope.now.raw.now names.now.machine.now)
        row.now.conds)) }
{
    in_conds(names, vars, row.conds.as_slice(), found)
}

// More rows of a machine.
fn in_rows<'s, 'a>(
    names: &MachineNames<'s, 'a>,
    vars: &List<Var<'a>>,
    rows: &[RawRow],
    found: CondFaults,
) -> CondFaults
    requires { AreVars names.now.scope.now.raw.now names.now.machine.now
        (var_words names.now.machine.now) vars.now }
    ensures unknown { result.unknown ≡ sooner found.unknown
        (least_place (flat_map (λ (row : Row). flat_map (unknown names.now.machine.now) row.conds)
        rows.now)) }
    ensures unsuited { result.unsuited
        ≡ sooner found.unsuited
        (least_place (flat_map
        (λ (row : Row). flat_map (unsuited names.now.scope.now.raw.now names.now.machine.now)
        row.conds) rows.now)) }
    ensures valueless { result.valueless
        ≡ sooner found.valueless
        (least_place (flat_map
        (λ (row : Row). flat_map (wrong_values names.now.scope.now.raw.now names.now.machine.now)
        row.conds) rows.now)) }
{
    let mut found = found;
    for row in rows {
        found = in_row(names, vars, row, found);
    }
    found
}

// The rows of one more machine.
fn in_machine(
    alloc: Global,
    names: &MachineNames,
    found: CondFaults,
) -> Result<CondFaults, NoMemory>
    ensures unknown { IfOk result (λ next. next.unknown
        ≡ sooner found.unknown
        (least_place (flat_map (λ (row : Row). flat_map (unknown names.now.machine.now) row.conds)
        names.now.machine.now.rows))) }
    ensures unsuited { IfOk result (λ next. next.unsuited
        ≡ sooner found.unsuited
        (least_place (flat_map
        (λ (row : Row). flat_map (unsuited names.now.scope.now.raw.now names.now.machine.now)
        row.conds) names.now.machine.now.rows))) }
    ensures valueless { IfOk result (λ next. next.valueless
        ≡ sooner found.valueless
        (least_place (flat_map
        (λ (row : Row). flat_map (wrong_values names.now.scope.now.raw.now names.now.machine.now)
        row.conds) names.now.machine.now.rows))) }
{
    let vars = vars_of(alloc, names)?;
    Ok(in_rows(names, &vars, names.machine.rows.as_slice(), found))
}

// The rows of more machines.
fn in_machines(
    alloc: Global,
    machines: &[MachineNames],
    found: CondFaults,
) -> Result<CondFaults, NoMemory>
    ensures unknown { IfOk result (λ next. next.unknown
        ≡ sooner found.unknown
        (least_place (flat_map
        (λ (n : Names). flat_map (λ (row : Row). flat_map (unknown n.machine.now) row.conds)
        n.machine.now.rows) machines.now))) }
    ensures unsuited { IfOk result (λ next. next.unsuited
        ≡ sooner found.unsuited
        (least_place (flat_map
        (λ (n : Names). flat_map
        (λ (row : Row). flat_map (unsuited n.scope.now.raw.now n.machine.now) row.conds)
        n.machine.now.rows) machines.now))) }
    ensures valueless { IfOk result (λ next. next.valueless
        ≡ sooner found.valueless
        (least_place (flat_map
        (λ (n : Names). flat_map
        (λ (row : Row). flat_map (wrong_values n.scope.now.raw.now n.machine.now) row.conds)
        n.machine.now.rows) machines.now))) }
{
    let mut found = found;
    for names in machines {
        found = in_machine(alloc, names, found)?;
    }
    Ok(found)
}

// The least places where the rules on conditions are broken.
pub(crate) fn cond_faults(
    alloc: Global,
    raw: &RawNet,
    machines: &List<MachineNames>,
) -> Result<CondFaults, NoMemory>
    requires { AreMachineNames raw.now raw.now.machines machines.now }
    ensures unknown { IfOk result (λ found. found.unknown ≡ least_place (rule_15 raw.now)) }
    ensures unsuited { IfOk result (λ found. found.unsuited ≡ least_place (rule_16 raw.now)) }
    ensures valueless { IfOk result (λ found. found.valueless ≡ least_place (rule_17 raw.now)) }
{
    let none = CondFaults {
        unknown: None,
        unsuited: None,
        valueless: None,
    };
    in_machines(alloc, machines.as_slice(), none)
}
