// Rules on what actions give, and where they take it from.
ghost use Rattle.std.specs.Prelude.{◌≡◌, flat_map, option_copied};
ghost use Rattle.std.specs.List.{list_all, list_any};
ghost use Rattle.net_reader.specs.declared.raw.RawMachine.{RawMachine as Machine};
ghost use Rattle.net_reader.specs.declared.raw.RawRow.{RawRow as Row};
ghost use Rattle.net_names.specs.Places.{sooner, least_place};
ghost use Rattle.net_names.specs.Machines.{AreMachineNames};
ghost use Rattle.rule_judge.specs.Rules.{rule_19, rule_21, rule_22, rule_23, rule_24, rule_25, wrong_value, wrong_emission, source_of, target_domain, is_valued, shows, same_domain, wrong_sum, not_below};
ghost use Rattle.rule_judge.specs.Plain.{is_plain};
ghost use Rattle.rule_judge.specs.inner.Plain.{all_plain};

use crate::act_rules::{ActRule, broken_by_acts};
use net_names::{MachineNames, is_same, no_value, sooner, unless, value_count};
use net_reader::{RawAct, RawCond, RawMachine, RawNet, RawRow, RawShape, RawSource, Word};
use polis_base::{List, Name};

// The least of what was found and of the place of a written value that is none of the domain.
fn wrong_value(shape: Option<&RawShape>, source: &RawSource, found: Option<u64>) -> Option<u64>
    ensures { result ≡ sooner found (least_place (wrong_value (option_copied shape.entry) source.now)) }
{
    match source {
        RawSource::Value(value) => no_value(shape, value, found),
        RawSource::Input(_) => found,
        RawSource::Add { .. } => found,
    }
}

// The least of what was found and of the place of an emission whose source is missing, forbidden or
// wrong.
fn wrong_emission(
    names: &MachineNames,
    name: Word,
    domain: Option<Word>,
    source: Option<RawSource>,
    found: Option<u64>,
) -> Option<u64>
    ensures { result
        ≡ sooner found (least_place (wrong_emission names.now.scope.now.raw.now name domain source)) }
{
    match domain {
        Some(word) => match source {
            Some(source) => wrong_value(names.shape_at(Some(word)), &source, found),
            None => sooner(found, name.at),
        },
        None => match source {
            Some(_) => sooner(found, name.at),
            None => found,
        },
    }
}

struct Values;

impl ActRule for Values {
    ghost use Rattle.rule_judge.specs.Rules.{wrong_act};

    ghost places = { wrong_act };

    fn check(
        &self,
        names: &MachineNames,
        _row: &RawRow,
        act: &RawAct,
        found: Option<u64>,
    ) -> Option<u64> {
        match act {
            RawAct::Emit { name, value } => {
                let domain = names.scope.event_domain(name.name);
                wrong_emission(names, *name, domain, *value, found)
            }
            RawAct::Set { name, value } => {
                let shape = names.shape_at(names.state_domain(name.name));
                wrong_value(shape, value, found)
            }
        }
    }
}

pub(crate) fn rule_19(raw: &RawNet, machines: &List<MachineNames>) -> Option<u64>
    requires { AreMachineNames raw.now raw.now.machines machines.now }
    ensures { result ≡ least_place (rule_19 raw.now) }
{
    broken_by_acts(&Values, raw, machines)
}

// Where an action takes its value from, if it gives one.
fn source_of(act: &RawAct) -> Option<RawSource>
    ensures { result ≡ source_of act.now }
{
    match act {
        RawAct::Emit { value, .. } => *value,
        RawAct::Set { value, .. } => Some(*value),
    }
}

// Whether the action takes its value from no variable.
fn is_plain(act: &RawAct) -> bool
    ensures { result ≡ is_plain act.now }
{
    match source_of(act) {
        Some(RawSource::Value(_)) => true,
        Some(RawSource::Input(_)) => false,
        Some(RawSource::Add { .. }) => false,
        None => true,
    }
}

fn plain_acts(acts: &[RawAct]) -> bool
    ensures { result ≡ list_all is_plain acts.now }
{
    acts.iter().all(|act| is_plain(act))
}

fn plain_row(row: &RawRow) -> bool
    ensures { result ≡ list_all is_plain row.now.acts }
{
    plain_acts(row.acts.as_slice())
}

fn plain_rows(rows: &[RawRow]) -> bool
    ensures { result ≡ list_all (λ (row : Row). list_all is_plain row.acts) rows.now }
{
    rows.iter().all(|row| plain_row(row))
}

fn plain_machine(machine: &RawMachine) -> bool
    ensures { result ≡ list_all (λ (row : Row). list_all is_plain row.acts) machine.now.rows }
{
    plain_rows(machine.rows.as_slice())
}

fn plain_machines(machines: &[RawMachine]) -> bool
    ensures { result
        ≡ list_all (λ (m : Machine). list_all (λ (row : Row). list_all is_plain row.acts) m.rows)
        machines.now }
{
    machines.iter().all(|machine| plain_machine(machine))
}

// Whether no action takes its value from a variable.
pub(crate) fn all_plain(raw: &RawNet) -> bool
    ensures { result ≡ all_plain raw.now }
{
    plain_machines(raw.machines.as_slice())
}

// The name of the domain of what an action gives a value.
fn target_domain(names: &MachineNames, act: &RawAct) -> Option<Word>
    ensures { result ≡ target_domain names.now.scope.now.raw.now names.now.machine.now act.now }
{
    match act {
        RawAct::Emit { name, .. } => names.scope.event_domain(name.name),
        RawAct::Set { name, .. } => names.state_domain(name.name),
    }
}

// Whether it is an input of the machine that has a domain.
fn is_valued(names: &MachineNames, name: Name) -> bool
    ensures { result ≡ is_valued names.now.scope.now.raw.now names.now.machine.now name }
{
    if names.is_input(name) {
        names.scope.event_domain(name).is_some()
    } else {
        false
    }
}

struct Inputs;

impl ActRule for Inputs {
    ghost use Rattle.rule_judge.specs.Rules.{no_input};

    ghost places = { no_input };

    fn check(
        &self,
        names: &MachineNames,
        _row: &RawRow,
        act: &RawAct,
        found: Option<u64>,
    ) -> Option<u64> {
        match source_of(act) {
            Some(RawSource::Input(word)) => { unless(is_valued(names, word.name), word.at, found) }
            Some(RawSource::Value(_)) => found,
            Some(RawSource::Add { .. }) => found,
            None => found,
        }
    }
}

pub(crate) fn rule_21(raw: &RawNet, machines: &List<MachineNames>) -> Option<u64>
    requires { AreMachineNames raw.now raw.now.machines machines.now }
    ensures { result ≡ least_place (rule_21 raw.now) }
{
    broken_by_acts(&Inputs, raw, machines)
}

// Whether a condition says that the event is present.
fn shows(name: &Name, cond: &RawCond) -> bool
    ensures { result ≡ shows name.now cond.now }
{
    match cond {
        RawCond::Present(word) => is_same(name, &word.name),
        RawCond::Absent(_) => false,
        RawCond::Is { name: word, .. } => is_same(name, &word.name),
        RawCond::OneOf { name: word, .. } => is_same(name, &word.name),
    }
}

// Whether one of the conditions says that the event is present.
fn is_shown(name: &Name, conds: &[RawCond]) -> bool
    ensures { result ≡ list_any (shows name.now) conds.now }
{
    for cond in conds {
        if shows(name, cond) {
            return true;
        }
    }
    false
}

// Whether a condition of the row says that the event is present.
fn row_shows(name: &Name, row: &RawRow) -> bool
    ensures { result ≡ list_any (shows name.now) row.now.conds }
{
    is_shown(name, row.conds.as_slice())
}

struct Shown;

impl ActRule for Shown {
    ghost use Rattle.rule_judge.specs.Rules.{not_shown};

    ghost places = { not_shown };

    fn check(
        &self,
        _local: &MachineNames,
        row: &RawRow,
        act: &RawAct,
        found: Option<u64>,
    ) -> Option<u64> {
        match source_of(act) {
            Some(RawSource::Input(word)) => unless(row_shows(&word.name, row), word.at, found),
            Some(RawSource::Value(_)) => found,
            Some(RawSource::Add { .. }) => found,
            None => found,
        }
    }
}

pub(crate) fn rule_22(raw: &RawNet, machines: &List<MachineNames>) -> Option<u64>
    requires { AreMachineNames raw.now raw.now.machines machines.now }
    ensures { result ≡ least_place (rule_22 raw.now) }
{
    broken_by_acts(&Shown, raw, machines)
}

// Whether both are named, and by one name.
fn same_domain(a: Option<Word>, b: Option<Word>) -> bool
    ensures { result ≡ same_domain a b }
{
    match a {
        Some(first) => match b {
            Some(second) => is_same(&first.name, &second.name),
            None => false,
        },
        None => false,
    }
}

struct Domains;

impl ActRule for Domains {
    ghost use Rattle.rule_judge.specs.Rules.{other_domain};

    ghost places = { other_domain };

    fn check(
        &self,
        names: &MachineNames,
        _row: &RawRow,
        act: &RawAct,
        found: Option<u64>,
    ) -> Option<u64> {
        match source_of(act) {
            Some(RawSource::Input(word)) => {
                let domain = names.scope.event_domain(word.name);
                unless(
                    same_domain(domain, target_domain(names, act)),
                    word.at,
                    found,
                )
            }
            Some(RawSource::Value(_)) => found,
            Some(RawSource::Add { .. }) => found,
            None => found,
        }
    }
}

pub(crate) fn rule_23(raw: &RawNet, machines: &List<MachineNames>) -> Option<u64>
    requires { AreMachineNames raw.now raw.now.machines machines.now }
    ensures { result ≡ least_place (rule_23 raw.now) }
{
    broken_by_acts(&Domains, raw, machines)
}

struct Sums;

impl ActRule for Sums {
    ghost use Rattle.rule_judge.specs.Rules.{other_name};

    ghost places = { other_name };

    fn check(
        &self,
        _local: &MachineNames,
        _row: &RawRow,
        act: &RawAct,
        found: Option<u64>,
    ) -> Option<u64> {
        match act {
            RawAct::Emit { value, .. } => match value {
                Some(RawSource::Add { name, .. }) => sooner(found, name.at),
                Some(RawSource::Value(_)) => found,
                Some(RawSource::Input(_)) => found,
                None => found,
            },
            RawAct::Set {
                name: target,
                value,
            } => match value {
                RawSource::Add { name, .. } => {
                    unless(is_same(&name.name, &target.name), name.at, found)
                }
                RawSource::Value(_) => found,
                RawSource::Input(_) => found,
            },
        }
    }
}

pub(crate) fn rule_24(raw: &RawNet, machines: &List<MachineNames>) -> Option<u64>
    requires { AreMachineNames raw.now raw.now.machines machines.now }
    ensures { result ≡ least_place (rule_24 raw.now) }
{
    broken_by_acts(&Sums, raw, machines)
}

struct Additions;

impl ActRule for Additions {
    ghost use Rattle.rule_judge.specs.Rules.{too_much};

    ghost places = { too_much };

    fn check(
        &self,
        names: &MachineNames,
        _row: &RawRow,
        act: &RawAct,
        found: Option<u64>,
    ) -> Option<u64> {
        match source_of(act) {
            Some(RawSource::Add { number, .. }) => {
                let count = value_count(names.scope, target_domain(names, act));
                unless(u64::from(number.number) < count, number.at, found)
            }
            Some(RawSource::Value(_)) => found,
            Some(RawSource::Input(_)) => found,
            None => found,
        }
    }
}

pub(crate) fn rule_25(raw: &RawNet, machines: &List<MachineNames>) -> Option<u64>
    requires { AreMachineNames raw.now raw.now.machines machines.now }
    ensures { result ≡ least_place (rule_25 raw.now) }
{
    broken_by_acts(&Additions, raw, machines)
}
