// The rule on what actions name.
ghost use Rattle.std.specs.Prelude.{◌≡◌, ◌++◌, flat_map, IfOk};
ghost use Rattle.net_names.specs.Places.{sooner, least_place};
ghost use Rattle.net_names.specs.Numbers.{missing, repeated, no_name, is_name_of};
ghost use Rattle.net_names.specs.Tables.{has};
ghost use Rattle.net_names.specs.Scopes.{state_words};
ghost use Rattle.net_names.specs.Machines.{AreMachineNames};
ghost use Rattle.rule_judge.specs.Rules.{rule_18, emitted, set_names, not_once};

use crate::checks::{Check, check_all};
use crate::words::not_once;
use net_names::{Gather, MachineNames, Table, gather_all, is_same, unless};
use net_reader::{RawAct, RawNet, RawRow, Word};
use polis_base::{List, Name, NoMemory};
use std::alloc::Global;

// So many actions of a row are compared with each other without gathering their names.
const FEW_ACTS: u64 = 8;

struct EmittedName;

impl Gather<RawAct> for EmittedName {
    ghost use Rattle.rule_judge.specs.Rules.{emitted};

    ghost words = { λ _ act. emitted act };

    fn gather(&self, act: &RawAct, into: &mut List<Word>) -> Result<(), NoMemory> {
        match act {
            RawAct::Emit { name, .. } => into.push(*name),
            RawAct::Set { .. } => Ok(()),
        }
    }
}

struct SetName;

impl Gather<RawAct> for SetName {
    ghost use Rattle.rule_judge.specs.Rules.{set_names};

    ghost words = { λ _ act. set_names act };

    fn gather(&self, act: &RawAct, into: &mut List<Word>) -> Result<(), NoMemory> {
        match act {
            RawAct::Emit { .. } => Ok(()),
            RawAct::Set { name, .. } => into.push(*name),
        }
    }
}

fn emitted(alloc: Global, row: &RawRow) -> Result<List<Word>, NoMemory>
    ensures { IfOk result (λ words. words ≡ flat_map emitted row.now.acts) }
{
    gather_all(alloc, &EmittedName, &row.acts)
}

fn set_names(alloc: Global, row: &RawRow) -> Result<List<Word>, NoMemory>
    ensures { IfOk result (λ words. words ≡ flat_map set_names row.now.acts) }
{
    gather_all(alloc, &SetName, &row.acts)
}

// The actions of one kind, and what each of them names.
trait Target {
    ghost use Rattle.std.specs.Prelude.{List, option_to_list, option_copied};
    ghost use Rattle.net_reader.specs.declared.raw.Word.{Word};
    ghost use Rattle.net_reader.specs.declared.raw.RawAct.{RawAct};

    ghost words: { RawAct → List Word };

    // The name, if it is an action of this kind.
    fn word<'r>(&self, act: &'r RawAct) -> Option<&'r Word>
        ensures { option_to_list (option_copied result) ≡ words act.now };
}

impl Target for EmittedName {
    ghost use Rattle.rule_judge.specs.Rules.{emitted};

    ghost words = { emitted };

    fn word<'r>(&self, act: &'r RawAct) -> Option<&'r Word> {
        match act {
            RawAct::Emit { name, .. } => Some(name),
            RawAct::Set { .. } => None,
        }
    }
}

impl Target for SetName {
    ghost use Rattle.rule_judge.specs.Rules.{set_names};

    ghost words = { set_names };

    fn word<'r>(&self, act: &'r RawAct) -> Option<&'r Word> {
        match act {
            RawAct::Emit { .. } => None,
            RawAct::Set { name, .. } => Some(name),
        }
    }
}

// The least of what was found and of the place of the action's name, if it isn't declared.
fn missing_one<T: Target>(
    kind: &T,
    declared: &Table,
    act: &RawAct,
    found: Option<u64>,
) -> Option<u64>
    ensures { result ≡ sooner found (least_place (missing (has declared.now) (T.words act.now))) }
{
    match kind.word(act) {
        Some(word) => unless(
            declared.number_from(0, &word.name).is_some(),
            word.at,
            found,
        ),
        None => found,
    }
}

// The least of what was found and of the places of the names that aren't declared.
fn missing_in<T: Target>(
    kind: &T,
    declared: &Table,
    acts: &[RawAct],
    found: Option<u64>,
) -> Option<u64>
    ensures { result
        ≡ sooner found (least_place (missing (has declared.now) (flat_map T.words acts.now))) }
{
    let mut found = found;
    for act in acts {
        found = missing_one(kind, declared, act, found);
    }
    found
}

// Whether the action has this name.
fn has_target<T: Target>(kind: &T, act: &RawAct, name: &Name) -> bool
    ensures { result ≡ is_name_of (T.words act.now) name.now }
{
    match kind.word(act) {
        Some(word) => is_same(name, &word.name),
        None => false,
    }
}

// Whether one of the actions has this name.
fn have_target<T: Target>(kind: &T, acts: &[RawAct], name: &Name) -> bool
    ensures { result ≡ is_name_of (flat_map T.words acts.now) name.now }
{
    for act in acts {
        if has_target(kind, act, name) {
            return true;
        }
    }
    false
}

// The least of what was found and of the place of the action's name, if one of those before has it.
fn repeated_one<T: Target>(
    kind: &T,
    before: &[RawAct],
    act: &RawAct,
    found: Option<u64>,
) -> Option<u64>
    ensures { result
        ≡ sooner found
        (least_place (repeated (is_name_of (flat_map T.words before.now)) (T.words act.now))) }
{
    match kind.word(act) {
        Some(word) => unless(!have_target(kind, before, &word.name), word.at, found),
        None => found,
    }
}

// The least of what was found and of the places of the names that stand before.
fn repeated_in<T: Target>(kind: &T, acts: &[RawAct], found: Option<u64>) -> Option<u64>
    ensures { result
        ≡ sooner found (least_place (repeated no_name (flat_map T.words acts.now))) }
{
    let mut found = found;
    for (place, act) in acts.iter().enumerate() {
        found = repeated_one(kind, &acts[..place], act, found);
    }
    found
}

// The least of what was found and of the places of the names that aren't declared or stand before.
fn not_once_in<T: Target>(
    kind: &T,
    declared: &Table,
    acts: &[RawAct],
    found: Option<u64>,
) -> Option<u64>
    ensures { result
        ≡ sooner found
        (least_place (missing (has declared.now) (flat_map T.words acts.now)
        ++ repeated no_name (flat_map T.words acts.now))) }
{
    let found = missing_in(kind, declared, acts, found);
    repeated_in(kind, acts, found)
}

// The least place at fault in few actions, each of which is compared with those before.
fn in_few(names: &MachineNames, acts: &[RawAct], found: Option<u64>) -> Option<u64>
    ensures { result
        ≡ sooner found
        (least_place (not_once names.now.machine.now.outputs (flat_map emitted acts.now)
        ++ not_once (state_words names.now.machine.now) (flat_map set_names acts.now))) }
{
    let found = not_once_in(&EmittedName, names.outputs(), acts, found);
    not_once_in(&SetName, names.states(), acts, found)
}

// The least place at fault in the actions of a row, whose names are gathered.
fn in_many(
    alloc: Global,
    names: &MachineNames,
    row: &RawRow,
    found: Option<u64>,
) -> Result<Option<u64>, NoMemory>
    ensures { IfOk result (λ place. place
        ≡ sooner found
        (least_place (not_once names.now.machine.now.outputs (flat_map emitted row.now.acts)
        ++ not_once (state_words names.now.machine.now) (flat_map set_names row.now.acts)))) }
{
    let emits = emitted(alloc, row)?;
    let sets = set_names(alloc, row)?;
    let found = not_once(alloc, names.outputs(), &emits, found)?;
    not_once(alloc, names.states(), &sets, found)
}

#[derive(Drop)]
struct Targets<'l, 's, 'a> {
    alloc: Global,
    names: &'l MachineNames<'s, 'a>,
}

impl<'l, 's, 'a> Check<RawRow> for Targets<'l, 's, 'a> {
    ghost use Rattle.std.specs.Prelude.{flat_map, ◌++◌};
    ghost use Rattle.net_names.specs.Scopes.{state_words};
    ghost use Rattle.rule_judge.specs.Rules.{emitted, set_names, not_once};

    ghost places = { λ t row. not_once t.names.now.machine.now.outputs (flat_map emitted row.acts) ++ not_once (state_words t.names.now.machine.now) (flat_map set_names row.acts) };

    fn check(&self, row: &RawRow, found: Option<u64>) -> Result<Option<u64>, NoMemory> {
        if row.acts.len() <= FEW_ACTS {
            return Ok(in_few(self.names, row.acts.as_slice(), found));
        }
        in_many(self.alloc, self.names, row, found)
    }
}

#[derive(Drop)]
struct RowTargets {
    alloc: Global,
}

impl<'s, 'a> Check<MachineNames<'s, 'a>> for RowTargets {
    ghost use Rattle.std.specs.Prelude.{flat_map, ◌++◌};
    ghost use Rattle.net_reader.specs.declared.raw.RawRow.{RawRow};
    ghost use Rattle.net_names.specs.Scopes.{state_words};
    ghost use Rattle.rule_judge.specs.Rules.{emitted, set_names, not_once};

    ghost places = { λ _ l. flat_map (λ (row : RawRow). not_once l.machine.now.outputs (flat_map emitted row.acts) ++ not_once (state_words l.machine.now) (flat_map set_names row.acts)) l.machine.now.rows };

    fn check(
        &self,
        names: &MachineNames<'s, 'a>,
        found: Option<u64>,
    ) -> Result<Option<u64>, NoMemory> {
        let check = Targets {
            alloc: self.alloc,
            names,
        };
        check_all(&check, &names.machine.rows, found)
    }
}

pub(crate) fn rule_18<'s, 'a>(
    alloc: Global,
    raw: &RawNet,
    machines: &List<MachineNames<'s, 'a>>,
) -> Result<Option<u64>, NoMemory>
    requires { AreMachineNames raw.now raw.now.machines machines.now }
    ensures { IfOk result (λ place. place ≡ least_place (rule_18 raw.now)) }
{
    check_all(&RowTargets { alloc }, machines, None)
}
