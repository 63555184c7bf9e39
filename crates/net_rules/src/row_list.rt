// The rows of a machine.
ghost use Rattle.std.specs.Prelude.{◌≡◌, ◌<◌, ◌≤◌, ◌+◌, ◌++◌, ℕ, ◌==◌, true, Some, length, map, unwrap_or, option_and_then, option_copied, cond as choose, IfOk, IfSome};
ghost use Rattle.polis_base.specs.declared.limits.TheConstants.{DOMAIN_SIZE_MAX};
ghost use Rattle.std.specs.List.{list_any, AllZip};
ghost use Rattle.std.specs.Int.{bit_at};
ghost use Rattle.net_reader.specs.declared.raw.RawCond.{RawCond as Declared};
ghost use Rattle.net_reader.specs.declared.raw.RawAct.{RawAct as DeclaredAct};
ghost use Rattle.rule_judge.specs.Rules.{source_of};
ghost use Rattle.net_names.specs.Numbers.{is_name_of, number};
ghost use Rattle.net_names.specs.Values.{value_in, count_of};
ghost use Rattle.net_names.specs.Vars.{IsVar, AreVars};
ghost use Rattle.net_names.specs.Scopes.{event_domain, state_words, cond_word, var_sizes, var_words};
ghost use Rattle.net_rules.specs.Networks.{value_number, value_code, allows, cond_of, act_of, source_in, emission_source, IsRowOf};
ghost use Rattle.net_rules.specs.inner.Sound.{Each, IsSound, IsSoundMachine, IsSoundRow, amount_of};

use crate::codes::value_or_zero;
use domains::VarTable;
use net_names::{MachineNames, Scope, Var, cond_name, cond_word, var_numbered};
use net_reader::{RawAct, RawCond, RawRow, RawShape, RawSource, RawValue, Word};
use polis_base::{List, Name, NoMemory, SmallSet};
use std::alloc::Global;
use transition_table::{Act, ActList, Cond, CondList, Row, RowList, Source};

// The number of a value of the domain of this name, 0 where there is none.
pub(crate) fn value_number(scope: &Scope, domain: &Option<Word>, value: &RawValue) -> u64
    requires { IsSound scope.now.raw.now }
    ensures number { result ≡ value_number scope.now.raw.now domain.now value.now }
    ensures small { result ≤ 32 }
{
    match domain {
        Some(word) => match scope.shape_of(word.name) {
            Some(shape) => value_or_zero(shape, value),
            None => 0,
        },
        None => 0,
    }
}

// The number of a value among these, 0 where it is none or there are none.
fn shape_number(shape: Option<&RawShape>, value: &RawValue) -> u64
    requires { IfSome (option_copied shape) (λ s. count_of s ≤ DOMAIN_SIZE_MAX) }
    ensures number { result ≡ unwrap_or
        (option_and_then (λ s. value_in s value.now) (option_copied shape.entry)) 0 }
    ensures small { result ≤ 32 }
{
    match shape {
        Some(shape) => value_or_zero(shape, value),
        None => 0,
    }
}

// The codes of the values, the first value's code being `first`.
fn value_codes(shape: Option<&RawShape>, first: u64, values: &[RawValue]) -> SmallSet
    requires count { IfSome (option_copied shape) (λ s. count_of s ≤ DOMAIN_SIZE_MAX) }
    requires first { first ≤ 1 }
    ensures { (c : ℕ) → (bit_at result c == 1)
        ≡ list_any (λ v. c == first + unwrap_or
        (option_and_then (λ s. value_in s v) (option_copied shape.entry)) 0) values.now }
{
    let mut codes = SmallSet::empty();
    for value in values {
        codes = codes.with((first + shape_number(shape, value)) as u32);
    }
    codes
}

// How many codes of a variable stand before that of its first value.
fn first_code(var: &Var) -> u64
    ensures first { result ≡ choose var.now.is_state 0 1 }
    ensures small { result ≤ 1 }
{
    if var.is_state { 0 } else { 1 }
}

// The codes of the values of a variable of this name.
fn named_codes(names: &MachineNames, name: Name, var: &Var, values: &[RawValue]) -> SmallSet
    requires sound { IsSound names.now.scope.now.raw.now }
    requires var { IsVar names.now.scope.now.raw.now names.now.machine.now name var.now }
    ensures { (c : ℕ) → (bit_at result c == 1)
        ≡ list_any (λ v. c == value_code names.now.scope.now.raw.now names.now.machine.now name v)
        values.now }
{
    value_codes(var.shape, first_code(var), values)
}

// The code of a value of a variable of this name.
fn named_code(names: &MachineNames, name: Name, var: &Var, value: &RawValue) -> u64
    requires sound { IsSound names.now.scope.now.raw.now }
    requires var { IsVar names.now.scope.now.raw.now names.now.machine.now name var.now }
    ensures code { result ≡ value_code names.now.scope.now.raw.now names.now.machine.now name
        value.now }
    ensures small { result ≤ 33 }
{
    first_code(var) + shape_number(var.shape, value)
}

// The codes that a condition on this variable allows.
fn allowed(names: &MachineNames, var: &Var, cond: &RawCond) -> SmallSet
    requires sound { IsSound names.now.scope.now.raw.now }
    requires var { IsVar names.now.scope.now.raw.now names.now.machine.now (cond_word cond.now).name
        var.now }
    ensures { (c : ℕ) → c < 64 → (bit_at result c == 1)
        ≡ allows names.now.scope.now.raw.now names.now.machine.now cond.now c }
{
    match cond {
        RawCond::Present(_) => SmallSet::first(64).without(0),
        RawCond::Absent(_) => SmallSet::empty().with(0),
        RawCond::Is { name, value } => {
            SmallSet::empty().with(named_code(names, name.name, var, value) as u32)
        }
        RawCond::OneOf { name, values } => { named_codes(names, name.name, var, values.as_slice()) }
    }
}

// A condition on the variable of the machine that has this number.
fn cond_of<'s, 'a>(
    names: &MachineNames<'s, 'a>,
    known: &List<Var<'a>>,
    vars: &VarTable,
    cond: &RawCond,
    var_number: u64,
) -> Cond
    requires sound { IsSound names.now.scope.now.raw.now }
    requires variables { AreVars names.now.scope.now.raw.now names.now.machine.now
        (var_words names.now.machine.now) known.now }
    requires vars { vars.now ≡ var_sizes names.now.scope.now.raw.now names.now.machine.now }
    requires kept { IsSoundMachine names.now.scope.now.raw.now names.now.machine.now }
    requires known { is_name_of (names.now.machine.now.inputs ++ state_words names.now.machine.now)
        (cond_word cond.now).name ≡ true }
    requires number { var_number
        ≡ number (names.now.machine.now.inputs ++ state_words names.now.machine.now)
        (cond_word cond.now).name }
    ensures { result ≡ cond_of names.now.scope.now.raw.now names.now.machine.now cond.now }
{
    let var = var_numbered(names, known, cond_word(cond).name, var_number);
    let size = u32::from(*vars.get(var_number));
    Cond {
        var: var_number as u32,
        codes: allowed(names, var, cond).both(SmallSet::first(size)),
    }
}

fn conds_of<'s, 'a>(
    alloc: Global,
    names: &MachineNames<'s, 'a>,
    known: &List<Var<'a>>,
    vars: &VarTable,
    conds: &[RawCond],
) -> Result<CondList, NoMemory>
    requires sound { IsSound names.now.scope.now.raw.now }
    requires variables { AreVars names.now.scope.now.raw.now names.now.machine.now
        (var_words names.now.machine.now) known.now }
    requires vars { vars.now ≡ var_sizes names.now.scope.now.raw.now names.now.machine.now }
    requires kept { IsSoundMachine names.now.scope.now.raw.now names.now.machine.now }
    requires known { Each
        (λ (c : Declared). is_name_of (names.now.machine.now.inputs
        ++ state_words names.now.machine.now) (cond_word c).name ≡ true) conds.now }
    ensures { IfOk result (λ made. made
        ≡ map (cond_of names.now.scope.now.raw.now names.now.machine.now) conds.now) }
{
    let mut made = CondList::with_room(alloc, conds.len() as u64)?;
    let mut first = 0;
    for cond in conds {
        let number = names.variable_number_from(first, cond_name(cond));
        first = number.saturating_add(1);
        made.push(cond_of(names, known, vars, cond, number))?;
    }
    Ok(made)
}

// Where an action takes its code from, over the domain of what it gives a value.
fn source_in(names: &MachineNames, domain: &Option<Word>, source: &RawSource) -> Source
    requires sound { IsSound names.now.scope.now.raw.now }
    requires kept { IsSoundMachine names.now.scope.now.raw.now names.now.machine.now }
    requires small { amount_of (Some source.now) ≤ 255 }
    ensures { result ≡ source_in names.now.scope.now.raw.now names.now.machine.now domain.now
        source.now }
{
    match source {
        RawSource::Value(value) => {
            Source::Code((1 + value_number(names.scope, domain, value)) as u8)
        }
        RawSource::Input(word) => Source::Input(names.variable_number(word.name) as u32),
        RawSource::Add { number, .. } => Source::Add(number.number as u8),
    }
}

// Where an emission of an event takes its code from.
fn emission_source(names: &MachineNames, event: &Word, source: &Option<RawSource>) -> Source
    requires sound { IsSound names.now.scope.now.raw.now }
    requires kept { IsSoundMachine names.now.scope.now.raw.now names.now.machine.now }
    requires small { amount_of source.now ≤ 255 }
    ensures { result
        ≡ emission_source names.now.scope.now.raw.now names.now.machine.now
        (event_domain names.now.scope.now.raw.now event.now.name) source.now }
{
    match source {
        Some(source) => source_in(names, &names.scope.event_domain(event.name), source),
        None => Source::Code(1),
    }
}

// The number of the result of an output.
fn output_result(names: &MachineNames, name: Name) -> u32
    requires sound { IsSound names.now.scope.now.raw.now }
    requires kept { IsSoundMachine names.now.scope.now.raw.now names.now.machine.now }
    ensures { result ≡ 1 + length names.now.machine.now.states
        + number names.now.machine.now.outputs name }
{
    (1 + names.machine.states.len() + names.output_number(name)) as u32
}

// The number of the result of a state variable.
fn state_result(names: &MachineNames, name: Name) -> u32
    requires sound { IsSound names.now.scope.now.raw.now }
    requires kept { IsSoundMachine names.now.scope.now.raw.now names.now.machine.now }
    ensures { result ≡ 1 + number (state_words names.now.machine.now) name }
{
    (1 + names.state_number(name)) as u32
}

// An action of a machine within the limits.
fn act_of(names: &MachineNames, act: &RawAct) -> Act
    requires sound { IsSound names.now.scope.now.raw.now }
    requires kept { IsSoundMachine names.now.scope.now.raw.now names.now.machine.now }
    requires small { amount_of (source_of act.now) ≤ 255 }
    ensures { result ≡ act_of names.now.scope.now.raw.now names.now.machine.now act.now }
{
    match act {
        RawAct::Emit { name, value } => Act {
            result: output_result(names, name.name),
            source: emission_source(names, name, value),
        },
        RawAct::Set { name, value } => {
            let domain = names.state_domain(name.name);
            Act {
                result: state_result(names, name.name),
                source: source_in(names, &domain, value),
            }
        }
    }
}

fn acts_of(alloc: Global, names: &MachineNames, acts: &[RawAct]) -> Result<ActList, NoMemory>
    requires sound { IsSound names.now.scope.now.raw.now }
    requires kept { IsSoundMachine names.now.scope.now.raw.now names.now.machine.now }
    requires small { Each (λ (a : DeclaredAct). amount_of (source_of a) ≤ 255) acts.now }
    ensures { IfOk result (λ made. made
        ≡ map (act_of names.now.scope.now.raw.now names.now.machine.now) acts.now) }
{
    let mut made = ActList::with_room(alloc, acts.len() as u64)?;
    for act in acts {
        made.push(act_of(names, act))?;
    }
    Ok(made)
}

// A row that keeps the rules.
fn row_of<'s, 'a>(
    alloc: Global,
    names: &MachineNames<'s, 'a>,
    known: &List<Var<'a>>,
    vars: &VarTable,
    row: &RawRow,
) -> Result<Row, NoMemory>
    requires sound { IsSound names.now.scope.now.raw.now }
    requires variables { AreVars names.now.scope.now.raw.now names.now.machine.now
        (var_words names.now.machine.now) known.now }
    requires vars { vars.now ≡ var_sizes names.now.scope.now.raw.now names.now.machine.now }
    requires kept { IsSoundMachine names.now.scope.now.raw.now names.now.machine.now }
    requires row { IsSoundRow names.now.scope.now.raw.now names.now.machine.now row.now }
    ensures { IfOk result
        (λ made. IsRowOf names.now.scope.now.raw.now names.now.machine.now row.now made) }
{
    let conds = conds_of(alloc, names, known, vars, row.conds.as_slice())?;
    let acts = acts_of(alloc, names, row.acts.as_slice())?;
    Ok(Row { conds, acts })
}

// The rows of a machine that keeps the rules.
pub(crate) fn rows_of<'s, 'a>(
    alloc: Global,
    names: &MachineNames<'s, 'a>,
    known: &List<Var<'a>>,
    vars: &VarTable,
    rows: &[RawRow],
) -> Result<RowList, NoMemory>
    requires sound { IsSound names.now.scope.now.raw.now }
    requires variables { AreVars names.now.scope.now.raw.now names.now.machine.now
        (var_words names.now.machine.now) known.now }
    requires vars { vars.now ≡ var_sizes names.now.scope.now.raw.now names.now.machine.now }
    requires kept { IsSoundMachine names.now.scope.now.raw.now names.now.machine.now }
    requires rows { Each (IsSoundRow names.now.scope.now.raw.now names.now.machine.now) rows.now }
    ensures { IfOk result
        (λ made. AllZip (IsRowOf names.now.scope.now.raw.now names.now.machine.now) rows.now made) }
{
    let mut made = RowList::with_room(alloc, rows.len() as u64)?;
    for row in rows {
        let next = row_of(alloc, names, known, vars, row)?;
        made.push(next)?;
    }
    Ok(made)
}
