// What is so of a machine's snapshots, looked up by their numbers.
ghost use Rattle.std.specs.Prelude.{◌≡◌, ◌+◌, ◌%◌, ◌<◌, ◌^◌, ℕ, List, true, false, not, length, drop, IfOk, IsTrue};
ghost use Rattle.domains.specs.Names.{is_same};
ghost use Rattle.domains.specs.Tables.{are_sizes, fits, product, rank};
ghost use Rattle.transition_table.specs.Computed.{result_codes};
ghost use Rattle.table_use.specs.Lint.{counts};
ghost use Rattle.journals.specs.Seen.{is_present, is_seen};
ghost use Rattle.table_use.specs.Use.{can_fire, fires_alone, is_jammed, is_unused, without};
ghost use Rattle.table_use.specs.Keys.{AreKeys};
ghost use Rattle.table_use.specs.inner.Looking.{class_of};

use crate::keys::Keys;
use domains::{Codes, VarTable};
use outcome_table::{Results, lists_from};
use transition_table::Machine;

/// A machine, and what is looked up of it.
#[derive(Clone, Copy)]
pub(crate) struct Lookup<'a> {
    pub(crate) machine: &'a Machine,
    pub(crate) results: &'a Results,
    pub(crate) keys: &'a Keys,
    /// How many snapshots have no input present. These are the first ones.
    pub(crate) idle: u64,
    pub ghost are_keys: { AreKeys machine.now results.now keys.now },
    pub ghost are_idle: { idle ≡ product (drop (length machine.now.inputs) machine.now.vars) },
}

/// How many snapshots have no input present.
pub(crate) fn idle_count(machine: &Machine) -> u64
    ensures { result ≡ product (drop (length machine.now.inputs) machine.now.vars) }
{
    let _ = machine.var_count();
    lists_from(&machine.vars, machine.inputs.len())
}

/// The number of a list of codes among those that fit.
pub(crate) fn number_of(vars: &VarTable, codes: &Codes) -> u64
    requires fits { IsTrue (fits vars.now codes.now) }
    requires few { product vars.now < 2 ^ 63 }
    ensures { result ≡ rank vars.now codes.now }
{
    let mut number = 0;
    let mut step = 1;
    for v in (0..vars.len()).rev() {
        number += u64::from(*codes.get(v)) * step;
        step *= u64::from(*vars.get(v));
    }
    number
}

// The number of a snapshot with the code 0 of a variable in the place of its own.
fn number_without(lookup: &Lookup, n: u64, codes: &Codes, v: u64) -> u64
    requires fits { IsTrue (fits lookup.now.machine.now.vars codes.now) }
    requires number { rank lookup.now.machine.now.vars codes.now ≡ n }
    requires var { v < length lookup.now.machine.now.vars }
    ensures { result ≡ rank lookup.now.machine.now.vars (without codes.now v) }
{
    let _ = lookup.machine.var_count();
    n - u64::from(*codes.get(v)) * *lookup.keys.strides.get(v)
}

/// Whether a row is enabled on the snapshot of a number.
pub(crate) fn fires_at(lookup: &Lookup, n: u64) -> bool
    requires { n < product lookup.now.machine.now.vars }
    ensures { (s : List ℕ) → fits lookup.now.machine.now.vars s ≡ true
        → rank lookup.now.machine.now.vars s ≡ n → result ≡ can_fire lookup.now.machine.now s }
{
    *lookup.keys.fires.get(*lookup.results.numbers.get(n))
}

/// The class of the snapshot of a number: those of one class have the same outcome.
pub(crate) fn class_at(lookup: &Lookup, n: u64) -> u64
    requires { n < product lookup.now.machine.now.vars }
    ensures { result ≡ class_of lookup.now.results.now lookup.now.keys.now n }
{
    *lookup.keys.firsts.get(*lookup.results.numbers.get(n))
}

/// Whether the snapshot of a number has the outcome of a class.
pub(crate) fn stays_at(lookup: &Lookup, class: u64, other: u64) -> bool
    requires { other < product lookup.now.machine.now.vars }
    ensures { (s t : List ℕ) → fits lookup.now.machine.now.vars s ≡ true
        → fits lookup.now.machine.now.vars t ≡ true
        → class ≡ class_of lookup.now.results.now lookup.now.keys.now
        (rank lookup.now.machine.now.vars s)
        → rank lookup.now.machine.now.vars t ≡ other → result
        ≡ is_same (result_codes lookup.now.machine.now s) (result_codes lookup.now.machine.now t) }
{
    class == class_at(lookup, other)
}

/// Whether some input is present on the snapshot of a number.
pub(crate) fn sees_at(lookup: &Lookup, n: u64) -> bool
    ensures { (s : List ℕ) → fits lookup.now.machine.now.vars s ≡ true
        → rank lookup.now.machine.now.vars s ≡ n → result ≡ is_seen lookup.now.machine.now s }
{
    n >= lookup.idle
}

/// Whether an input that is present changes nothing on a snapshot on which a row is enabled.
pub(crate) fn unused_at(lookup: &Lookup, n: u64, codes: &Codes, i: u64) -> bool
    requires fits { IsTrue (fits lookup.now.machine.now.vars codes.now) }
    requires number { rank lookup.now.machine.now.vars codes.now ≡ n }
    requires input { i < length lookup.now.machine.now.inputs }
    ensures { result ≡ is_unused lookup.now.machine.now i codes.now }
{
    let _ = lookup.machine.var_count();
    if *codes.get(i) == 0 {
        return false;
    }
    if !fires_at(lookup, n) {
        return false;
    }
    idles_at(lookup, n, class_at(lookup, n), codes, i)
}

/// Whether an input is present on a snapshot on which no row is enabled, and one is without it.
pub(crate) fn stops_at(lookup: &Lookup, n: u64, codes: &Codes, i: u64) -> bool
    requires fits { IsTrue (fits lookup.now.machine.now.vars codes.now) }
    requires number { rank lookup.now.machine.now.vars codes.now ≡ n }
    requires idle { can_fire lookup.now.machine.now codes.now ≡ false }
    requires input { i < length lookup.now.machine.now.inputs }
    ensures { result ≡ counts lookup.now.machine.now i codes.now }
{
    let _ = lookup.machine.var_count();
    if *codes.get(i) == 0 {
        return false;
    }
    let other = number_without(lookup, n, codes, i);
    if !sees_at(lookup, other) {
        return false;
    }
    fires_at(lookup, other)
}

// Whether an input of a snapshot is present, and some row is enabled where it is alone. `state` is
// the number of the snapshot without its inputs.
fn fires_alone_at(lookup: &Lookup, state: u64, codes: &Codes, i: u64) -> bool
    requires fits { IsTrue (fits lookup.now.machine.now.vars codes.now) }
    requires state { state ≡ rank lookup.now.machine.now.vars codes.now % lookup.now.idle }
    requires input { i < length lookup.now.machine.now.inputs }
    ensures { result ≡ fires_alone lookup.now.machine.now codes.now i }
{
    let _ = lookup.machine.var_count();
    let code = u64::from(*codes.get(i));
    if code == 0 {
        return false;
    }
    fires_at(lookup, state + code * *lookup.keys.strides.get(i))
}

/// Whether no row is enabled on a snapshot, and one would be if one of its inputs were alone.
pub(crate) fn jammed_at(lookup: &Lookup, n: u64, codes: &Codes) -> bool
    requires fits { IsTrue (fits lookup.now.machine.now.vars codes.now) }
    requires number { rank lookup.now.machine.now.vars codes.now ≡ n }
    ensures { result ≡ is_jammed lookup.now.machine.now codes.now }
{
    let _ = lookup.machine.var_count();
    if fires_at(lookup, n) {
        return false;
    }
    let state = n % lookup.idle;
    for i in 0..lookup.machine.inputs.len() {
        if fires_alone_at(lookup, state, codes, i) {
            return true;
        }
    }
    false
}

/// Whether a snapshot, which has this class, has another outcome with the code 0 of a variable in
/// the place of its own.
pub(crate) fn differs_at(lookup: &Lookup, n: u64, class: u64, codes: &Codes, v: u64) -> bool
    requires fits { IsTrue (fits lookup.now.machine.now.vars codes.now) }
    requires number { rank lookup.now.machine.now.vars codes.now ≡ n }
    requires class { class ≡ class_of lookup.now.results.now lookup.now.keys.now n }
    requires var { v < length lookup.now.machine.now.vars }
    ensures { result ≡ not (is_same (result_codes lookup.now.machine.now codes.now)
        (result_codes lookup.now.machine.now (without codes.now v))) }
{
    !stays_at(lookup, class, number_without(lookup, n, codes, v))
}

/// Whether an input that is present changes nothing on a snapshot of this class, on which a row is
/// enabled.
pub(crate) fn idles_at(lookup: &Lookup, n: u64, class: u64, codes: &Codes, i: u64) -> bool
    requires fits { IsTrue (fits lookup.now.machine.now.vars codes.now) }
    requires number { rank lookup.now.machine.now.vars codes.now ≡ n }
    requires class { class ≡ class_of lookup.now.results.now lookup.now.keys.now n }
    requires fires { IsTrue (can_fire lookup.now.machine.now codes.now) }
    requires input { i < length lookup.now.machine.now.inputs }
    requires present { IsTrue (is_present i codes.now) }
    ensures { result ≡ is_unused lookup.now.machine.now i codes.now }
{
    let _ = lookup.machine.var_count();
    let other = number_without(lookup, n, codes, i);
    if !sees_at(lookup, other) {
        return false;
    }
    stays_at(lookup, class, other)
}
