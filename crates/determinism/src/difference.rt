// The least snapshot of two rows' overlap on which they give one result different codes. Each row's
// code depends on one variable at most, so all other variables keep their least codes.
ghost use Rattle.std.specs.Prelude.{◌≡◌, ◌≢◌, ◌⊎◌, ◌<◌, ◌≤◌, ◌==◌, ℕ, List, length, slice_index, IfSome, IfNone, IsTrue, IsFalse};
ghost use Rattle.std.specs.List.{list_all};
ghost use Rattle.std.specs.Int.{bit_at};
ghost use Rattle.transition_table.specs.declared.machine.Machine.{Machine};
ghost use Rattle.transition_table.specs.MachineFacts.{names_result};
ghost use Rattle.transition_table.specs.Sources.{code_of};
ghost use Rattle.transition_table.specs.Transitions.{IsSnapshot, code_given};
ghost use Rattle.determinism.specs.inner.Boxes.{IsIn, AreLeast, SameBut};
ghost use Rattle.determinism.specs.inner.Pairs.{Agree, Differ, HangsOn, NeverDiffer, IsLeastAt, IsLeastWith};

use crate::overlap::write_least;
use crate::pair::Pair;
use transition_table::{Act, Machine, Row, Snapshot, Source};

// The source that the actions name for a result.
fn source_of(acts: &[Act], y: u32) -> Option<Source>
    ensures some { IfSome result (λ source. (m : Machine) (codes : List ℕ)
        → code_given m codes acts.now y ≡ code_of m.inputs m.vars codes y source) }
    ensures none { IfNone result ((m : Machine) (codes : List ℕ)
        → code_given m codes acts.now y ≡ 0) }
{
    for act in acts {
        if act.result == y {
            return Some(act.source);
        }
    }
    None
}

// Both rows name no source for the result, or the same.
fn same_source(first: &Row, second: &Row, y: u32) -> bool
    ensures { IsTrue result → (m : Machine) (codes : List ℕ)
        → code_given m codes first.now.acts y ≡ code_given m codes second.now.acts y }
{
    match source_of(first.acts.as_slice(), y) {
        Some(source) => match source_of(second.acts.as_slice(), y) {
            Some(other) => source == other,
            None => false,
        },
        None => source_of(second.acts.as_slice(), y).is_none(),
    }
}

// The variable that an action's source reads, the first where it reads none.
fn read(machine: &Machine, act: &Act) -> u64
    requires action { IsTrue (names_result machine.now.inputs machine.now.vars machine.now.results
        act.now) }
    requires some { 0 < length machine.now.vars }
    ensures there { result < length machine.now.vars }
    ensures only { (codes others : List ℕ) → slice_index codes result ≡ slice_index others result
        → code_of machine.now.inputs machine.now.vars codes act.now.result act.now.source
        ≡ code_of machine.now.inputs machine.now.vars others act.now.result act.now.source }
{
    match act.source {
        Source::Code(_) => 0,
        Source::Input(var) => var as u64,
        Source::Add(_) => machine.inputs.len() + (act.result as u64 - 1),
    }
}

// The variable on which it depends what the actions give a result.
fn read_by(machine: &Machine, acts: &[Act], y: u32) -> u64
    requires actions { IsTrue (list_all (names_result machine.now.inputs machine.now.vars
        machine.now.results)
        acts.now) }
    requires some { 0 < length machine.now.vars }
    ensures there { result < length machine.now.vars }
    ensures only { (codes others : List ℕ) → slice_index codes result ≡ slice_index others result
        → code_given machine.now codes acts.now y ≡ code_given machine.now others acts.now y }
{
    for act in acts {
        if act.result == y {
            return read(machine, act);
        }
    }
    0
}

// The rows give the result different codes.
fn differ(pair: &Pair<'_>, y: u32, s: &Snapshot) -> bool
    requires snapshot { IsSnapshot pair.now.machine.now s.now }
    ensures differ { IsTrue result → Differ pair.now y s.now.codes }
    ensures same { IsFalse result → Agree pair.now y s.now.codes }
{
    pair.first.code_for(pair.machine, y, s) != pair.second.code_for(pair.machine, y, s)
}

// Gives the variable v the code, where its set has it. Whether the result then differs.
fn try_code(pair: &Pair<'_>, y: u32, u: u64, v: u64, code: u8, s: &mut Snapshot) -> bool
    requires reads { HangsOn pair.now y u v }
    requires code { code < 64 }
    requires inside { IsIn pair.now.sets.now s.old.codes }
    ensures inside { IsIn pair.now.sets.now s.new.codes }
    ensures same { (k : ℕ) → k ≢ v → slice_index s.new.codes k ≡ slice_index s.old.codes k }
    ensures code { IsTrue result → slice_index s.new.codes v ≡ code }
    ensures differ { IsTrue result → Differ pair.now y s.new.codes }
    ensures none { IsFalse result → (t : List ℕ) → IsIn pair.now.sets.now t
        → (u ≢ v → slice_index t u ≡ slice_index s.old.codes u) → slice_index t v ≡ code
        → ¬ Differ pair.now y t }
{
    if !pair.sets.get(v).has(u32::from(code)) {
        return false;
    }
    s.codes.set(v, code);
    differ(pair, y, s)
}

// Gives the variable v the least code at which the result differs.
fn first_code(pair: &Pair<'_>, y: u32, u: u64, v: u64, s: &mut Snapshot) -> bool
    requires reads { HangsOn pair.now y u v }
    requires inside { IsIn pair.now.sets.now s.old.codes }
    ensures inside { IsIn pair.now.sets.now s.new.codes }
    ensures same { (k : ℕ) → k ≢ v → slice_index s.new.codes k ≡ slice_index s.old.codes k }
    ensures differ { IsTrue result → Differ pair.now y s.new.codes }
    ensures least { IsTrue result → (t : List ℕ) → IsIn pair.now.sets.now t
        → (u ≢ v → slice_index t u ≡ slice_index s.old.codes u) → Differ pair.now y t
        → slice_index s.new.codes v ≤ slice_index t v }
    ensures none { IsFalse result → (t : List ℕ) → IsIn pair.now.sets.now t
        → (u ≢ v → slice_index t u ≡ slice_index s.old.codes u) → ¬ Differ pair.now y t }
{
    for code in 0..33u8 {
        if try_code(pair, y, u, v, code, s) {
            return true;
        }
    }
    false
}

// Gives the variable u the code, where its set has it, and then v the least at which the result
// differs.
fn try_first(pair: &Pair<'_>, y: u32, u: u64, v: u64, code: u8, s: &mut Snapshot) -> bool
    requires reads { HangsOn pair.now y u v }
    requires apart { u < v }
    requires code { code < 64 }
    requires inside { IsIn pair.now.sets.now s.old.codes }
    ensures inside { IsIn pair.now.sets.now s.new.codes }
    ensures same { SameBut u v s.new.codes s.old.codes }
    ensures some { IsTrue result → IsLeastWith pair.now y u v code s.new.codes }
    ensures none { IsFalse result → (t : List ℕ) → IsIn pair.now.sets.now t
        → slice_index t u ≡ code → ¬ Differ pair.now y t }
{
    if !pair.sets.get(u).has(u32::from(code)) {
        return false;
    }
    s.codes.set(u, code);
    first_code(pair, y, u, v, s)
}

// Gives two variables the least codes at which the result differs.
fn first_pair(pair: &Pair<'_>, y: u32, u: u64, v: u64, s: &mut Snapshot) -> bool
    requires reads { HangsOn pair.now y u v }
    requires apart { u < v }
    requires inside { AreLeast pair.now.sets.now s.old.codes }
    ensures inside { IsIn pair.now.sets.now s.new.codes }
    ensures some { IsTrue result → IsLeastAt pair.now y s.new.codes }
    ensures none { IsFalse result → NeverDiffer pair.now y }
{
    for code in 0..33u8 {
        if try_first(pair, y, u, v, code, s) {
            return true;
        }
    }
    false
}

// Gives one variable the least code at which the result differs.
fn first_single(pair: &Pair<'_>, y: u32, v: u64, s: &mut Snapshot) -> bool
    requires reads { HangsOn pair.now y v v }
    requires inside { AreLeast pair.now.sets.now s.old.codes }
    ensures inside { IsIn pair.now.sets.now s.new.codes }
    ensures some { IsTrue result → IsLeastAt pair.now y s.new.codes }
    ensures none { IsFalse result → NeverDiffer pair.now y }
{
    first_code(pair, y, v, v, s)
}

/// Writes the least codes of the sets at which the result differs. False where it nowhere does.
pub(crate) fn least_difference(pair: &Pair<'_>, y: u32, s: &mut Snapshot) -> bool
    requires long { length s.old.codes ≡ length pair.now.sets.now }
    ensures long { length s.new.codes ≡ length pair.now.sets.now }
    ensures some { IsTrue result → IsLeastAt pair.now y s.new.codes }
    ensures none { IsFalse result → NeverDiffer pair.now y }
{
    if same_source(pair.first, pair.second, y) {
        return false;
    }
    write_least(pair.sets, &mut s.codes);
    if pair.sets.len() == 0 {
        return differ(pair, y, s);
    }
    let u = read_by(pair.machine, pair.first.acts.as_slice(), y);
    let v = read_by(pair.machine, pair.second.acts.as_slice(), y);
    if u < v {
        return first_pair(pair, y, u, v, s);
    }
    if v < u {
        return first_pair(pair, y, v, u, s);
    }
    first_single(pair, y, v, s)
}
