// Checking an image against the tables of a network.
ghost use Rattle.std.specs.Prelude.{◌≡◌, ◌⊎◌, ◌<◌, ◌+◌, ◌∷◌, ◌++◌, List, ℕ, length, slice_get, Some, IfOk, IfSome, IfNone, IsTrue, IsFalse};
ghost use Rattle.domains.specs.Names.{is_same};
ghost use Rattle.task_code.specs.declared.instr.Instr.{Instr as InstrOf};
ghost use Rattle.task_code.specs.Codes.{Computes};
ghost use Rattle.task_image.specs.inner.Heads.{machine_of};
ghost use Rattle.task_image.specs.Images.{IsImage, codes_of as codes_in};
ghost use Rattle.task_image.specs.Verifying.{AreAlike, IsFirstWrong, FitsAt, FoundAt, Verifies};
ghost use Rattle.outcome_table.specs.Outcomes.{AreResultsOf};
ghost use Rattle.task_image.specs.inner.Walks.{AreLaws, IsWalk};
ghost use Rattle.task_machine.specs.Running.{CodeFits};
ghost use Rattle.task_machine.specs.Tasks.{AreTasks};
ghost use Rattle.transition_table.specs.Orders.{codes_of};
ghost use Rattle.transition_table.specs.Transitions.{IsDeterministic, AreDeterministic};

use crate::finding::Verify;
use crate::image::{Head, Image};
use domains::{Codes, VarTable, first_codes, next_codes};
use outcome_table::{Results, results_of};
use polis_base::NoMemory;
use std::alloc::Global;
use task_code::Code;
use task_machine::run;
use transition_table::{Machine, Network, Outcome, Snapshot};

fn same_sizes(one: &VarTable, other: &VarTable) -> bool
    ensures { result ≡ is_same one.now other.now }
{
    if one.len() != other.len() {
        return false;
    }
    for v in 0..one.len() {
        if *one.get(v) != *other.get(v) {
            return false;
        }
    }
    true
}

// Whether names and sizes agree.
fn are_alike(head: &Head, m: &Machine) -> bool
    ensures alike { IsTrue result → (c : List InstrOf) → AreAlike (machine_of head.now c) m.now }
    ensures differ { IsFalse result → (c : List InstrOf)
        → ¬ AreAlike (machine_of head.now c) m.now }
{
    if !head.name.same(&m.name) {
        return false;
    }
    if !same_sizes(&head.vars, &m.vars) {
        return false;
    }
    same_sizes(&head.results, &m.results)
}

// Whether codes are the first ones and then the second ones.
fn are_joined(first: &[u8], second: &[u8], codes: &[u8]) -> bool
    ensures { result ≡ is_same (first.now ++ second.now) codes.now }
{
    if codes.len() < first.len() {
        return false;
    }
    let (front, back) = codes.split_at(first.len());
    if first == front {
        return second == back;
    }
    false
}

// Whether an outcome has these codes: of `go`, of the state variables, of the outputs.
fn has_codes(o: &Outcome, codes: &Codes) -> bool
    ensures { result ≡ is_same (codes_of o.now) codes.now }
{
    match codes.as_slice() {
        [] => false,
        [go, rest @ ..] => {
            if *go == u8::from(o.fires) {
                return are_joined(o.next.as_slice(), o.outs.as_slice(), rest);
            }
            false
        }
    }
}

// What the walk over a machine's snapshots rests on.
fn laws_of_walks()
    ensures { AreLaws }
{
    transition_table::laws();
    transition_table::laws_of_computing();
    domains::laws_of_all_codes();
    domains::laws();
}

// Walks through the snapshots from the first one on, and stops at one on which code doesn't give
// the machine's transition. The outcome of each snapshot is known beforehand, so that no row is
// read.
fn is_wrong(code: &Code, m: &Machine, table: &Results, s: &mut Snapshot, o: &mut Outcome) -> bool
    requires deterministic { IsDeterministic m.now }
    requires fits { CodeFits m.now code.now }
    requires table { AreResultsOf m.now table.now }
    requires start { IsWalk m.now code.now s.old o.old 0 }
    ensures wrong { IsTrue result → IsFirstWrong m.now code.now s.new }
    ensures right { IsFalse result → Computes code.now m.now }
{
    laws_of_walks();
    for i in 0..table.numbers.len() {
        let number = *table.numbers.get(i);
        let codes = table.outcomes.get(number);
        run(code, s, o);
        if !has_codes(o, codes) {
            return true;
        }
        next_codes(&mut s.codes, &m.vars);
    }
    false
}

// The least snapshot on which code doesn't give a machine's transition, if there is one.
fn first_wrong(alloc: Global, code: &Code, m: &Machine) -> Result<Option<Snapshot>, NoMemory>
    requires deterministic { IsDeterministic m.now }
    requires fits { CodeFits m.now code.now }
    ensures some { IfOk result (λ found. IfSome found (IsFirstWrong m.now code.now)) }
    ensures none { IfOk result (λ found. IfNone found (Computes code.now m.now)) }
{
    let table = results_of(alloc, m)?;
    let mut s = Snapshot {
        codes: first_codes(alloc, &m.vars)?,
    };
    let mut o = m.blank(alloc)?;
    if is_wrong(code, m, &table, &mut s, &mut o) {
        Ok(Some(s))
    } else {
        Ok(None)
    }
}

// What is found of the machines of one number, of which there is one at least, where they don't
// fit.
fn found_at(alloc: Global, image: &Image, net: &Network, k: u64) -> Result<Option<Verify>, NoMemory>
    requires image { IsImage image.now }
    requires deterministic { AreDeterministic net.now }
    requires some { (k < length image.now) ⊎ (k < length net.now.machines) }
    ensures some { IfOk result (λ found. IfSome found (λ v.
        FoundAt v k (slice_get image.now k) (slice_get net.now.machines k))) }
    ensures none { IfOk result (λ found. IfNone found
        (FitsAt (slice_get image.now k) (slice_get net.now.machines k))) }
{
    if k >= image.len() {
        return Ok(Some(Verify::Shape { machine: k as u32 }));
    }
    if k >= net.machines.len() {
        return Ok(Some(Verify::Shape { machine: k as u32 }));
    }
    let m = net.machines.get(k);
    if !are_alike(image.head(k), m) {
        return Ok(Some(Verify::Shape { machine: k as u32 }));
    }
    match first_wrong(alloc, image.code(k), m)? {
        Some(snapshot) => Ok(Some(Verify::Wrong {
            machine: k as u32,
            snapshot,
        })),
        None => Ok(None),
    }
}

/// Checks an image against a network. It answers for the least number at which machines don't fit,
/// and whether they have one shape is asked before what the code does.
pub fn verify(alloc: Global, image: &Image, net: &Network) -> Result<Verify, NoMemory>
    requires image { IsImage image.now }
    requires deterministic { AreDeterministic net.now }
    ensures found { IfOk result (Verifies image.now net.now) }
    ensures tasks { IfOk result (λ found. found ≡ Verify.Fits
        → AreTasks net.now (codes_in image.now)) }
{
    let count = image.len().max(net.machines.len());
    for k in 0..count {
        if let Some(found) = found_at(alloc, image, net, k)? {
            return Ok(found);
        }
    }
    Ok(Verify::Fits)
}
