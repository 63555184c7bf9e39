// Which inputs change nothing on a snapshot, and which snapshots are jammed, by a machine's rows.
ghost use Rattle.std.specs.Prelude.{◌≡◌, ◌↔◌, ◌<◌, ◌≤◌, ◌&&◌, length, IfOk, IsTrue};
ghost use Rattle.domains.specs.Names.{is_same};
ghost use Rattle.transition_table.specs.Computed.{result_codes};
ghost use Rattle.transition_table.specs.Transitions.{IsDeterministic, IsSnapshot, Transition};
ghost use Rattle.journals.specs.Seen.{is_seen as sees};
ghost use Rattle.table_use.specs.Use.{alone as alone_on, can_fire, fires_alone as fires_by_one, is_jammed as jams, is_unused as changes_nothing, without as without_one};

use domains::Codes;
use polis_base::{Duplicate, NoMemory};
use std::alloc::Global;
use transition_table::{Machine, Outcome, Snapshot};

// Whether two outcomes are the same.
fn same_outcome(a: &Outcome, b: &Outcome) -> bool
    ensures { IsTrue result ↔ (a.now ≡ b.now) }
{
    a.fires == b.fires
        && a.next.as_slice() == b.next.as_slice()
        && a.outs.as_slice() == b.outs.as_slice()
}

// Whether some input is present.
fn is_seen(machine: &Machine, codes: &Codes) -> bool
    requires { length machine.now.inputs ≤ length codes.now }
    ensures { result ≡ sees machine.now codes.now }
{
    for i in 0..machine.inputs.len() {
        if *codes.get(i) != 0 {
            return true;
        }
    }
    false
}

// The snapshot with an input absent.
fn without(s: &Snapshot, i: u64) -> Result<Snapshot, NoMemory>
    requires { i < length s.now.codes }
    ensures { IfOk result (λ other. other.codes ≡ without_one s.now.codes i) }
{
    let mut other = s.copy()?;
    other.codes.set(i, 0);
    Ok(other)
}

// The snapshot with each input but one absent.
fn alone(machine: &Machine, s: &Snapshot, i: u64) -> Result<Snapshot, NoMemory>
    requires many { length machine.now.inputs ≤ length s.now.codes }
    requires input { i < length machine.now.inputs }
    ensures { IfOk result (λ other. other.codes ≡ alone_on machine.now s.now.codes i) }
{
    let mut other = s.copy()?;
    for k in 0..machine.inputs.len() {
        other.codes.set(k, 0);
    }
    other.codes.set(i, *s.codes.get(i));
    Ok(other)
}

// What the machine gives on a snapshot.
fn reacted(alloc: Global, machine: &Machine, s: &Snapshot) -> Result<Outcome, NoMemory>
    requires { IsSnapshot machine.now s.now }
    ensures { IfOk result (Transition machine.now s.now) }
{
    let mut o = machine.blank(alloc)?;
    machine.react(s, &mut o);
    Ok(o)
}

// Whether some row is enabled on a snapshot.
fn fires_on(alloc: Global, machine: &Machine, s: &Snapshot) -> Result<bool, NoMemory>
    requires { IsSnapshot machine.now s.now }
    ensures { IfOk result (λ fires. fires ≡ can_fire machine.now s.now.codes) }
{
    let o = reacted(alloc, machine, s)?;
    Ok(o.fires)
}

// Whether an input is present, and some row is enabled where it is alone.
fn fires_alone(alloc: Global, machine: &Machine, s: &Snapshot, i: u64) -> Result<bool, NoMemory>
    requires snapshot { IsSnapshot machine.now s.now }
    requires input { i < length machine.now.inputs }
    ensures { IfOk result (λ fires. fires ≡ fires_by_one machine.now s.now.codes i) }
{
    let _ = machine.var_count();
    if *s.codes.get(i) == 0 {
        return Ok(false);
    }
    let other = alone(machine, s, i)?;
    let fires = fires_on(alloc, machine, &other)?;
    Ok(fires)
}

/// Whether no row is enabled on a snapshot, and one would be if one of its inputs were alone.
pub(crate) fn is_jammed(alloc: Global, machine: &Machine, s: &Snapshot) -> Result<bool, NoMemory>
    requires { IsSnapshot machine.now s.now }
    ensures { IfOk result (λ jammed. jammed ≡ jams machine.now s.now.codes) }
{
    if fires_on(alloc, machine, s)? {
        return Ok(false);
    }
    for i in 0..machine.inputs.len() {
        if fires_alone(alloc, machine, s, i)? {
            return Ok(true);
        }
    }
    Ok(false)
}

// Whether some row is enabled on a snapshot, and the machine gives the same on another.
fn gives_same(
    alloc: Global,
    machine: &Machine,
    s: &Snapshot,
    other: &Snapshot,
) -> Result<bool, NoMemory>
    requires deterministic { IsDeterministic machine.now }
    requires snapshot { IsSnapshot machine.now s.now }
    requires other { IsSnapshot machine.now other.now }
    ensures { IfOk result (λ same. same
        ≡ (can_fire machine.now s.now.codes
        && is_same (result_codes machine.now s.now.codes)
        (result_codes machine.now other.now.codes))) }
{
    let here = reacted(alloc, machine, s)?;
    if !here.fires {
        return Ok(false);
    }
    let there = reacted(alloc, machine, other)?;
    Ok(same_outcome(&here, &there))
}

/// Whether an input is present on a snapshot on which a row is enabled, and changes nothing.
pub(crate) fn is_unused(
    alloc: Global,
    machine: &Machine,
    s: &Snapshot,
    i: u64,
) -> Result<bool, NoMemory>
    requires deterministic { IsDeterministic machine.now }
    requires snapshot { IsSnapshot machine.now s.now }
    requires input { i < length machine.now.inputs }
    ensures { IfOk result (λ unused. unused ≡ changes_nothing machine.now i s.now.codes) }
{
    let _ = machine.var_count();
    if *s.codes.get(i) == 0 {
        return Ok(false);
    }
    let other = without(s, i)?;
    if !is_seen(machine, &other.codes) {
        return Ok(false);
    }
    let same = gives_same(alloc, machine, s, &other)?;
    Ok(same)
}
