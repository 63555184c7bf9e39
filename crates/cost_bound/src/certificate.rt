// Certificates of a greatest cost: a number for each instruction, which isn't below what code costs
// from there on.
ghost use Rattle.std.specs.Prelude.{◌≡◌, ◌+◌, ◌*◌, ◌<◌, ◌≤◌, ◌^◌, ◌↔◌, ℕ, List, map, length, slice_get, slice_index, Some, IfOk, IsTrue};
ghost use Rattle.transition_table.specs.declared.machine.Machine.{Machine};
ghost use Rattle.task_code.specs.Facts.{goes_on, OnceCode};
ghost use Rattle.task_machine.specs.Running.{CodeFits};
ghost use Rattle.cost_bound.specs.declared.limits.TheConstants.{LABELLED_MAX};
ghost use Rattle.cost_bound.specs.inner.Scores.{MayGoOn};
ghost use Rattle.cost_bound.specs.Costs.{cost_of, CostOf};
ghost use Rattle.cost_bound.specs.Bounds.{IsGreatest};
ghost use Rattle.cost_bound.specs.Certificates.{greatest, needed, Covers, IsLeastCover, AreSmall};

use crate::costs::Costs;
use polis_base::{List, NoMemory};
use sgraph::Places;
use std::alloc::Global;
use task_code::{Code, Instr};

/// One number for each instruction.
pub type Labels = List<u64>;

// The greatest number of these places, 0 where there is none.
fn greatest_of(places: &Places, labels: &Labels) -> u64
    requires { (j : ℕ) → j < length places.now → slice_index places.now j < length labels.now }
    ensures { result ≡ greatest (map (slice_index labels.now) places.now) }
{
    let mut most = 0;
    for j in 0..places.len() {
        most = most.max(*labels.get(*places.get(j)));
    }
    most
}

// The least number that an instruction may have by those of the places to which it may go on.
fn needed(instr: &Instr, at: u64, costs: &Costs, labels: &Labels) -> u64
    requires goes_on { MayGoOn (length labels.now) at instr.now }
    requires small { (p : ℕ) → at < p → p < length labels.now → slice_index labels.now p < 2 ^ 62 }
    requires at { at < 2 ^ 63 }
    ensures { result ≡ needed costs.now labels.now at instr.now }
{
    let ahead = match instr {
        Instr::Test { targets, .. } => greatest_of(targets, labels),
        Instr::Set { .. } => *labels.get(at + 1),
        Instr::Goto { target } => *labels.get(*target),
        Instr::Halt => 0,
    };
    costs.of(instr) + ahead
}

/// The least numbers that cover code. The first is the greatest cost over the snapshots of any
/// machine that the code fits, where no path tests a variable twice.
pub fn labels(alloc: Global, code: &Code, costs: &Costs) -> Result<Labels, NoMemory>
    requires { length code.now ≤ LABELLED_MAX }
    ensures covers { IfOk result (IsLeastCover costs.now code.now) }
    ensures small { IfOk result AreSmall }
    ensures exact { IfOk result (λ labels. (m : Machine) → CodeFits m code.now → OnceCode code.now
        → IsGreatest m (CostOf costs.now code.now) (slice_index labels 0)) }
{
    let count = code.len();
    let mut labels = Labels::filled(alloc, count, 0)?;
    for at in (0..count).rev() {
        let label = needed(code.get(at), at, costs, &labels);
        labels.set(at, label);
    }
    Ok(labels)
}

/// Whether numbers cover code, wherever they are from. Then no snapshot costs more than the first
/// of them. It takes no memory.
pub fn audit(code: &Code, costs: &Costs, labels: &Labels) -> bool
    requires long { length labels.now ≡ length code.now }
    requires small { AreSmall labels.now }
    ensures covers { IsTrue result ↔ Covers costs.now code.now labels.now }
    ensures bounds { IsTrue result → (s : List ℕ)
        → CostOf costs.now code.now s ≤ slice_index labels.now 0 }
{
    for at in 0..code.len() {
        if *labels.get(at) < needed(code.get(at), at, costs, labels) {
            return false;
        }
    }
    true
}
