// The best cost of what is left of code from each instruction on.
ghost use Rattle.std.specs.Prelude.{◌≡◌, ◌+◌, ◌-◌, ◌*◌, ◌<◌, ◌≤◌, ◌^◌, ℕ, length, slice_get, slice_index, Some, IfOk, IsTrue, IsFalse};
ghost use Rattle.task_code.specs.declared.instr.Instr.{Instr};
ghost use Rattle.cost_bound.specs.inner.Scores.{AtLeast, IsAhead, IsBestOf, AreScores, score_of, IsSmall, Weigh, MayGoOn};

use crate::aim::Aim;
use crate::costs::Costs;
use crate::numbering::Weights;
use polis_base::{List, NoMemory};
use sgraph::Places;
use std::alloc::Global;
use task_code::{Code, Instr};

/// The greatest or the least that code can cost from an instruction on, and by which snapshots.
///
/// No path tests a variable twice. So the first snapshot that takes a path has the codes that the
/// path goes on by, and 0 elsewhere, and its number is a sum over the tests of the path, as the cost
/// is a sum over its instructions. Both sums are found together, from the last instruction to the
/// first.
#[derive(Clone, Copy)]
pub(crate) struct Score {
    /// The cost.
    pub cost: u64,
    /// The least number, of the snapshots that take this cost, by the codes that are tested from
    /// the instruction on.
    pub number: u64,
}

// Whether one score is better than another: by the cost, and at equal costs by the lesser number.
fn is_better(aim: Aim, a: Score, b: Score) -> bool
    ensures yes { IsTrue result → AtLeast aim a.cost a.number b.cost b.number }
    ensures no { IsFalse result → AtLeast aim b.cost b.number a.cost a.number }
{
    if a.cost == b.cost {
        return a.number < b.number;
    }
    match aim {
        Aim::Most => a.cost > b.cost,
        Aim::Least => a.cost < b.cost,
    }
}

// The score of going on by a code of a test.
fn by_code(targets: &Places, code: u64, weight: u64, scores: &List<Score>) -> Score
    requires code { code < length targets.now }
    requires within { slice_index targets.now code < length scores.now }
    requires small { IsSmall (2 ^ 43) (score_of scores.now (slice_index targets.now code)) }
    requires weight { weight * length targets.now ≤ 65536 }
    ensures cost { result.cost ≡ (score_of scores.now (slice_index targets.now code)).cost }
    ensures number { result.number
        ≡ code * weight + (score_of scores.now (slice_index targets.now code)).number }
{
    let ahead = *scores.get(*targets.get(code));
    Score {
        cost: ahead.cost,
        number: code * weight + ahead.number,
    }
}

// The best score of going on by one of the codes of a test.
fn best_of(aim: Aim, targets: &Places, weight: u64, scores: &List<Score>) -> Score
    requires some { 0 < length targets.now }
    requires within { (j : ℕ) → j < length targets.now
        → slice_index targets.now j < length scores.now }
    requires small { (j : ℕ) → j < length targets.now
        → IsSmall (2 ^ 43) (score_of scores.now (slice_index targets.now j)) }
    requires weight { weight * length targets.now ≤ 65536 }
    ensures { IsBestOf aim weight scores.now targets.now (length targets.now) result }
{
    let mut best = by_code(targets, 0, weight, scores);
    for code in 1..targets.len() {
        let score = by_code(targets, code, weight, scores);
        if is_better(aim, score, best) {
            best = score;
        }
    }
    best
}

// The best score of what comes after an instruction.
fn ahead(aim: Aim, instr: &Instr, at: u64, weights: &Weights, scores: &List<Score>) -> Score
    requires goes_on { MayGoOn (length scores.now) at instr.now }
    requires weigh { Weigh weights.now instr.now }
    requires small { (p : ℕ) → at < p → p < length scores.now
        → IsSmall (2 ^ 43) (score_of scores.now p) }
    requires at { at + 1 < 2 ^ 64 }
    ensures { IsAhead aim weights.now scores.now at instr.now result }
{
    match instr {
        Instr::Test { var, targets } => {
            best_of(aim, targets, *weights.get(u64::from(*var)), scores)
        }
        Instr::Set { .. } => *scores.get(at + 1),
        Instr::Goto { target } => *scores.get(*target),
        Instr::Halt => Score { cost: 0, number: 0 },
    }
}

/// The score of each instruction of code.
pub(crate) fn scores_of(
    alloc: Global,
    aim: Aim,
    code: &Code,
    costs: &Costs,
    weights: &Weights,
) -> Result<List<Score>, NoMemory>
    requires { (i : ℕ) (x : Instr) → slice_get code.now i ≡ Some x → Weigh weights.now x }
    ensures { IfOk result (AreScores aim costs.now weights.now code.now) }
{
    let count = code.len();
    let mut scores = List::filled(alloc, count, Score { cost: 0, number: 0 })?;
    for at in (0..count).rev() {
        let instr = code.get(at);
        let ahead = ahead(aim, instr, at, weights, &scores);
        let score = Score {
            cost: costs.of(instr) + ahead.cost,
            number: ahead.number,
        };
        scores.set(at, score);
    }
    Ok(scores)
}
