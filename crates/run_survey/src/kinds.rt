// Kinds of outputs.
ghost use Rattle.std.specs.Prelude.{◌≡◌, ◌+◌, ◌<◌, ◌^◌, List, position, sum_by, IfOk, OnOk, Some};
ghost use Rattle.run_survey.specs.declared.told.Kind.{Kind};
ghost use Rattle.run_survey.specs.inner.Merging.{AreTold, all_merged, count_of, has_outputs, merged, others_count, run_count, with_runs};
ghost use Rattle.run_survey.specs.Kinds.{most_kinds};

use crate::told::{Kind, Others};
use polis_base::{Bytes, NoMemory};

/// How many kinds of outputs are told apart.
const KINDS: usize = 32;

// The place of the first kind with these outputs, if there is one.
fn place_of(kinds: &[Kind], outputs: &[u8]) -> Option<usize>
    ensures { result ≡ position (has_outputs outputs.now) kinds.now }
{
    for k in 0..kinds.len() {
        if kinds[k].outputs.as_slice() == outputs {
            return Some(k);
        }
    }
    None
}

// The same kind once more.
fn copy_of(kind: &Kind) -> Result<Kind, NoMemory>
    ensures { IfOk result (λ same. same ≡ kind.now) }
{
    let mut outputs = kind.outputs.beside();
    outputs.push(kind.outputs.as_slice())?;
    Ok(Kind {
        outputs,
        count: kind.count,
        seed: kind.seed,
    })
}

// The others with the runs of a kind among them.
fn others_with(others: Option<Others>, next: &Kind) -> Others
    requires { others_count others + next.now.count < 2 ^ 64 }
    ensures { Some result ≡ with_runs others next.now }
{
    match others {
        Some(others) => Others {
            count: others.count + next.count,
            seed: others.seed,
        },
        None => Others {
            count: next.count,
            seed: next.seed,
        },
    }
}

// The kinds with the runs of a later one: those of the kind with its outputs, or a kind more, or
// others where no more are told apart.
fn join_kind(
    kinds: &mut Vec<Kind>,
    others: &mut Option<Others>,
    next: &Kind,
) -> Result<(), NoMemory>
    requires room { run_count kinds.old.items others.old + next.now.count < 2 ^ 64 }
    ensures room { OnOk result (run_count kinds.new.items others.new
        ≡ run_count kinds.old.items others.old + next.now.count) }
    ensures told { OnOk result ((all : List Kind)
        → AreTold most_kinds all kinds.old.items others.old
        → AreTold most_kinds (merged all next.now) kinds.new.items others.new) }
{
    match place_of(kinds, next.outputs.as_slice()) {
        Some(k) => kinds[k].count += next.count,
        None => {
            if kinds.len() < KINDS {
                kinds.push(copy_of(next)?)?;
            } else {
                *others = Some(others_with(*others, next));
            }
        }
    }
    Ok(())
}

/// The kinds and the others with the kinds of the runs after these.
pub(crate) fn join_kinds(
    kinds: &mut Vec<Kind>,
    others: &mut Option<Others>,
    next: &[Kind],
) -> Result<(), NoMemory>
    requires { run_count kinds.old.items others.old + sum_by count_of next.now < 2 ^ 64 }
    ensures { OnOk result ((all : List Kind)
        → AreTold most_kinds all kinds.old.items others.old
        → AreTold most_kinds (all_merged all next.now) kinds.new.items others.new) }
{
    for kind in next {
        join_kind(kinds, others, kind)?;
    }
    Ok(())
}
