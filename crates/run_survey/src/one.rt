// The survey of one run.
ghost use Rattle.std.specs.Prelude.{◌≡◌, ◌∷◌, [], IfOk};
ghost use Rattle.run_survey.specs.Surveys.{IsSurvey};
ghost use Rattle.run_survey.specs.inner.Joining.{singles};

use crate::figures::Figures;
use crate::said::{found_of_one, unfinished_of_one};
use crate::spread::spreads_of_one;
use crate::told::{Kind, Spread, Survey};
use polis_base::{Bytes, List, NoMemory};
use std::alloc::Global;

// The one kind of a run with these outputs.
fn kinds_of_one(alloc: Global, seed: u64, outputs: Bytes) -> Result<Vec<Kind>, NoMemory>
    ensures { IfOk result (λ kinds. kinds.items
        ≡ record { outputs = outputs; count = 1; seed = seed } ∷ []) }
{
    let mut kinds = Vec::new(alloc);
    kinds.push(Kind {
        outputs,
        count: 1,
        seed,
    })?;
    Ok(kinds)
}

// The numbers of inputs, machines and rows.
#[derive(Drop)]
struct Numbers {
    lost: List<Spread>,
    unused: List<Spread>,
    jammed: List<Spread>,
    taken: List<Spread>,
}

// The numbers of one run.
fn numbers_of_one(alloc: Global, seed: u64, figures: &Figures) -> Result<Numbers, NoMemory>
    ensures lost { IfOk result (λ all. all.lost ≡ singles seed figures.now.lost) }
    ensures unused { IfOk result (λ all. all.unused ≡ singles seed figures.now.unused) }
    ensures jammed { IfOk result (λ all. all.jammed ≡ singles seed figures.now.jammed) }
    ensures taken { IfOk result (λ all. all.taken ≡ singles seed figures.now.taken) }
{
    let lost = spreads_of_one(alloc, seed, &figures.lost)?;
    let unused = spreads_of_one(alloc, seed, &figures.unused)?;
    let jammed = spreads_of_one(alloc, seed, &figures.jammed)?;
    let taken = spreads_of_one(alloc, seed, &figures.taken)?;
    Ok(Numbers {
        lost,
        unused,
        jammed,
        taken,
    })
}

/// What is told of one run by its figures.
pub fn survey_of_one(alloc: Global, seed: u64, figures: Figures) -> Result<Survey, NoMemory>
    ensures { IfOk result (λ survey. IsSurvey seed (figures ∷ []) survey) }
{
    let numbers = numbers_of_one(alloc, seed, &figures)?;
    let complete = u64::from(figures.complete);
    let kinds = kinds_of_one(alloc, seed, figures.outputs)?;
    let Numbers {
        lost,
        unused,
        jammed,
        taken,
    } = numbers;
    Ok(Survey {
        seed,
        runs: 1,
        complete,
        kinds,
        others: None,
        lost,
        unused,
        jammed,
        taken,
        found: found_of_one(seed, figures.watched),
        unfinished: unfinished_of_one(seed, figures.watched),
    })
}
