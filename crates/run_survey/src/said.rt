// What a monitor says of many runs.
ghost use Rattle.std.specs.Prelude.{◌≡◌, ◌+◌, ◌<◌, ◌^◌, ◌∷◌, []};
ghost use Rattle.run_survey.specs.Watching.{found_runs, unfinished_runs};
ghost use Rattle.run_survey.specs.inner.Merging.{others_count};
ghost use Rattle.run_survey.specs.inner.Watching.{found_count, found_joined, others_joined};

use crate::told::{FoundRuns, Others};
use run_watch::Watched;

/// The run of this seed, where the monitor complains of it.
pub(crate) fn found_of_one(seed: u64, watched: Option<Watched>) -> Option<FoundRuns>
    ensures { result ≡ found_runs seed (watched ∷ []) }
{
    match watched {
        Some(Watched::Found(complaint)) => Some(FoundRuns {
            count: 1,
            seed,
            complaint,
        }),
        _ => None,
    }
}

/// The run of this seed, where it leaves the monitor unfinished.
pub(crate) fn unfinished_of_one(seed: u64, watched: Option<Watched>) -> Option<Others>
    ensures { result ≡ unfinished_runs seed (watched ∷ []) }
{
    match watched {
        Some(Watched::Unfinished) => Some(Others { count: 1, seed }),
        _ => None,
    }
}

/// The runs of which the monitor complains, with those after them.
pub(crate) fn join_found(own: Option<FoundRuns>, next: Option<FoundRuns>) -> Option<FoundRuns>
    requires { found_count own + found_count next < 2 ^ 64 }
    ensures { result ≡ found_joined own next }
{
    match (own, next) {
        (Some(own), Some(next)) => Some(FoundRuns {
            count: own.count + next.count,
            seed: own.seed,
            complaint: own.complaint,
        }),
        (Some(own), None) => Some(own),
        (None, next) => next,
    }
}

/// Runs of some sort, with those after them.
pub(crate) fn join_others(own: Option<Others>, next: Option<Others>) -> Option<Others>
    requires { others_count own + others_count next < 2 ^ 64 }
    ensures { result ≡ others_joined own next }
{
    match (own, next) {
        (Some(own), Some(next)) => Some(Others {
            count: own.count + next.count,
            seed: own.seed,
        }),
        (Some(own), None) => Some(own),
        (None, next) => next,
    }
}
