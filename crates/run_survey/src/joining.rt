// Surveys of neighbouring seeds joined.
ghost use Rattle.std.specs.Prelude.{◌≡◌, ◌+◌, ◌<◌, ◌^◌, None, OnOk};
ghost use Rattle.run_survey.specs.Joins.{CoversBoth, KeepsShape, TellsBoth};
ghost use Rattle.run_survey.specs.Surveys.{AreAlike, IsOfRuns};

use crate::kinds::join_kinds;
use crate::said::{join_found, join_others};
use crate::spread::join_spreads;
use crate::told::Survey;
use polis_base::NoMemory;

impl Survey {
    /// Joins to it the survey of the runs of the seeds after its own, which has no others: it is
    /// then the survey of both. Where memory runs out it tells nothing any more.
    pub fn join(&mut self, next: &Survey) -> Result<(), NoMemory>
        requires told { IsOfRuns self.old }
        requires next_told { IsOfRuns next.now }
        requires alike { AreAlike self.old next.now }
        requires neighbours { next.now.seed ≡ self.old.seed + self.old.runs }
        requires no_others { next.now.others ≡ None }
        requires room { self.old.runs + next.now.runs < 2 ^ 64 }
        ensures told { OnOk result (TellsBoth self.old next.now self.new) }
        ensures is { OnOk result (CoversBoth self.old next.now self.new) }
        ensures shape { OnOk result (KeepsShape self.old next.now self.new) }
    {
        self.runs += next.runs;
        self.complete += next.complete;
        join_spreads(&mut self.lost, &next.lost);
        join_spreads(&mut self.unused, &next.unused);
        join_spreads(&mut self.jammed, &next.jammed);
        join_spreads(&mut self.taken, &next.taken);
        self.found = join_found(self.found, next.found);
        self.unfinished = join_others(self.unfinished, next.unfinished);
        join_kinds(&mut self.kinds, &mut self.others, &next.kinds)
    }
}
