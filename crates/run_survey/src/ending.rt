// How a survey with a monitor ends.
ghost use Rattle.std.specs.Prelude.{◌≡◌};
ghost use Rattle.run_survey.specs.Watching.{ending_of};

use crate::told::Survey;

/// What a monitor says of all runs.
#[derive(Clone, Copy)]
pub enum Ending {
    /// It complains of some.
    Found,
    /// It complains of none, and some leave it unfinished.
    Unfinished,
    /// All hold, or there is no monitor.
    Held,
}

impl Survey {
    /// How it ends.
    pub fn ending(&self) -> Ending
        ensures { result ≡ ending_of self.now }
    {
        if self.found.is_some() {
            return Ending::Found;
        }
        if self.unfinished.is_some() {
            return Ending::Unfinished;
        }
        Ending::Held
    }
}
